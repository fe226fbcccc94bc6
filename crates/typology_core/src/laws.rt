//! Laws of the run of one worker: each function's contract is a law, and its body is empty.

ghost use Rattle.std.specs.Prelude.{◌≡◌, ℕ, flat_map};
ghost use Rattle.ot_theory.specs.Problems.{Problem};
ghost use Rattle.search_machine.specs.Machine.{LeadAll, State, start};
ghost use Rattle.typology_core.specs.Rounds.{IsLoneRun};

/// The rounds of one worker are a run of the machine: each step is enabled when its turn comes. So all laws of the machine hold of it.
pub fn lone_search_is_a_run()
    ensures { (problem : Problem) (places : ℕ) (state : State) (learns : ℕ) (run : IsLoneRun problem places state learns) → LeadAll problem places (start 1) (flat_map (λ round. round) run.rounds) state }
{}

/// There is one such run: its rounds lead to one state, and there is one number of Learn steps among them.
pub fn lone_search_has_one_run()
    ensures state { (problem : Problem) (places : ℕ) (state other : State) (learns count : ℕ) → IsLoneRun problem places state learns → IsLoneRun problem places other count → state ≡ other }
    ensures learns { (problem : Problem) (places : ℕ) (state other : State) (learns count : ℕ) → IsLoneRun problem places state learns → IsLoneRun problem places other count → learns ≡ count }
{}
