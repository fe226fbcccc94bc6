//! Laws of schedules: each function's contract is a law, and its body is empty.

ghost use Rattle.std.specs.Prelude.{◌≡◌, ℕ};
ghost use Rattle.ot_theory.specs.Problems.{Problem};
ghost use Rattle.search_machine.specs.Machine.{LeadAll, State, start};
ghost use Rattle.search_schedule.specs.Schedules.{IsRunOf};

/// The steps of a schedule are a run of the machine: each is enabled when its turn comes. So all laws of the machine hold of it.
pub fn schedule_is_a_run()
    ensures { (problem : Problem) (workers places number : ℕ) (state : State) (learns : ℕ) (run : IsRunOf problem workers places number state learns) → LeadAll problem places (start workers) run.steps state }
{}

/// A number has one schedule: its steps lead to one state, and there is one number of Learn steps among them.
pub fn schedule_has_one_run()
    ensures state { (problem : Problem) (workers places number : ℕ) (state other : State) (learns count : ℕ) → IsRunOf problem workers places number state learns → IsRunOf problem workers places number other count → state ≡ other }
    ensures learns { (problem : Problem) (workers places number : ℕ) (state other : State) (learns count : ℕ) → IsRunOf problem workers places number state learns → IsRunOf problem workers places number other count → learns ≡ count }
{}
