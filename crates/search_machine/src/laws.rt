//! Laws of the machine, over every list of steps: each function's contract is a law, and its body is empty.

ghost use Rattle.std.specs.Prelude.{◌≡◌, ◌↔◌, ℕ, List, true};
ghost use Rattle.ot_theory.specs.Problems.{Problem};
ghost use Rattle.search_deeds.specs.Deeds.{AreBalanced, AreHonest};
ghost use Rattle.search_machine.specs.Kept.{IsKept, all_deeds};
ghost use Rattle.search_machine.specs.Machine.{IsFinished, LeadAll, State, is_empty};
ghost use Rattle.search_machine.specs.Standing.{IsChoice, IsReachedBy, StandsOnce};
ghost use Rattle.search_machine.specs.declared.step.Step.{Step};

/// In each state that a list of steps leads to, the store holds contradictions of the problem, each mark is true of its prefix, each
/// deed is honest, and the prefixes of deeds, queues, hands and outboxes together are the empty one and the children of each opened
/// one.
pub fn facts_are_kept()
    ensures { (problem : Problem) (workers places : ℕ) (steps : List Step) (state : State) → IsReachedBy problem workers places steps state → IsKept problem state }
{}

/// In each such state each choice stands in exactly one place: below a queued, handed or outboxed prefix, below a Cut deed, or as the
/// prefix of one Language deed.
pub fn each_choice_stands_once()
    ensures { (problem : Problem) (workers places : ℕ) (steps : List Step) (state : State) (choice : List ℕ) → IsReachedBy problem workers places steps state → IsChoice problem choice → StandsOnce state choice }
{}

/// Such a state is finished exactly where all queues, hands and outboxes are empty.
pub fn finished_where_empty()
    ensures { (problem : Problem) (workers places : ℕ) (steps : List Step) (state : State) → IsReachedBy problem workers places steps state → IsFinished state ↔ is_empty state ≡ true }
{}

/// The deeds of each finished state are honest and balanced.
pub fn finished_deeds_tell_all()
    ensures honest { (problem : Problem) (workers places : ℕ) (steps : List Step) (state : State) → IsReachedBy problem workers places steps state → AreHonest problem (all_deeds state) }
    ensures balanced { (problem : Problem) (workers places : ℕ) (steps : List Step) (state : State) → IsReachedBy problem workers places steps state → IsFinished state → AreBalanced problem (all_deeds state) }
{}

/// A list of steps leads from a state to one state alone.
pub fn steps_lead_to_one_state()
    ensures { (problem : Problem) (places : ℕ) (before : State) (steps : List Step) (after other : State) → LeadAll problem places before steps after → LeadAll problem places before steps other → after ≡ other }
{}
