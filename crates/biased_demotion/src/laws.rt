//! Laws of the definitions: each function's contract is a law, and its body is empty.

ghost use Rattle.std.specs.Prelude.{ℕ, Bool, List};
ghost use Rattle.ot_theory.specs.declared.Mark.{Mark};
ghost use Rattle.biased_demotion.specs.Laws.{HasOneNext, HasOneHierarchy};

/// The four rules give at most one next stratum, and a set of conditions has at most one hierarchy of biased demotion.
pub fn one_hierarchy()
    ensures next { (faith : List Bool) (levels : List ℕ) (set : List (List Mark)) → HasOneNext faith levels set }
    ensures hierarchy { (faith : List Bool) (set : List (List Mark)) → HasOneHierarchy faith set }
{}
