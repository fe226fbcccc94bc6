//! Laws of contradictions: each function's contract is a law, and its body is empty.

ghost use Rattle.std.specs.Prelude.{List, ℕ};
ghost use Rattle.ot_theory.specs.Languages.{Term};
ghost use Rattle.ot_theory.specs.Problems.{Problem};
ghost use Rattle.refutation.specs.Laws.{RefutesOnlyRefuted};

/// A genuine contradiction refutes only prefixes that hold under no ranking.
pub fn genuine_refutes()
    ensures { (problem : Problem) (terms : List Term) (prefix : List ℕ) → RefutesOnlyRefuted problem terms prefix }
{}
