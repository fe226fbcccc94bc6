//! Laws of the problem that a tableau poses: each function's contract is a law, and its body is empty.

ghost use Rattle.std.specs.Prelude.{List, ℕ};
ghost use Rattle.ot_base.specs.declared.tableau.InputRows.{InputRows};
ghost use Rattle.ot_theory.specs.Problems.{Problem};
ghost use Rattle.violation_profiles.specs.Laws.{IsOptimalByConditions, HasWinnerByCounts};

/// Of the classes of an input, one is optimal exactly where the ranking keeps its conditions over all others.
pub fn optimal_by_conditions()
    ensures { (problem : Problem) (order : List ℕ) (i : ℕ) (a : ℕ) → IsOptimalByConditions problem order i a }
{}

/// An input of a tableau has no winner exactly where no candidate has a positive count.
pub fn winner_by_counts()
    ensures { (rows : InputRows) → HasWinnerByCounts rows }
{}
