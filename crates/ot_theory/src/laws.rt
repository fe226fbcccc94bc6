//! Laws of the definitions: each function's contract is a law, and its body is empty.

ghost use Rattle.std.specs.Prelude.{ℕ, List};
ghost use Rattle.ot_theory.specs.Problems.{Pair};
ghost use Rattle.ot_theory.specs.declared.Mark.{Mark};
ghost use Rattle.ot_theory.specs.Laws.{HoldsRankings, IsSatisfiedByLeast, IsEntailedByNegation, IsInconsistentByFusion, IsKeptByCondition, IsOptimalByConditions};

/// The list of the rankings of n constraints holds each of them, and nothing else.
pub fn rankings_are_all()
    ensures { (n : ℕ) → HoldsRankings n }
{}

/// A hierarchy satisfies a condition with W and L exactly where the least stratum of its W's is above that of its L's.
pub fn satisfied_by_least()
    ensures { (levels : List ℕ) (marks : List Mark) → IsSatisfiedByLeast levels marks }
{}

/// A set of conditions holds under no ranking exactly where some non-empty part of it fuses to an L and no W (Prince 2002).
pub fn inconsistent_by_fusion()
    ensures { (n : ℕ) (set : List (List Mark)) → IsInconsistentByFusion n set }
{}

/// Of the classes of an input's candidates, one is optimal exactly where the ranking keeps its conditions over all others.
pub fn optimal_by_conditions()
    ensures { (n : ℕ) (order : List ℕ) (profiles : List (List ℕ)) (a : ℕ) → IsOptimalByConditions n order profiles a }
{}

/// A set entails a condition exactly where its marks are all e, or no ranking keeps the set and the condition with W and L
/// exchanged (Prince 2002).
pub fn entailed_by_negation()
    ensures { (n : ℕ) (set : List (List Mark)) (marks : List Mark) → IsEntailedByNegation n set marks }
{}

/// A ranking puts the upper constraint of a given pair before the lower one exactly where it keeps the condition of the pair.
pub fn given_by_condition()
    ensures { (n : ℕ) (order : List ℕ) (pair : Pair) → IsKeptByCondition n order pair }
{}
