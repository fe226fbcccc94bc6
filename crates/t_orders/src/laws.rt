//! Laws of implications: each function's contract is a law, and its body is empty.

ghost use Rattle.std.specs.Prelude.{ℕ, List};
ghost use Rattle.ot_theory.specs.Problems.{Problem};
ghost use Rattle.t_orders.specs.Implications.{Output};
ghost use Rattle.t_orders.specs.Laws.{AreToldByLanguages, GivesOneLanguage, ImpliesByLanguages, IsPossibleByLanguages};

/// Under each ranking that keeps the given pairs one language of a problem holds, and no other.
pub fn one_language_for_each_ranking()
    ensures { (problem : Problem) (order : List ℕ) → GivesOneLanguage problem order }
{}

/// Some ranking that keeps the given pairs makes an output optimal exactly where a language has it.
pub fn possible_by_languages()
    ensures { (problem : Problem) (output : Output) → IsPossibleByLanguages problem output }
{}

/// One output implies another exactly where every language that has the one has the other.
pub fn implied_by_languages()
    ensures { (problem : Problem) (from : Output) (to : Output) → ImpliesByLanguages problem from to }
{}

/// The implications of a problem are those that its languages tell.
pub fn told_by_languages()
    ensures { (problem : Problem) → AreToldByLanguages problem }
{}
