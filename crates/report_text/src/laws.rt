//! Laws of the definitions: each function's contract is a law, and its body is empty.

ghost use Rattle.std.specs.Prelude.{◌≡◌, ℕ, List, Option, Result};
ghost use Rattle.ot_base.specs.declared.tableau.Tableau.{Tableau};
ghost use Rattle.ot_theory.specs.Languages.{Term};
ghost use Rattle.refutation.specs.declared.typology.Typology.{Typology};
ghost use Rattle.ot_theory.specs.Problems.{Pair, Problem};
ghost use Rattle.report_text.specs.Printable.{IsPrintableWhereFound, IsReadBack, IsAnsweredBack};
ghost use Rattle.report_reader.specs.declared.reading.TextError.{TextError};
ghost use Rattle.report_reader.specs.declared.reading.TheConstants.{REPORT_LIMIT};

/// The report of a printable typology, of a tableau within the limits and with plain texts, and of given pairs where there are some, is
/// read as that typology, unless it is longer than can be read.
pub fn report_is_read_back()
    ensures { (tableau : Tableau) (given : Option (List Pair)) (languages : List (List ℕ × List ℕ)) (certificates : List (List Term)) (cuts : List (List ℕ × ℕ))
        → IsReadBack tableau given languages certificates cuts }
{}

/// So the call that reads such a report answers with that typology, or that there is no memory, and never with a bad line.
pub fn answer_is_read_back()
    ensures { (tableau : Tableau) (given : Option (List Pair)) (typology : Typology) (answer : Result Typology TextError) → IsAnsweredBack tableau given typology answer }
{}

/// The typology of a problem is printable: its languages with their least hierarchies, and all its cuts, with certificates that are
/// contradictions.
pub fn found_is_printable()
    ensures { (problem : Problem) (languages : List (List ℕ × List ℕ)) (certificates : List (List Term)) (cuts : List (List ℕ × ℕ))
        → IsPrintableWhereFound problem languages certificates cuts }
{}

/// The greatest number of bytes of a report that is read, in digits.
pub fn report_limit_in_digits()
    ensures { REPORT_LIMIT ≡ 268435456 }
{}
