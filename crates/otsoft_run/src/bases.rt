//! The report of the two bases of what the winners ask for.

ghost use Rattle.std.specs.Prelude.{◌≡◌, IfOk, IsTrue, codes, filter};
ghost use Rattle.report_text.specs.Posed.{Poses};
ghost use Rattle.ot_theory.specs.Refutations.{is_contradicted};
ghost use Rattle.ot_theory.specs.Conditions.{has_both};
ghost use Rattle.otsoft_run.specs.Answers.{IsWinnersReport, IsBasesReport, is_written, status_by};

use crate::contradicted::contradiction_report;
use crate::judging::Posed;
use crate::report::Report;
use crate::status::Status;
use demotion::is_hopeless;
use erc_vectors::{Condition, List, NoMemory};
use fusional_reduction::bases;
use refutation::{conditions_of, winner_terms};
use report_text::bases_text;
use std::alloc::Global;

/// The report of the informative and the skeletal basis of those conditions of the winners that have both W and L, or of why no
/// ranking keeps the conditions of the winners.
pub(crate) fn bases_report(alloc: Global, posed: &Posed) -> Result<Report, NoMemory>
    requires { Poses posed.now.tableau posed.now.problem }
    ensures report { IfOk result (λ report. IsWinnersReport (codes "bases") (IsBasesReport posed.now) posed.now report.text) }
    ensures status { IfOk result (λ report. report.status ≡ status_by (is_contradicted posed.now.problem)) }
    ensures written { IfOk result (λ report. IsTrue (is_written report.status)) }
{
    let (tableau, problem) = (&posed.tableau, &posed.problem);
    let terms = winner_terms(alloc, problem)?;
    let set = conditions_of(alloc, problem, terms.as_slice())?;
    if is_hopeless(problem.constraints(), set.as_slice()) {
        return contradiction_report(alloc, posed, "bases", terms.as_slice());
    }
    let both = with_both(alloc, set.as_slice())?;
    let found = bases(alloc, both.as_slice())?;
    Ok(Report {
        text: bases_text(alloc, tableau, problem, &found)?,
        status: Status::Done,
    })
}

/// The conditions that have both W and L, in their order.
fn with_both(alloc: Global, set: &[Condition]) -> Result<List<Condition>, NoMemory>
    ensures { IfOk result (λ list. list ≡ filter has_both set.now) }
{
    let mut list = List::new(alloc);
    for condition in set {
        if condition.has_both() {
            list.push(*condition)?;
        }
    }
    Ok(list)
}
