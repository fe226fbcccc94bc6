//! The report of the rankings that the winners force.

ghost use Rattle.std.specs.Prelude.{◌≡◌, IfOk, IsTrue, codes};
ghost use Rattle.ot_base.specs.Acceptable.{IsAcceptable};
ghost use Rattle.report_text.specs.Posed.{Poses};
ghost use Rattle.ot_theory.specs.Refutations.{is_contradicted};
ghost use Rattle.otsoft_run.specs.Answers.{IsWinnersReport, IsHasseReport, is_written, status_by};

use crate::contradicted::contradiction_report;
use crate::judging::Posed;
use crate::report::Report;
use crate::status::Status;
use demotion::is_hopeless;
use erc_vectors::NoMemory;
use hasse_listing::covers;
use refutation::{conditions_of, winner_terms};
use report_text::hasse_text;
use std::alloc::Global;

/// The report of the covers of the winners' conditions, or of why no ranking keeps these.
pub(crate) fn hasse_report(alloc: Global, posed: &Posed) -> Result<Report, NoMemory>
    requires poses { Poses posed.now.tableau posed.now.problem }
    requires acceptable { IsAcceptable posed.now.tableau }
    ensures report { IfOk result (λ report. IsWinnersReport (codes "hasse") (IsHasseReport posed.now) posed.now report.text) }
    ensures status { IfOk result (λ report. report.status ≡ status_by (is_contradicted posed.now.problem)) }
    ensures written { IfOk result (λ report. IsTrue (is_written report.status)) }
{
    let (tableau, problem) = (&posed.tableau, &posed.problem);
    let terms = winner_terms(alloc, problem)?;
    let set = conditions_of(alloc, problem, terms.as_slice())?;
    if is_hopeless(problem.constraints(), set.as_slice()) {
        return contradiction_report(alloc, posed, "hasse", terms.as_slice());
    }
    let list = covers(alloc, problem.constraints(), set.as_slice())?;
    Ok(Report {
        text: hasse_text(alloc, tableau, problem, list.as_slice())?,
        status: Status::Done,
    })
}
