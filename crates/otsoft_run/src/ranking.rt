//! The reports of a ranking of the winners.

ghost use Rattle.std.specs.Prelude.{◌≡◌, IfOk, IsTrue, Some, None};
ghost use Rattle.ot_base.specs.Acceptable.{IsAcceptable};
ghost use Rattle.report_text.specs.Posed.{Poses};
ghost use Rattle.ot_theory.specs.Refutations.{is_contradicted};
ghost use Rattle.otsoft_run.specs.Answers.{IsRankReport, is_written, status_by};

use crate::bias::{BiasedRanking, biased_ranking};
use crate::contradicted::{certificate_report, contradiction_report};
use crate::judging::Posed;
use crate::report::Report;
use crate::status::Status;
use erc_vectors::{ConId, NoMemory};
use refutation::{Finding, conditions_of, judge_terms, winner_terms};
use report_text::rank_text;
use std::alloc::Global;

/// The report of the least hierarchy of the winners, or of why there is none.
pub(crate) fn rank_report(alloc: Global, posed: &Posed) -> Result<Report, NoMemory>
    requires poses { Poses posed.now.tableau posed.now.problem }
    requires acceptable { IsAcceptable posed.now.tableau }
    ensures report { IfOk result (λ report. IsRankReport None posed.now report.text) }
    ensures status { IfOk result (λ report. report.status ≡ status_by (is_contradicted posed.now.problem)) }
    ensures written { IfOk result (λ report. IsTrue (is_written report.status)) }
{
    let (tableau, problem) = (&posed.tableau, &posed.problem);
    let terms = winner_terms(alloc, problem)?;
    let set = conditions_of(alloc, problem, terms.as_slice())?;
    match judge_terms(alloc, problem, terms.as_slice(), set)? {
        Finding::Holds(strata) => Ok(Report {
            text: rank_text(alloc, tableau, problem, &strata, None)?,
            status: Status::Done,
        }),
        Finding::Refuted(core) => certificate_report(alloc, posed, "rank", &core),
    }
}

/// The report of the hierarchy of the winners that keeps the named faithfulness constraints low, with its r-measure, or of why
/// there is none. Numbers that are no constraint's are passed over.
pub(crate) fn biased_report(
    alloc: Global,
    posed: &Posed,
    faith: &[ConId],
) -> Result<Report, NoMemory>
    requires poses { Poses posed.now.tableau posed.now.problem }
    requires acceptable { IsAcceptable posed.now.tableau }
    ensures report { IfOk result (λ report. IsRankReport (Some faith.now) posed.now report.text) }
    ensures status { IfOk result (λ report. report.status ≡ status_by (is_contradicted posed.now.problem)) }
    ensures written { IfOk result (λ report. IsTrue (is_written report.status)) }
{
    let (tableau, problem) = (&posed.tableau, &posed.problem);
    let terms = winner_terms(alloc, problem)?;
    let set = conditions_of(alloc, problem, terms.as_slice())?;
    match biased_ranking(alloc, problem.constraints(), set.as_slice(), faith)? {
        Some(BiasedRanking { strata, measure }) => Ok(Report {
            text: rank_text(alloc, tableau, problem, &strata, Some(measure))?,
            status: Status::Done,
        }),
        None => contradiction_report(alloc, posed, "rank", terms.as_slice()),
    }
}
