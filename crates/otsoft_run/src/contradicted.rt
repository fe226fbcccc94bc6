//! The report of a command where no ranking keeps the conditions of the winners.

ghost use Rattle.std.specs.Prelude.{◌≡◌, true, IfOk, IsTrue};
ghost use Rattle.report_text.specs.Posed.{Poses};
ghost use Rattle.ot_theory.specs.Refutations.{certificate_of, is_contradicted, is_contradiction, one_winner_each, terms_of_winners};
ghost use Rattle.refutation.specs.Terms.{are_terms, terms_in};
ghost use Rattle.otsoft_run.specs.Answers.{IsContradictionReport};

use crate::judging::Posed;
use crate::report::Report;
use crate::status::Status;
use erc_vectors::NoMemory;
use refutation::{Contradiction, Term, core_of};
use report_text::contradiction_text;
use std::alloc::Global;

/// The report of the certificate of the winners' terms.
pub(crate) fn contradiction_report(
    alloc: Global,
    posed: &Posed,
    command: &str,
    terms: &[Term],
) -> Result<Report, NoMemory>
    requires poses { Poses posed.now.tableau posed.now.problem }
    requires winners { terms_in terms.now ≡ terms_of_winners posed.now.problem }
    requires genuine { IsTrue (are_terms posed.now.problem terms.now) }
    requires one { IsTrue (one_winner_each (terms_in terms.now)) }
    requires contradicted { is_contradicted posed.now.problem ≡ true }
    ensures report { IfOk result (λ report. IsContradictionReport command.now posed.now report.text) }
    ensures status { IfOk result (λ report. report.status ≡ Status.Contradictory) }
{
    let core = core_of(alloc, &posed.problem, terms)?;
    certificate_report(alloc, posed, command, &core)
}

/// The same where the certificate is at hand.
pub(crate) fn certificate_report(
    alloc: Global,
    posed: &Posed,
    command: &str,
    core: &Contradiction,
) -> Result<Report, NoMemory>
    requires poses { Poses posed.now.tableau posed.now.problem }
    requires certificate { terms_in core.now.terms ≡ certificate_of posed.now.problem (terms_of_winners posed.now.problem) }
    requires genuine { IsTrue (is_contradiction posed.now.problem (terms_in core.now.terms)) }
    ensures report { IfOk result (λ report. IsContradictionReport command.now posed.now report.text) }
    ensures status { IfOk result (λ report. report.status ≡ Status.Contradictory) }
{
    Ok(Report {
        text: contradiction_text(alloc, &posed.tableau, &posed.problem, command, core)?,
        status: Status::Contradictory,
    })
}
