//! The report of a command.

ghost use Rattle.std.specs.Prelude.{◌≡◌, IfOk, IsTrue, Ok, None};
ghost use Rattle.ot_base.specs.Acceptable.{IsAcceptable};
ghost use Rattle.report_text.specs.Posed.{Poses};
ghost use Rattle.command_words.specs.Words.{IsWithinLimits};
ghost use Rattle.otsoft_run.specs.Answers.{IsReport, is_written, written_status};
ghost use Rattle.otsoft_run.specs.Searched.{IsSearch};

use crate::bases::bases_report;
use crate::hasse::hasse_report;
use crate::judging::Posed;
use crate::ranking::{biased_report, rank_report};
use crate::searches::{demo_answer, torder_answer, typology_answer};
use crate::status::Status;
use command_words::Settings;
use erc_vectors::NoMemory;
use ot_base::{Gate, Label};
use std::alloc::Global;
use std::thread::Threads;
use typology_workers::Found;

/// A report, and the status of a run that wrote it whole.
#[derive(Debug, Drop)]
pub(crate) struct Report {
    pub(crate) text: Label,
    pub(crate) status: Status,
}

/// What a command answers: its report, and the search that it was made from where that was one in threads.
#[derive(Drop)]
pub(crate) struct Answer {
    pub(crate) report: Report,
    pub(crate) found: Option<Found>,
}

/// What a command answers on what its file poses.
pub(crate) fn answer_of<R: Threads + Sync, G: Gate>(
    threads: &R,
    alloc: Global,
    settings: &Settings,
    posed: &Posed,
    gate: &G,
) -> Result<Answer, NoMemory>
    requires poses { Poses posed.now.tableau posed.now.problem }
    requires acceptable { IsAcceptable posed.now.tableau }
    requires within { IsWithinLimits settings.now }
    ensures report { IfOk result (λ answer. IsReport settings.now posed.now answer.report.text) }
    ensures status { IfOk result (λ answer. answer.report.status ≡ written_status settings.now posed.now) }
    ensures written { IfOk result (λ answer. IsTrue (is_written answer.report.status)) }
    ensures search { IfOk result (λ answer. IsSearch settings.now posed.now answer.report.text answer.found) }
{
    match settings {
        Settings::Typology {
            workers,
            places,
            schedule,
            ..
        } => typology_answer(threads, alloc, posed, *workers, *places, *schedule, gate),
        Settings::Torder {
            workers,
            places,
            ..
        } => torder_answer(threads, alloc, posed, *workers, *places, gate),
        Settings::Rank { faith, .. } => match faith {
            None => unsearched(rank_report(alloc, posed)),
            Some(faith) => unsearched(biased_report(alloc, posed, faith.as_slice())),
        },
        Settings::Bases { .. } => unsearched(bases_report(alloc, posed)),
        Settings::Hasse { .. } => unsearched(hasse_report(alloc, posed)),
        Settings::Demo {
            number,
            workers,
            places,
        } => demo_answer(threads, alloc, posed, *number, *workers, *places, gate),
    }
}

/// A report that no search in threads was made for.
fn unsearched(report: Result<Report, NoMemory>) -> Result<Answer, NoMemory>
    ensures { IfOk result (λ answer. (report ≡ Ok answer.report) × (answer.found ≡ None)) }
{
    Ok(Answer {
        report: report?,
        found: None,
    })
}
