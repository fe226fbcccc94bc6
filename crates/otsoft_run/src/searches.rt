//! What is answered from the languages of a problem.

ghost use Rattle.std.specs.Prelude.{◌≡◌, ◌≤◌, IfOk, None, MatchOption, length, map};
ghost use Rattle.report_text.specs.Posed.{Poses};
ghost use Rattle.ot_theory.specs.Languages.{IsTypology};
ghost use Rattle.refutation.specs.Typologies.{found_of};
ghost use Rattle.ot_base.specs.declared.limits.TheConstants.{PLACE_LIMIT};
ghost use Rattle.search_machine.specs.declared.machine.TheConstants.{WORKER_LIMIT};
ghost use Rattle.otsoft_run.specs.declared.status.Status.{Status};
ghost use Rattle.typology_workers.specs.FoundSearch.{IsTypologyOf};
ghost use Rattle.otsoft_run.specs.Answers.{IsDemoReport, IsTypologyReport, IsTorderReport};
ghost use Rattle.otsoft_run.specs.Searched.{IsSearchBy, listing_of, report_of, summary_of};

use crate::judging::Posed;
use crate::report::{Answer, Report};
use crate::status::Status;
use demonstration_file::FILE_BYTES;
use erc_vectors::NoMemory;
use ot_base::{Gate, Label};
use refutation::{Language, Typology};
use report_text::{compact_typology_text, demo_text, torder_text, typology_text};
use std::alloc::Global;
use std::thread::Threads;
use t_orders::implications;
use typology_core::{run_schedule, search_alone, typology_of};
use typology_workers::search;

/// The report of the languages, cuts and certificates of a tableau, found with so many places for contradictions by so many workers:
/// under the schedule of a number, or in threads where they are several.
pub(crate) fn typology_answer<R: Threads + Sync, G: Gate>(
    threads: &R,
    alloc: Global,
    posed: &Posed,
    workers: usize,
    places: usize,
    schedule: Option<u64>,
    gate: &G,
) -> Result<Answer, NoMemory>
    requires some_workers { 1 ≤ workers }
    requires few_workers { workers ≤ WORKER_LIMIT }
    requires few { places ≤ PLACE_LIMIT }
    requires poses { Poses posed.now.tableau posed.now.problem }
    ensures report { IfOk result (λ answer. IsTypologyReport posed.now answer.report.text) }
    ensures status { IfOk result (λ answer. answer.report.status ≡ Status.Done) }
    ensures search { IfOk result (λ answer. MatchOption schedule
        (IsSearchBy posed.now.problem workers places (λ typology. answer.report.text ≡ report_of posed.now typology) answer.found)
        (λ number. answer.found ≡ None)) }
{
    match schedule {
        Some(number) => {
            let alone = run_schedule(alloc, &posed.problem, workers, places, number)?;
            Ok(Answer {
                report: done(typology_report(alloc, posed, &alone.typology)?),
                found: None,
            })
        }
        None if workers == 1 => Ok(Answer {
            report: done(lone_report(alloc, posed)?),
            found: None,
        }),
        None => {
            let found = search(threads, alloc, &posed.problem, workers, places, gate)?;
            Ok(Answer {
                report: done(typology_report(alloc, posed, &found.typology)?),
                found: Some(found),
            })
        }
    }
}

/// The report of the implications between outputs, which are read off the languages.
pub(crate) fn torder_answer<R: Threads + Sync, G: Gate>(
    threads: &R,
    alloc: Global,
    posed: &Posed,
    workers: usize,
    places: usize,
    gate: &G,
) -> Result<Answer, NoMemory>
    requires some_workers { 1 ≤ workers }
    requires few_workers { workers ≤ WORKER_LIMIT }
    requires few { places ≤ PLACE_LIMIT }
    requires poses { Poses posed.now.tableau posed.now.problem }
    ensures report { IfOk result (λ answer. IsTorderReport posed.now answer.report.text) }
    ensures status { IfOk result (λ answer. answer.report.status ≡ Status.Done) }
    ensures search { IfOk result (λ answer. IsSearchBy posed.now.problem workers places (λ typology. answer.report.text ≡ listing_of posed.now typology.languages) answer.found) }
{
    if workers == 1 {
        let typology = typology_of(alloc, &posed.problem)?;
        return Ok(Answer {
            report: done(torder_report(alloc, posed, typology.languages.as_slice())?),
            found: None,
        });
    }
    let found = search(threads, alloc, &posed.problem, workers, places, gate)?;
    Ok(Answer {
        report: done(torder_report(alloc, posed, found.typology.languages.as_slice())?),
        found: Some(found),
    })
}

/// The report of what is found in the demonstration file of a number.
pub(crate) fn demo_answer<R: Threads + Sync, G: Gate>(
    threads: &R,
    alloc: Global,
    posed: &Posed,
    number: u64,
    workers: usize,
    places: usize,
    gate: &G,
) -> Result<Answer, NoMemory>
    requires some_workers { 1 ≤ workers }
    requires few_workers { workers ≤ WORKER_LIMIT }
    requires few { places ≤ PLACE_LIMIT }
    requires poses { Poses posed.now.tableau posed.now.problem }
    ensures report { IfOk result (λ answer. IsDemoReport number posed.now answer.report.text) }
    ensures status { IfOk result (λ answer. answer.report.status ≡ Status.Done) }
    ensures search { IfOk result (λ answer. IsSearchBy posed.now.problem workers places (λ typology. answer.report.text ≡ summary_of number posed.now typology) answer.found) }
{
    if workers == 1 {
        let alone = search_alone(alloc, &posed.problem, places)?;
        return Ok(Answer {
            report: done(demo_report(alloc, posed, number, &alone.typology)?),
            found: None,
        });
    }
    let found = search(threads, alloc, &posed.problem, workers, places, gate)?;
    Ok(Answer {
        report: done(demo_report(alloc, posed, number, &found.typology)?),
        found: Some(found),
    })
}

/// The report of a run that is then done.
fn done(text: Label) -> Report
    ensures text { result.text ≡ text }
    ensures status { result.status ≡ Status.Done }
{
    Report {
        text,
        status: Status::Done,
    }
}

/// The report of the typology of a problem.
fn typology_report(alloc: Global, posed: &Posed, typology: &Typology) -> Result<Label, NoMemory>
    requires poses { Poses posed.now.tableau posed.now.problem }
    requires found { IsTypologyOf posed.now.problem typology.now }
    ensures made { IfOk result (λ report. report ≡ report_of posed.now typology.now) }
    ensures right { IfOk result (IsTypologyReport posed.now) }
{
    typology_text(alloc, &posed.tableau, &posed.problem, typology)
}

/// The report of the typology of a problem, which one worker finds.
fn lone_report(alloc: Global, posed: &Posed) -> Result<Label, NoMemory>
    requires { Poses posed.now.tableau posed.now.problem }
    ensures { IfOk result (IsTypologyReport posed.now) }
{
    let typology = typology_of(alloc, &posed.problem)?;
    compact_typology_text(alloc, &posed.tableau, &posed.problem, &typology)
}

/// The report of the implications between the outputs of a problem, read off its languages.
fn torder_report(alloc: Global, posed: &Posed, languages: &[Language]) -> Result<Label, NoMemory>
    requires poses { Poses posed.now.tableau posed.now.problem }
    requires found { IsTypology posed.now.problem (found_of languages.now) }
    ensures made { IfOk result (λ report. report ≡ listing_of posed.now languages.now) }
    ensures right { IfOk result (IsTorderReport posed.now) }
{
    let list = implications(alloc, &posed.problem, languages)?;
    torder_text(alloc, &posed.tableau, &posed.problem, list.as_slice())
}

/// The counts of the typology of a demonstration file, and the length of its report.
fn demo_report(
    alloc: Global,
    posed: &Posed,
    number: u64,
    typology: &Typology,
) -> Result<Label, NoMemory>
    requires poses { Poses posed.now.tableau posed.now.problem }
    requires found { IsTypologyOf posed.now.problem typology.now }
    ensures made { IfOk result (λ report. report ≡ summary_of number posed.now typology.now) }
    ensures right { IfOk result (IsDemoReport number posed.now) }
{
    let whole = typology_report(alloc, posed, typology)?;
    demo_text(alloc, number, FILE_BYTES, typology, whole.bytes().len())
}
