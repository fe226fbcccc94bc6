//! Cases, and which of them differs.

use crate::given::Given;
use erc_vectors::NoMemory;
use memory_runs::{Outside, Part, run_on};
use otsoft_run::Status;
use std::alloc::Global;
use std::thread::Threads;

/// A run on such a file under the name `a.txt`, with what its report has behind the head.
#[derive(Clone, Copy)]
pub(crate) struct Case {
    pub(crate) name: &'static str,
    pub(crate) words: &'static str,
    pub(crate) given: Given,
    pub(crate) tail: &'static str,
    pub(crate) status: Status,
}

/// The part in which a run is not as it has to be. Its first word is in the title of the report.
fn difference<R: Threads + Sync>(
    threads: &R,
    alloc: Global,
    case: &Case,
) -> Result<Option<Part>, NoMemory> {
    let outside = Outside::sound("a.txt", case.given.file.as_bytes());
    let left = run_on(threads, alloc, case.words, &outside)?;
    let report = [
        b"otsoft report 1\t".as_slice(),
        command_of(case.words).as_bytes(),
        b"\n",
        case.given.head.as_bytes(),
        case.tail.as_bytes(),
    ];
    Ok(left.difference(case.status, &report, b""))
}

/// The first word.
fn command_of(words: &str) -> &str {
    match words.split_once(' ') {
        Some((command, _)) => command,
        None => words,
    }
}

/// The first case whose run is not as it has to be, and in what.
pub(crate) fn first_difference<R: Threads + Sync>(
    threads: &R,
    alloc: Global,
    cases: &[Case],
) -> Result<Option<(&'static str, Part)>, NoMemory> {
    for case in cases {
        if let Some(part) = difference(threads, alloc, case)? {
            return Ok(Some((case.name, part)));
        }
    }
    Ok(None)
}
