//! Reports of searches in threads.

use erc_vectors::NoMemory;
use memory_runs::{Outside, Part, run_on};
use otsoft_run::Status;
use std::alloc::Global;
use std::test::Fail;
use std::thread::Threads;

/// Numbers of workers and of places.
const SIZES: [(usize, usize); 10] = [
    (1, 0),
    (1, 1),
    (1, 1024),
    (2, 0),
    (2, 1),
    (2, 1024),
    (8, 0),
    (8, 1),
    (8, 1024),
    (64, 1),
];

/// Two inputs that no ranking repairs in unlike ways.
const FILE: &[u8] = b"\t\t\tNoCoda\tMax\tDep\n\
        \t\t\tNoCoda\tMax\tDep\n\
        pat\tpat\t1\t1\t0\t0\n\
        \tpa\t0\t0\t1\t0\n\
        \tpa.ti\t0\t0\t0\t1\n\
        tak\ttak\t1\t1\t0\t0\n\
        \tta\t0\t0\t1\t0\n\
        \tta.ki\t0\t0\t0\t1\n";

const HEAD: &str = "constraints\t3\n\
        constraint\t1\tNoCoda\tNoCoda\n\
        constraint\t2\tMax\tMax\n\
        constraint\t3\tDep\tDep\n\
        inputs\t2\n\
        input\t1\tpat\t3\n\
        class\t1.1\t1 0 0\tpat\n\
        class\t1.2\t0 1 0\tpa\n\
        class\t1.3\t0 0 1\tpa.ti\n\
        input\t2\ttak\t3\n\
        class\t2.1\t1 0 0\ttak\n\
        class\t2.2\t0 1 0\tta\n\
        class\t2.3\t0 0 1\tta.ki\n";

const TYPOLOGY: &str = "languages\t3\n\
        language\t1\t1 1\t2 3 | 1\n\
        language\t2\t2 2\t1 3 | 2\n\
        language\t3\t3 3\t1 2 | 3\n\
        certificates\t6\n\
        certificate\t1\tLLe\t1:1>2 2:2>1\n\
        certificate\t2\tLeL\t1:1>3 2:3>1\n\
        certificate\t3\tLLe\t1:2>1 2:1>2\n\
        certificate\t4\teLL\t1:2>3 2:3>2\n\
        certificate\t5\tLeL\t1:3>1 2:1>3\n\
        certificate\t6\teLL\t1:3>2 2:2>3\n\
        cuts\t6\n\
        cut\t1\t1 2\t1\n\
        cut\t2\t1 3\t2\n\
        cut\t3\t2 1\t3\n\
        cut\t4\t2 3\t4\n\
        cut\t5\t3 1\t5\n\
        cut\t6\t3 2\t6\n\
        end\n";

const IMPLICATIONS: &str = "implications\t6\n\
        implication\t1.1\t2.1\n\
        implication\t1.2\t2.2\n\
        implication\t1.3\t2.3\n\
        implication\t2.1\t1.1\n\
        implication\t2.2\t1.2\n\
        implication\t2.3\t1.3\n\
        end\n";

/// The counts of the demonstration file of the number 1, found by a program of another language.
const DEMO: &str = "number\t1\n\
        bytes\t3310\n\
        languages\t300\n\
        certificates\t74\n\
        cuts\t5404\n\
        report\t265111\n\
        end\n";

/// In what the run of these words on the file is not as it has to be, with this behind the title of the report, and whether a search
/// in threads is told.
fn difference<R: Threads + Sync>(
    threads: &R,
    alloc: Global,
    words: &str,
    parts: &[&str],
) -> Result<(Option<Part>, bool), NoMemory> {
    let left = run_on(threads, alloc, words, &Outside::sound("b.txt", FILE))?;
    let mut report = Vec::new(alloc);
    for part in parts {
        report.push(part.as_bytes())?;
    }
    let part = left.difference(Status::Done, report.as_slice(), b"");
    Ok((part, left.found.is_some()))
}

#[test]
fn workers_and_places_change_no_typology(rt: HostRuntime) -> Result<(), Fail> {
    let report = ["otsoft report 1\ttypology\n", HEAD, TYPOLOGY];
    for (workers, places) in SIZES {
        let words = format!(in rt.alloc(); "typology b.txt --workers {workers} --store {places}")?;
        let found = difference(&rt, rt.alloc(), words.as_str(), &report)?;
        assert_eq!(rt; found, (None, workers > 1), "{words}");
    }
    Ok(())
}

#[test]
fn workers_change_no_implications(rt: HostRuntime) -> Result<(), Fail> {
    let report = ["otsoft report 1\ttorder\n", HEAD, IMPLICATIONS];
    for (words, in_threads) in [
        ("torder b.txt", false),
        ("torder b.txt --workers 2", true),
        ("torder b.txt --workers 8 --store 1", true),
    ] {
        let found = difference(&rt, rt.alloc(), words, &report)?;
        assert_eq!(rt; found, (None, in_threads), "{words}");
    }
    Ok(())
}

#[test]
fn workers_change_no_demonstration(rt: HostRuntime) -> Result<(), Fail> {
    for (words, in_threads) in [
        ("demo 1 --workers 1", false),
        ("demo 1 --workers 2", true),
        ("demo 1 --workers 8", true),
    ] {
        let found = difference(&rt, rt.alloc(), words, &["otsoft report 1\tdemo\n", DEMO])?;
        assert_eq!(rt; found, (None, in_threads), "{words}");
    }
    Ok(())
}

#[test]
fn one_worker_a_schedule_and_a_ranking_search_in_no_threads(rt: HostRuntime) -> Result<(), Fail> {
    let outside = Outside::sound("b.txt", FILE);
    for words in [
        "typology b.txt --workers 3 --schedule 0",
        "typology b.txt",
        "rank b.txt",
        "typology",
    ] {
        let left = run_on(&rt, rt.alloc(), words, &outside)?;
        assert!(rt; left.found.is_none(), "{words}");
    }
    Ok(())
}
