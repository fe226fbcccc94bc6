//! Demonstrations, whose file no file system has.

use erc_vectors::NoMemory;
use memory_runs::{Outside, Part, run_on};
use otsoft_run::Status;
use std::alloc::Global;
use std::test::Fail;
use std::thread::Threads;

const USAGE: &[u8] = b"usage: otsoft COMMAND FILE [OPTIONS]\n";

const UNWRITTEN: &[u8] = b"otsoft: the output could not be written\n";

/// The report of the file of the number 1. The counts and the length of the typology's report were found by a program of another
/// language that searches the rankings of each group.
const OF_ONE: &[u8] = b"otsoft report 1\tdemo\n\
        number\t1\n\
        bytes\t3310\n\
        languages\t300\n\
        certificates\t74\n\
        cuts\t5404\n\
        report\t265111\n\
        end\n";

const ONE: [&str; 5] = [
    "demo 1",
    "demo --workers 2 0001",
    "--workers=8 demo 1",
    "demo 1 --store 0",
    "demo --store=1 -- 1",
];

const BAD: [&str; 9] = [
    "demo",
    "demo ",
    "demo one",
    "demo 1 2",
    "demo 18446744073709551616",
    "demo 000000000000000000001",
    "demo -1",
    "demo 1 --schedule 1",
    "demo 1 --workers 65",
];

/// Files of which each call fails, so that a run which opens one is told from one that opens none.
fn closed() -> Outside<'static> {
    Outside {
        read_fails: &[1, 2],
        ..Outside::sound("1", b"")
    }
}

/// The part in which a run over such files is not as it has to be.
fn difference<R: Threads + Sync>(
    threads: &R,
    alloc: Global,
    words: &str,
    status: Status,
    output: &[u8],
    fault: &[u8],
) -> Result<Option<Part>, NoMemory> {
    let left = run_on(threads, alloc, words, &closed())?;
    Ok(left.difference(status, &[output], fault))
}

#[test]
fn the_file_of_a_number_is_told(rt: HostRuntime) -> Result<(), Fail> {
    for words in &ONE {
        let found = difference(&rt, rt.alloc(), words, Status::Done, OF_ONE, b"")?;
        assert_eq!(rt; found, None, "{words}");
    }
    Ok(())
}

#[test]
fn bad_words_tell_no_file(rt: HostRuntime) -> Result<(), Fail> {
    for words in &BAD {
        let found = difference(&rt, rt.alloc(), words, Status::BadWords, b"", USAGE)?;
        assert_eq!(rt; found, None, "{words}");
    }
    Ok(())
}

#[test]
fn a_full_output_is_a_fault(rt: HostRuntime) -> Result<(), Fail> {
    let outside = Outside {
        write_piece: 16,
        write_fails: &[2],
        ..closed()
    };
    let left = run_on(&rt, rt.alloc(), "demo 1", &outside)?;
    let found = left.difference(Status::WriteFault, &[b"otsoft report 1\t"], UNWRITTEN);
    assert_eq!(rt; found, None);
    Ok(())
}
