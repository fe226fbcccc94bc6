//! Faults of files, of the output and of the fault output, and files that are refused.

use crate::reports::CODA;
use erc_vectors::NoMemory;
use memory_runs::{Outside, Part, run_on};
use otsoft_run::Status;
use std::alloc::Global;
use std::test::Fail;
use std::thread::Threads;

const WORDS: &str = "typology a.txt";

const UNREAD: &[u8] = b"otsoft: a.txt could not be read\n";

const UNWRITTEN: &[u8] = b"otsoft: the output could not be written\n";

/// A file of 79 bytes, in pieces of 8: an open, ten reads of bytes and one of the end may fail.
fn unread_difference<R: Threads + Sync>(
    threads: &R,
    alloc: Global,
    call: u64,
) -> Result<Option<Part>, NoMemory> {
    let outside = Outside {
        read_piece: 8,
        read_fails: &[call],
        ..Outside::sound("a.txt", CODA.file.as_bytes())
    };
    let left = run_on(threads, alloc, WORDS, &outside)?;
    let report = CODA.report.as_bytes();
    Ok(if call < 13 {
        left.difference(Status::ReadFault, &[], UNREAD)
    } else {
        left.difference(Status::Done, &[report], b"")
    })
}

#[test]
fn each_call_of_the_files_may_fail(rt: HostRuntime) -> Result<(), Fail> {
    for call in 1..=13 {
        let found = unread_difference(&rt, rt.alloc(), call)?;
        assert_eq!(rt; found, None, "call {call}");
    }
    Ok(())
}

/// A report in pieces of 16, of which that many are taken before one fails.
fn unwritten_difference<R: Threads + Sync>(
    threads: &R,
    alloc: Global,
    taken: u64,
) -> Result<Option<Part>, NoMemory> {
    let report = CODA.report.as_bytes();
    let outside = Outside {
        write_piece: 16,
        write_fails: &[taken.saturating_add(1)],
        ..Outside::sound("a.txt", CODA.file.as_bytes())
    };
    let left = run_on(threads, alloc, WORDS, &outside)?;
    let length = (taken as usize).saturating_mul(16);
    Ok(if length < report.len() {
        left.difference(Status::WriteFault, &[&report[..length]], UNWRITTEN)
    } else {
        left.difference(Status::Done, &[report], b"")
    })
}

#[test]
fn each_write_may_fail(rt: HostRuntime) -> Result<(), Fail> {
    let writes = CODA.report.len().div_ceil(16) as u64;
    for taken in 0..=writes {
        let found = unwritten_difference(&rt, rt.alloc(), taken)?;
        assert_eq!(rt; found, None, "{taken} writes");
    }
    Ok(())
}

/// A run whose fault output fails at a write, in pieces of 8.
#[derive(Clone, Copy)]
struct Untold {
    name: &'static str,
    words: &'static str,
    write: u64,
    status: Status,
    taken: &'static str,
}

const UNTOLD: [Untold; 5] = [
    Untold {
        name: "bad words, nothing taken",
        words: "frob",
        write: 1,
        status: Status::BadWords,
        taken: "",
    },
    Untold {
        name: "a refusal, nothing taken",
        words: "typology a.txt",
        write: 1,
        status: Status::Refused,
        taken: "",
    },
    Untold {
        name: "no file, nothing taken",
        words: "rank b",
        write: 1,
        status: Status::ReadFault,
        taken: "",
    },
    Untold {
        name: "bad words, a part taken",
        words: "frob",
        write: 2,
        status: Status::BadWords,
        taken: "usage: o",
    },
    Untold {
        name: "a refusal, a part taken",
        words: "typology a.txt",
        write: 2,
        status: Status::Refused,
        taken: "a.txt:3:",
    },
];

fn untold_difference<R: Threads + Sync>(
    threads: &R,
    alloc: Global,
    row: &Untold,
) -> Result<Option<Part>, NoMemory> {
    let outside = Outside {
        err_piece: 8,
        err_fails: &[row.write],
        ..Outside::sound("a.txt", b"\t\t\tA")
    };
    let left = run_on(threads, alloc, row.words, &outside)?;
    Ok(left.difference(row.status, &[], row.taken.as_bytes()))
}

fn first_untold<R: Threads + Sync>(
    threads: &R,
    alloc: Global,
    rows: &[Untold],
) -> Result<Option<(&'static str, Part)>, NoMemory> {
    for row in rows {
        if let Some(part) = untold_difference(threads, alloc, row)? {
            return Ok(Some((row.name, part)));
        }
    }
    Ok(None)
}

/// The status stays, and the front of the line that the fault output took.
#[test]
fn a_fault_of_the_fault_output_changes_no_status(rt: HostRuntime) -> Result<(), Fail> {
    let found = first_untold(&rt, rt.alloc(), &UNTOLD)?;
    assert_eq!(rt; found, None);
    Ok(())
}

/// A file with a fault, and the line that tells the first one.
#[derive(Clone, Copy)]
struct Refused {
    name: &'static str,
    file: &'static str,
    line: &'static str,
}

const REFUSED: [Refused; 11] = [
    Refused {
        name: "a.txt",
        file: "",
        line: "a.txt:1: F2 NoConstraints\n",
    },
    Refused {
        name: "a.txt",
        file: "\t\t\tA\t\tC\n\nx\tp",
        line: "a.txt:1: F3 EmptyName\n",
    },
    Refused {
        name: "a.txt",
        file: "\t\t\tA\n\t\t\tA\tB\nx\tp",
        line: "a.txt:2: F5 ExtraCell\n",
    },
    Refused {
        name: "a.txt",
        file: "\t\t\tA\n\n\tx",
        line: "a.txt:3: F6 NoInput\n",
    },
    Refused {
        name: "a.txt",
        file: "\t\t\tA\n\nx",
        line: "a.txt:3: F7 EmptyCandidate\n",
    },
    Refused {
        name: "b.txt",
        file: "\t\t\tNoCoda\tMax\tDep\n\
            \t\t\tNoCoda\tMax\tDep\n\
            pat\tpat\t1\t1\t0\t0\n\
            \tpa\t0\t0\t1\t0\n\
            \tpa.ti\t0\t0\t0\t2x\n\
            tak\ttak\t1\t1\t0\t0\n\
            \tta\t0\t0\t1\t0\n\
            \tta.ki\t0\t0\t0\t1\n",
        line: "b.txt:5: F9 BadViolation\n",
    },
    Refused {
        name: "b.txt",
        file: "\t\t\tNoCoda\tMax\tDep\n\
            \t\t\tNoCoda\tMax\tDep\n\
            pat\tpat\t1\t1\t0\t0\n\
            \tpa\t0\t0\t1\t0\n\
            \tpa.ti\t1.\t0\t0\t2x\n\
            tak\ttak\t1\t1\t0\t0\n\
            \tta\t0\t0\t1\t0\n\
            \tta.ki\t0\t0\t0\t1\n",
        line: "b.txt:5: F8 BadCount\n",
    },
    Refused {
        name: "a.txt",
        file: "\t\t\tA\n\n\r\nx\tp\t1.\t2x",
        line: "a.txt:4: F8 BadCount\n",
    },
    Refused {
        name: "a.txt",
        file: "\t\t\tA\n\nx\tp\t1\t2x\t3",
        line: "a.txt:3: F9 BadViolation\n",
    },
    Refused {
        name: "a.txt",
        file: "\t\t\tA\n\nx\tp\t1\t2\t3",
        line: "a.txt:3: F5 ExtraCell\n",
    },
    Refused {
        name: "a.txt",
        file: "\t\t\tA",
        line: "a.txt:3: F12 NoRows\n",
    },
];

fn refused_difference<R: Threads + Sync>(
    threads: &R,
    alloc: Global,
    name: &str,
    file: &[u8],
    line: &str,
) -> Result<Option<Part>, NoMemory> {
    let words = format!(in alloc; "typology {name}")?;
    let left = run_on(threads, alloc, words.as_str(), &Outside::sound(name, file))?;
    Ok(left.difference(Status::Refused, &[], line.as_bytes()))
}

fn first_unrefused<R: Threads + Sync>(
    threads: &R,
    alloc: Global,
    rows: &[Refused],
) -> Result<Option<(&'static str, Part)>, NoMemory> {
    for row in rows {
        if let Some(part) = refused_difference(
            threads,
            alloc,
            row.name,
            row.file.as_bytes(),
            row.line,
        )? {
            return Ok(Some((row.line, part)));
        }
    }
    Ok(None)
}

/// Files with a fault, each with the first one.
#[test]
fn refused_files_are_told(rt: HostRuntime) -> Result<(), Fail> {
    let found = first_unrefused(&rt, rt.alloc(), &REFUSED)?;
    assert_eq!(rt; found, None);
    let line = "u.txt:1: F1 Utf16\n";
    let found = refused_difference(&rt, rt.alloc(), "u.txt", b"\xff\xfe\t\0A\0", line)?;
    assert_eq!(rt; found, None, "two bytes a letter");
    Ok(())
}

/// Files that are not there, with their lines.
#[test]
fn missing_files_are_told(rt: HostRuntime) -> Result<(), Fail> {
    let outside = Outside::sound("a.txt", b"");
    for (words, line) in [
        ("typology b.txt", "otsoft: b.txt could not be read\n"),
        ("typology ", "otsoft:  could not be read\n"),
    ] {
        let left = run_on(&rt, rt.alloc(), words, &outside)?;
        let found = left.difference(Status::ReadFault, &[], line.as_bytes());
        assert_eq!(rt; found, None, "{words}");
    }
    Ok(())
}

/// With any allocation refused, the report stands whole or the output is as it was.
#[test]
fn want_of_memory_leaves_the_output(rt: HostRuntime) -> Result<(), Fail> {
    let outside = Outside::sound("a.txt", CODA.file.as_bytes());
    let Ok(left) = run_on(&rt, rt.alloc(), WORDS, &outside) else {
        return Ok(());
    };
    if left.status == Status::NoMemory {
        assert!(rt; left.out.written().is_empty());
    } else {
        assert_eq!(rt; left.status, Status::Done);
        assert!(rt; left.out.written() == CODA.report.as_bytes());
    }
    Ok(())
}
