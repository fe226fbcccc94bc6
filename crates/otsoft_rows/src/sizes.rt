//! Files of great size, and of each limit.

use erc_vectors::NoMemory;
use memory_runs::{Left, Outside, Part, run_on};
use otsoft_run::Status;
use std::alloc::{AllocError, Global};
use std::test::Fail;
use std::thread::Threads;

/// A strict file of as many inputs, each with a class for each of two constraints.
fn two_classes(alloc: Global, inputs: usize) -> Result<String, AllocError> {
    let mut file = String::from_str(alloc, "\t\t\tA\tB\n\t\t\tA\tB\n")?;
    for k in 1..=inputs {
        write!(file, "i{k}\tp\t1\t1\t0\n\tq\t0\t0\t1\n")?;
    }
    Ok(file)
}

/// Its report: where B stands above A each input has its first class, else its second. No ranking mixes them.
fn two_languages(alloc: Global, inputs: usize) -> Result<String, AllocError> {
    let mut report = String::from_str(
        alloc,
        "otsoft report 1\ttypology\nconstraints\t2\nconstraint\t1\tA\tA\nconstraint\t2\tB\tB\n",
    )?;
    write!(report, "inputs\t{inputs}\n")?;
    for k in 1..=inputs {
        write!(
            report,
            "input\t{k}\ti{k}\t2\nclass\t{k}.1\t1 0\tp\nclass\t{k}.2\t0 1\tq\n"
        )?;
    }
    report.push_str("languages\t2\n")?;
    for (class, hierarchy) in [(1, "2 | 1"), (2, "1 | 2")] {
        write!(report, "language\t{class}\t{class}")?;
        for _ in 1..inputs {
            write!(report, " {class}")?;
        }
        write!(report, "\t{hierarchy}\n")?;
    }
    two_cuts(&mut report, inputs)?;
    report.push_str("end\n")?;
    Ok(report)
}

/// A prefix is cut at the first input that does not go with input 1, and the two of them show it. Longer prefixes come before
/// shorter ones where input 1 has its first class, and behind them where it has its second.
fn two_cuts(report: &mut String, inputs: usize) -> Result<(), AllocError> {
    let half = inputs.saturating_sub(1);
    let cuts = half.saturating_add(half);
    write!(report, "certificates\t{cuts}\n")?;
    for k in 1..inputs {
        let last = inputs - k + 1;
        write!(report, "certificate\t{k}\tLL\t1:1>2 {last}:2>1\n")?;
    }
    for k in 1..inputs {
        let number = half.saturating_add(k);
        let last = k + 1;
        write!(report, "certificate\t{number}\tLL\t1:2>1 {last}:1>2\n")?;
    }
    write!(report, "cuts\t{cuts}\n")?;
    for k in 1..inputs {
        cut_line(report, k, "1 ", inputs - k, "2")?;
    }
    for k in 1..inputs {
        cut_line(report, half.saturating_add(k), "2 ", k, "1")?;
    }
    Ok(())
}

fn cut_line(
    report: &mut String,
    number: usize,
    class: &str,
    times: usize,
    last: &str,
) -> Result<(), AllocError> {
    write!(report, "cut\t{number}\t")?;
    for _ in 0..times {
        report.push_str(class)?;
    }
    write!(report, "{last}\t{number}\n")
}

/// The part in which the run on such a file is not as it has to be.
fn difference<R: Threads + Sync>(
    threads: &R,
    alloc: Global,
    inputs: usize,
) -> Result<Option<Part>, NoMemory> {
    let file = two_classes(alloc, inputs)?;
    let report = two_languages(alloc, inputs)?;
    let outside = Outside::sound("a.txt", file.as_bytes());
    let left = run_on(threads, alloc, "typology a.txt", &outside)?;
    Ok(left.difference(Status::Done, &[report.as_bytes()], b""))
}

/// Of 65,536 choices, and of many more than could be tried, the search finds the two languages.
#[test]
fn many_choices(rt: HostRuntime) -> Result<(), Fail> {
    for inputs in [16, 17, 100] {
        let found = difference(&rt, rt.alloc(), inputs)?;
        assert_eq!(rt; found, None, "{inputs} inputs");
    }
    Ok(())
}

/// A strict file of one candidate with a long text.
fn long_text(alloc: Global, length: usize) -> Result<String, AllocError> {
    let mut file = String::from_str(alloc, "\t\t\tA\n\t\t\tA\n")?;
    for _ in 0..length {
        file.push('x')?;
    }
    file.push_str("\tp\t1\t0\n")?;
    Ok(file)
}

/// What the run on a file leaves, with room for a long report, where these calls of the files and these writes fail.
fn run_long<R: Threads + Sync>(
    threads: &R,
    alloc: Global,
    file: &[u8],
    read_fails: &[u64],
    write_fails: &[u64],
) -> Result<Left, NoMemory> {
    let outside = Outside {
        room: 1 << 20,
        read_fails,
        write_fails,
        ..Outside::sound("a.txt", file)
    };
    run_on(threads, alloc, "typology a.txt", &outside)
}

/// All that is left of a report is offered at once: a report of more than 64 KiB needs one write.
#[test]
fn a_long_report_is_one_write(rt: HostRuntime) -> Result<(), Fail> {
    let file = long_text(rt.alloc(), 70_000)?;
    let left = run_long(&rt, rt.alloc(), file.as_bytes(), &[], &[2])?;
    assert_eq!(rt; left.status, Status::Done);
    assert!(rt; left.out.written().len() > 70_000);
    Ok(())
}

/// A read asks for 65,536 bytes, and a file is read to its end: one of 65,537 bytes takes an open and three reads.
#[test]
fn a_file_is_read_to_its_end(rt: HostRuntime) -> Result<(), Fail> {
    let file = long_text(rt.alloc(), 65_520)?;
    assert_eq!(rt; file.len(), 65_537);
    for (call, status) in [(4, Status::ReadFault), (5, Status::Done)] {
        let left = run_long(&rt, rt.alloc(), file.as_bytes(), &[call], &[])?;
        assert_eq!(rt; left.status, status, "call {call}");
    }
    Ok(())
}

/// A start, a part many times, and an end.
fn repeated(
    alloc: Global,
    start: &[u8],
    part: &[u8],
    times: usize,
    end: &[u8],
) -> Result<Vec<u8>, AllocError> {
    let mut bytes = Vec::from_slice(alloc, start)?;
    for _ in 0..times {
        bytes.extend_from_slice(part)?;
    }
    bytes.extend_from_slice(end)?;
    Ok(bytes)
}

/// A file of a start, a part many times, and an end, and the line that refuses it, if any does.
#[derive(Clone, Copy)]
struct Limit {
    name: &'static str,
    start: &'static [u8],
    part: &'static [u8],
    times: usize,
    end: &'static [u8],
    line: &'static [u8],
}

const HEADER: &[u8] = b"\t\t\tA\n\n";

const LIMITS: [Limit; 8] = [
    Limit {
        name: "64 constraints",
        start: b"\t\t",
        part: b"\tA",
        times: 64,
        end: b"\n\nx\tp\n",
        line: b"",
    },
    Limit {
        name: "65 constraints",
        start: b"\t\t",
        part: b"\tA",
        times: 65,
        end: b"\n\nx\tp\n",
        line: b"a.txt:1: F4 TooManyConstraints\n",
    },
    Limit {
        name: "1,000 inputs",
        start: HEADER,
        part: b"x\tp\ny\tp\n",
        times: 500,
        end: b"",
        line: b"",
    },
    Limit {
        name: "1,001 inputs",
        start: HEADER,
        part: b"x\tp\ny\tp\n",
        times: 500,
        end: b"x\tp\n",
        line: b"a.txt:1003: F10 TooManyInputs\n",
    },
    Limit {
        name: "200 candidates of an input",
        start: HEADER,
        part: b"x\tp\n",
        times: 200,
        end: b"",
        line: b"",
    },
    Limit {
        name: "201 candidates of an input",
        start: HEADER,
        part: b"x\tp\n",
        times: 201,
        end: b"",
        line: b"a.txt:203: F11 TooManyCandidates\n",
    },
    Limit {
        name: "16,777,216 bytes",
        start: b"\t\t\tAAAAAAA\n\nx\tp\n",
        part: b"            ",
        times: 1_398_100,
        end: b"",
        line: b"",
    },
    Limit {
        name: "16,777,217 bytes",
        start: b"\xFF\xFE",
        part: b"            ",
        times: 1_398_100,
        end: b"ends behind it.",
        line: b"a.txt:1: F13 TooLong\n",
    },
];

/// Whether a file is accepted, or refused with its line.
fn is_judged<R: Threads + Sync>(
    threads: &R,
    alloc: Global,
    file: &[u8],
    line: &[u8],
) -> Result<bool, NoMemory> {
    let left = run_long(threads, alloc, file, &[], &[])?;
    let is_accepted = left.status == Status::Done;
    Ok(is_accepted == line.is_empty() && left.err.written() == line)
}

/// The first file that is not judged so.
fn first_misjudged<R: Threads + Sync>(
    threads: &R,
    alloc: Global,
    rows: &[Limit],
) -> Result<Option<&'static str>, NoMemory> {
    for row in rows {
        let file = repeated(alloc, row.start, row.part, row.times, row.end)?;
        if !is_judged(threads, alloc, file.as_slice(), row.line)? {
            return Ok(Some(row.name));
        }
    }
    Ok(None)
}

/// What stands at a limit is accepted, and what stands above it is refused at its line.
#[test]
fn limits(rt: HostRuntime) -> Result<(), Fail> {
    let found = first_misjudged(&rt, rt.alloc(), &LIMITS)?;
    assert_eq!(rt; found, None);
    Ok(())
}

/// 100 inputs of 200 candidates each, and then an end.
fn full_file(alloc: Global, end: &[u8]) -> Result<Vec<u8>, AllocError> {
    let mut both = repeated(alloc, b"x\tp\n", b"\tp\n", 199, b"")?;
    let other = repeated(alloc, b"y\tp\n", b"\tp\n", 199, b"")?;
    both.extend_from_slice(other.as_slice())?;
    repeated(alloc, HEADER, both.as_slice(), 50, end)
}

/// 20,000 candidates are accepted, and one more is refused.
#[test]
fn limit_of_all_candidates(rt: HostRuntime) -> Result<(), Fail> {
    let alloc = rt.alloc();
    let file = full_file(alloc, b"")?;
    assert!(rt; is_judged(&rt, alloc, file.as_slice(), b"")?);
    let file = full_file(alloc, b"x\tp\n")?;
    let line = b"a.txt:20003: F11 TooManyCandidates\n";
    assert!(rt; is_judged(&rt, alloc, file.as_slice(), line)?);
    Ok(())
}
