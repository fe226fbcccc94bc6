//! Reports that fit the grammar, and the first lines that do not.

use report_reader::{REPORT_LIMIT, TextError, read_typology_text};
use std::alloc::Global;
use std::process::Abort;
use std::test::Fail;

/// The lines of a report of two constraints and one input.
const LINES: [&str; 16] = [
    "otsoft report 1\ttypology\n",
    "constraints\t2\n",
    "constraint\t1\tNC\tNoCoda\n",
    "constraint\t2\tM\t\n",
    "inputs\t1\n",
    "input\t1\tpat\t2\n",
    "class\t1.1\t1 0\tpat\tpat\n",
    "class\t1.2\t0 10\tpa\n",
    "languages\t2\n",
    "language\t1\t1\t2 | 1\n",
    "language\t2\t2\t1 | 2\n",
    "certificates\t1\n",
    "certificate\t1\tLL\t1:1>2 1:2>1\n",
    "cuts\t1\n",
    "cut\t1\t-\t1\n",
    "end\n",
];

/// The lines of a report of two constraints, of which pairs are given that no ranking keeps.
const GIVEN_LINES: [&str; 17] = [
    "otsoft report 1\ttypology\n",
    "constraints\t2\n",
    "constraint\t1\tNC\tNoCoda\n",
    "constraint\t2\tM\tMax\n",
    "inputs\t1\n",
    "input\t1\tpat\t2\n",
    "class\t1.1\t1 0\tpat\n",
    "class\t1.2\t0 1\tpa\n",
    "givens\t2\n",
    "given\t1\t1\t2\n",
    "given\t2\t2\t1\n",
    "languages\t0\n",
    "certificates\t1\n",
    "certificate\t1\tLL\tg1 g2\n",
    "cuts\t1\n",
    "cut\t1\t-\t1\n",
    "end\n",
];

/// The report of these lines, with this text in place of one of them, which is counted from 1 on.
fn report_with(alloc: Global, lines: &[&str], line: usize, text: &str) -> Result<String, Fail> {
    let mut report = String::new(alloc);
    for (k, whole) in lines.iter().enumerate() {
        report.push_str(if k + 1 == line { text } else { *whole })?;
    }
    Ok(report)
}

/// The numbers of languages, certificates and cuts of a report, or its first line that does not fit.
fn read(rt: &impl Abort, alloc: Global, report: &str) -> Result<[usize; 3], u32> {
    let bytes = report.as_bytes();
    assert!(rt; bytes.len() <= REPORT_LIMIT);
    match read_typology_text(alloc, bytes) {
        Ok(typology) => Ok([
            typology.languages.len(),
            typology.certificates.len(),
            typology.cuts.len(),
        ]),
        Err(TextError::BadLine(number)) => Err(number),
        Err(TextError::NoMemory) => Err(1_000),
    }
}

/// Reports in which one line is another text, with the first line that does not fit, and 0 where all do.
#[test]
fn reports_that_fit_and_that_do_not(rt: HostRuntime) -> Result<(), Fail> {
    let table = [
        ("whole", 16, "end\n", 0),
        ("no last LF", 16, "end", 16),
        ("end missing", 16, "", 16),
        ("behind the end", 16, "end\n\n", 17),
        ("leading zero", 2, "constraints\t02\n", 2),
        ("count too great", 9, "languages\t268435457\n", 9),
        ("count not met", 9, "languages\t1\n", 11),
        ("more than a count", 9, "languages\t3\n", 12),
        ("stratum descends", 10, "language\t1\t1\t2 1\n", 10),
        ("stratum empty", 10, "language\t1\t1\t2 |  | 1\n", 10),
        ("constraint twice", 10, "language\t1\t1\t2 | 1 2\n", 10),
        ("constraint left out", 10, "language\t1\t1\t2\n", 10),
        ("no term", 13, "certificate\t1\tLL\t\n", 13),
        ("loser is winner", 13, "certificate\t1\tLL\t1:1>1\n", 13),
        ("class out of range", 10, "language\t1\t3\t2 | 1\n", 10),
        ("no member", 8, "class\t1.2\t0 10\n", 8),
        ("CR in a text", 8, "class\t1.2\t0 10\tpa\r\n", 8),
        ("certificate out of range", 15, "cut\t1\t-\t2\n", 15),
        ("too many marks", 13, "certificate\t1\tLLe\t1:1>2\n", 13),
    ];
    for (name, at, text, line) in table {
        let report = report_with(rt.alloc(), &LINES, at, text)?;
        let answer = read(&rt, rt.alloc(), report.as_str());
        let want = if line == 0 { Ok([2, 1, 1]) } else { Err(line) };
        assert_eq!(rt; answer, want, "of {name}");
    }
    Ok(())
}

/// The first line is called for, and is not there.
#[test]
fn a_report_without_a_line(rt: HostRuntime) {
    let answer = read_typology_text(rt.alloc(), b"");
    assert!(rt; matches!(answer, Err(TextError::BadLine(1))));
}

/// The same of reports with given pairs.
#[test]
fn reports_with_given_pairs(rt: HostRuntime) -> Result<(), Fail> {
    let table = [
        ("whole", 17, "end\n", 0),
        ("no pairs and no terms of them", 9, "", 9),
        ("too many pairs", 9, "givens\t4097\n", 9),
        ("fewer pairs than lines", 9, "givens\t1\n", 11),
        ("more pairs than lines", 9, "givens\t3\n", 12),
        ("a number left out", 11, "given\t3\t2\t1\n", 11),
        ("one constraint twice", 11, "given\t2\t1\t1\n", 11),
        ("constraint out of range", 11, "given\t2\t3\t1\n", 11),
        ("a field too many", 11, "given\t2\t2\t1\t1\n", 11),
        ("term out of range", 14, "certificate\t1\tLL\tg1 g3\n", 14),
        ("term of number 0", 14, "certificate\t1\tLL\tg0 g1\n", 14),
        (
            "both kinds of terms",
            14,
            "certificate\t1\tLL\tg1 1:2>1\n",
            0,
        ),
    ];
    for (name, at, text, line) in table {
        let report = report_with(rt.alloc(), &GIVEN_LINES, at, text)?;
        let answer = read(&rt, rt.alloc(), report.as_str());
        let want = if line == 0 { Ok([0, 1, 1]) } else { Err(line) };
        assert_eq!(rt; answer, want, "of {name}");
    }
    let report = report_with(rt.alloc(), &LINES, 13, "certificate\t1\tLL\tg1 1:2>1\n")?;
    let answer = read(&rt, rt.alloc(), report.as_str());
    assert_eq!(rt; answer, Err(13), "of a term without given pairs");
    Ok(())
}
