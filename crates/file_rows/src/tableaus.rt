//! The tableaus that files give, and the faults of files.

use ot_base::{CandidateRow, Label, Tableau};
use std::alloc::Global;
use std::test::Fail;
use tableau_file::{FileRefusal, ReadError, Why, read_tableau};

fn push_label(text: &mut String, label: &Label) -> Result<(), Fail> {
    match std::str::from_utf8(label.bytes()) {
        Ok(part) => text.push_str(part)?,
        Err(_) => text.push_str("?")?,
    }
    text.push(' ')?;
    Ok(())
}

fn push_row(text: &mut String, row: &CandidateRow) -> Result<(), Fail> {
    let line = row.line;
    let count = row.count;
    let violations = row.violations.as_slice();
    write!(text, "{line} ")?;
    push_label(text, &row.text)?;
    write!(text, "{count} {violations:?} ")?;
    Ok(())
}

/// The names, the abbreviations, and then each input with its candidates.
fn shown(alloc: Global, tableau: &Tableau) -> Result<String, Fail> {
    let mut text = String::new(alloc);
    for name in tableau.names.as_slice() {
        push_label(&mut text, name)?;
    }
    text.push_str("| ")?;
    for abbrev in tableau.abbrevs.as_slice() {
        push_label(&mut text, abbrev)?;
    }
    for input in tableau.inputs.as_slice() {
        text.push_str("/ ")?;
        push_label(&mut text, &input.text)?;
        for row in input.candidates.as_slice() {
            push_row(&mut text, row)?;
        }
    }
    Ok(text)
}

#[test]
fn files_are_read(rt: HostRuntime) -> Result<(), Fail> {
    let table: [(&str, &[u8], &str); 9] = [
        (
            "as a spreadsheet saves it",
            b"\t\t\t\"Ident, voice\"\tNoVoice\t\r\n\t\t\tId\tNV\t\r\nbad\tbad\t12\t\t2\t\r\n\tbat\t3\t1\t1\t\r\n\t\t\t\t\t\r\n\r\n",
            "Ident, voice NoVoice | Id NV / bad 3 bad 12000000000 [0, 2] 4 bat 3000000000 [1, 1] ",
        ),
        (
            "a blank second line and no violation",
            b"\t\t\tA\n\nx\tp\t1",
            "A | A / x 3 p 1000000000 [0] ",
        ),
        (
            "a byte order mark of UTF-8 and carriage returns",
            b"\xEF\xBB\xBF\t\t\tA\tB\r\t\t\t\tb\rx\tp\t0.5\t1\r\tq\t\t\t2\r",
            "A B | A b / x 3 p 500000000 [1, 0] 4 q 0 [0, 2] ",
        ),
        (
            "inputs continue, begin and come again",
            b"\t\t\tA\n\t\t\tA\nx\tp\t2\t0\n\tq\t0\t1\nx\tr\t0\t2\ny\tp\t0\t3\nx\tp\t0\t4\n",
            "A | A / x 3 p 2000000000 [0] 4 q 0 [1] 5 r 0 [2] / y 6 p 0 [3] / x 7 p 0 [4] ",
        ),
        (
            "blank lines between rows",
            b"\t\t\tA\n\t\t\tA\n\n\" \"\t \nx\tp\t1\t1\n\n\tq\t0\t2\n\n",
            "A | A / x 5 p 1000000000 [1] 7 q 0 [2] ",
        ),
        (
            "quotes and spaces",
            b"\t\t\t\" a \"\t b \n\t\t\t\"\"\t\"\"\"\"\"\"\n \"x\"\"y\" \tp\t 1 \t \"2\" \t\n",
            "a b | a \"\" / x\"y 3 p 1000000000 [2, 0] ",
        ),
        (
            "the greatest violation and count",
            b"\t\t\tA\n\nx\tp\t999999999.999999999\t001000000\n",
            "A | A / x 3 p 999999999999999999 [1000000] ",
        ),
        (
            "cells of no constraint that are empty",
            b"a\tb\tc\tA\t\t \n\t\t\t\t\t\"\"\nx\tp\t\t1\t\t \n",
            "A | A / x 3 p 0 [1] ",
        ),
        (
            "a byte order mark of UTF-16 behind one of UTF-8",
            b"\xEF\xBB\xBF\xFF\xFE\t\t\tA\n\nx\tp\n",
            "A | A / x 3 p 0 [0] ",
        ),
    ];
    for (case, bytes, want) in table {
        match read_tableau(rt.alloc(), bytes) {
            Ok(tableau) => {
                let text = shown(rt.alloc(), &tableau)?;
                assert_eq!(rt; text.as_str(), want, "{case}");
            }
            Err(error) => panic!(rt; "{case}: {error:?}"),
        }
    }
    Ok(())
}

fn is_refused(alloc: Global, bytes: &[u8], line: u32, why: Why) -> bool {
    match read_tableau(alloc, bytes) {
        Err(ReadError::Refused(refusal)) => refusal == FileRefusal { line, why },
        _ => false,
    }
}

#[test]
fn files_are_refused(rt: HostRuntime) {
    let table: [(&str, &[u8], u32, Why); 28] = [
        ("nothing", b"", 1, Why::NoConstraints),
        (
            "three columns",
            b"a\tb\tc\t\n\t\t\tA\nx\tp\n",
            1,
            Why::NoConstraints,
        ),
        ("UTF-16", b"\xFF\xFE\t\t\tA\n\nx\tp\n", 1, Why::Utf16),
        ("UTF-16 in the other order", b"\xFE\xFF", 1, Why::Utf16),
        (
            "a gap between names",
            b"\t\t\tA\t\tB\n\nx\tp\n",
            1,
            Why::EmptyName,
        ),
        (
            "a name of a space",
            b"\t\t\tA\t\" \"\tB\n\t\t\tA\tB\tC\tD\n",
            1,
            Why::EmptyName,
        ),
        ("names alone", b"\t\t\tA", 3, Why::NoRows),
        (
            "blank lines alone",
            b"\t\t\tA\n\t\t\tA\n\n\t\n",
            3,
            Why::NoRows,
        ),
        ("no input", b"\t\t\tA\n\n\tx", 3, Why::NoInput),
        (
            "a violation alone",
            b"\t\t\tA\n\n\n\t\t\t\t1\n",
            4,
            Why::NoInput,
        ),
        ("no candidate", b"\t\t\tA\n\nx", 3, Why::EmptyCandidate),
        (
            "no candidate, no count",
            b"\t\t\tA\n\nx\t\t1.\t2x\n",
            3,
            Why::EmptyCandidate,
        ),
        (
            "too many abbreviations",
            b"\t\t\tA\n\t\t\tA\tB\nx\n",
            2,
            Why::ExtraCell,
        ),
        (
            "a cell too many",
            b"\t\t\tA\n\t\t\tA\nx\tp\t1\t0\n\tq\t0\t1\tB\n",
            4,
            Why::ExtraCell,
        ),
        (
            "a letter",
            b"\t\t\tA\n\nx\tp\t1\t2x\n",
            3,
            Why::BadViolation,
        ),
        (
            "a letter and a cell too many",
            b"\t\t\tA\n\nx\tp\t1\t2x\t3\n",
            3,
            Why::BadViolation,
        ),
        (
            "a point and a letter",
            b"\t\t\tA\n\nx\tp\t1.\t2x\n",
            3,
            Why::BadCount,
        ),
        (
            "above the limit",
            b"\t\t\tA\n\nx\tp\t1\t1000000\n\tq\t0\t1000001\n",
            4,
            Why::BadViolation,
        ),
        (
            "ten digits",
            b"\t\t\tA\n\nx\tp\t1\t0000000001\n",
            3,
            Why::BadViolation,
        ),
        (
            "a decimal",
            b"\t\t\tA\n\nx\tp\t1\t1.0\n",
            3,
            Why::BadViolation,
        ),
        ("a star", b"\t\t\tA\n\nx\tp\t1\t*\n", 3, Why::BadViolation),
        (
            "a count of ten digits",
            b"\t\t\tA\n\nx\tp\t1234567890\n",
            3,
            Why::BadCount,
        ),
        (
            "ten digits behind the point",
            b"\t\t\tA\n\nx\tp\t1.0000000001\n",
            3,
            Why::BadCount,
        ),
        ("two points", b"\t\t\tA\n\nx\tp\t1.2.3\n", 3, Why::BadCount),
        (
            "nothing before the point",
            b"\t\t\tA\n\nx\tp\t.5\n",
            3,
            Why::BadCount,
        ),
        ("an exponent", b"\t\t\tA\n\nx\tp\t1e3\n", 3, Why::BadCount),
        ("a sign", b"\t\t\tA\n\nx\tp\t-1\n", 3, Why::BadCount),
        (
            "carriage returns",
            b"\t\t\tA\r\r\nx\tp\r\r\tq\ty\r",
            5,
            Why::BadCount,
        ),
    ];
    for (case, bytes, line, why) in table {
        let is_refused = match read_tableau(rt.alloc(), bytes) {
            Err(ReadError::Refused(refusal)) => refusal == FileRefusal { line, why },
            _ => false,
        };
        assert!(rt; is_refused, "{case}: {why:?} at line {line}");
    }
}
