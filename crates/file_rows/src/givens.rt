//! The pairs that files of given pairs give, and the faults of such files.

use erc_vectors::List;
use ot_base::Pair;
use std::alloc::Global;
use std::test::Fail;
use tableau_file::{GivenError, GivenRefusal, read_given, read_tableau};

/// Two constraints are named `Max`, two are abbreviated `Id`, and `Dep` and `NoCoda` are abbreviations of others.
const TABLEAU: &[u8] =
    b"\t\t\tNoCoda\tMax\tDep\tMax\tIdent\n\t\t\tDep\tM\tNoCoda\tId\tId\nx\tp\t1\n";

/// What a file of given pairs of that tableau gives.
fn reading(alloc: Global, bytes: &[u8]) -> Result<List<Pair>, GivenError> {
    match read_tableau(alloc, TABLEAU) {
        Ok(tableau) => read_given(alloc, bytes, &tableau),
        Err(_) => Err(GivenError::NoMemory),
    }
}

/// The refusal, or that there was no memory.
fn push_error(text: &mut String, error: GivenError) -> Result<(), Fail> {
    match error {
        GivenError::Refused(GivenRefusal { line, why }) => write!(text, "{line} {why:?}")?,
        GivenError::NoMemory => text.push_str("no memory")?,
    }
    Ok(())
}

/// The pairs, with the numbers of the constraints from 1 on, or the refusal.
fn shown(alloc: Global, bytes: &[u8]) -> Result<String, Fail> {
    let mut text = String::new(alloc);
    match reading(alloc, bytes) {
        Ok(pairs) => {
            for pair in pairs.as_slice() {
                let above = pair.above.0.saturating_add(1);
                let below = pair.below.0.saturating_add(1);
                write!(text, "{above}>{below} ")?;
            }
        }
        Err(error) => push_error(&mut text, error)?,
    }
    Ok(text)
}

/// How many pairs there are, or the refusal.
fn counted(alloc: Global, bytes: &[u8]) -> Result<String, Fail> {
    let mut text = String::new(alloc);
    match reading(alloc, bytes) {
        Ok(pairs) => {
            let many = pairs.len();
            write!(text, "{many}")?;
        }
        Err(error) => push_error(&mut text, error)?,
    }
    Ok(text)
}

#[test]
fn given_files_are_read(rt: HostRuntime) -> Result<(), Fail> {
    let table: [(&str, &[u8], &str); 42] = [
        ("no bytes", b"", ""),
        ("blank lines alone", b"\n \t\"\"\n\n", ""),
        ("one pair", b"Dep\tMax\n", "3>2 "),
        ("no end of the last line", b"Dep\tMax", "3>2 "),
        ("a cycle", b"NoCoda\tMax\nMax\tNoCoda\n", "1>2 2>1 "),
        (
            "a repeat",
            b"Dep\tMax\nIdent\tDep\nDep\tMax\n",
            "3>2 5>3 3>2 ",
        ),
        ("abbreviations", b"M\tIdent\nIdent\tM\n", "2>5 5>2 "),
        ("a name of two constraints", b"Max\tDep\n", "2>3 "),
        ("an abbreviation of two constraints", b"Ident\tId\n", "5>4 "),
        (
            "a name is tried before an earlier abbreviation",
            b"Dep\tM\n",
            "3>2 ",
        ),
        (
            "a name is tried before a later abbreviation",
            b"NoCoda\tM\n",
            "1>2 ",
        ),
        ("line feeds", b"Dep\tMax\nMax\tIdent\n", "3>2 2>5 "),
        ("carriage returns", b"Dep\tMax\rMax\tIdent\r", "3>2 2>5 "),
        ("both", b"Dep\tMax\r\nMax\tIdent\r\n", "3>2 2>5 "),
        (
            "a byte order mark of UTF-8",
            b"\xEF\xBB\xBFDep\tMax\n",
            "3>2 ",
        ),
        ("quotes and spaces", b" \"Dep\" \t\" Max \"\n", "3>2 "),
        (
            "empty cells behind a pair",
            b"Dep\tMax\t \t\"\"\t\n",
            "3>2 ",
        ),
        ("UTF-16", b"\xFF\xFED\0e\0p\0", "1 Utf16"),
        ("UTF-16 in the other order", b"\xFE\xFF", "1 Utf16"),
        ("UTF-16 before a pair", b"\xFF\xFEDep\tMax\n", "1 Utf16"),
        (
            "both marks",
            b"\xEF\xBB\xBF\xFF\xFEDep\tMax\n",
            "1 UnknownName",
        ),
        ("no upper name", b"\tMax\n", "1 MissingName"),
        ("no lower name", b"Max\n", "1 MissingName"),
        ("no lower name, one column", b"Max", "1 MissingName"),
        ("a lower name of quotes", b"Max\t\" \"\n", "1 MissingName"),
        ("a third column alone", b"\t\tMax\n", "1 MissingName"),
        ("an unknown upper name", b"\nFoo\tMax\n", "2 UnknownName"),
        ("an unknown lower name", b"Max\tFoo\n", "1 UnknownName"),
        ("a front of a name", b"Ma\tDep\n", "1 UnknownName"),
        ("small letters", b"max\tDep\n", "1 UnknownName"),
        ("one constraint", b"Max\tMax", "1 SameConstraint"),
        (
            "one constraint by two names",
            b"Max\tM\n",
            "1 SameConstraint",
        ),
        ("a third column", b"Dep\tMax\tx\n", "1 ExtraCell"),
        (
            "a fourth column",
            b"Dep\tMax\n\nDep\tMax\t\tx\n",
            "3 ExtraCell",
        ),
        (
            "upper before lower, unknown",
            b"Foo\t\tx\n",
            "1 UnknownName",
        ),
        (
            "upper before lower, missing",
            b"\tFoo\tx\n",
            "1 MissingName",
        ),
        (
            "missing before a third column",
            b"Max\t\tx\n",
            "1 MissingName",
        ),
        (
            "unknown before a third column",
            b"Max\tFoo\tx\n",
            "1 UnknownName",
        ),
        ("unknown, both the same", b"Foo\tFoo\n", "1 UnknownName"),
        (
            "unknown beside the first constraint",
            b"NoCoda\tFoo\n",
            "1 UnknownName",
        ),
        (
            "the same before a third column",
            b"Max\tM\tx\n",
            "1 SameConstraint",
        ),
        (
            "the first line with a fault",
            b"Dep\tMax\r\rMax\tDep\tx\rFoo\t\r",
            "3 ExtraCell",
        ),
    ];
    for (name, bytes, want) in table {
        let text = shown(rt.alloc(), bytes)?;
        assert_eq!(rt; text.as_str(), want, "{name}");
    }
    Ok(())
}

#[test]
fn at_most_4096_pairs_are_read(rt: HostRuntime) -> Result<(), Fail> {
    let table: [(usize, &[u8], &str); 6] = [
        (4_096, b"", "4096"),
        (4_096, b"\n \t\n", "4096"),
        (4_096, b"Max\tDep", "4097 TooManyPairs"),
        (4_097, b"Foo\tDep", "4097 TooManyPairs"),
        (4_096, b"\nMax\tDep\tx", "4098 ExtraCell"),
        (4_096, b"Max\tM", "4097 SameConstraint"),
    ];
    for (many, last, want) in table {
        let mut bytes = Vec::new(rt.alloc());
        for _ in 0..many {
            bytes.extend_from_slice(b"Dep\tMax\n")?;
        }
        bytes.extend_from_slice(last)?;
        let text = counted(rt.alloc(), &bytes)?;
        assert_eq!(rt; text.as_str(), want, "{many} pairs and {last:?}");
    }
    Ok(())
}

#[test]
fn at_most_16_777_216_bytes_are_read(rt: HostRuntime) -> Result<(), Fail> {
    let mut bytes = vec![in rt.alloc(); b' '; 16_777_216]?;
    let text = counted(rt.alloc(), &bytes)?;
    assert_eq!(rt; text.as_str(), "0");
    bytes.push(b'\n')?;
    let text = counted(rt.alloc(), &bytes)?;
    assert_eq!(rt; text.as_str(), "1 TooLong");
    Ok(())
}
