//! The demonstration file of a number.

use demonstration_file::demonstration_file;
use std::test::Fail;

const HEADER: &str = "\t\t\tC1\tC2\tC3\tC4\tC5\tC6\tC7\tC8\tC9\tC10\tC11\tC12";

/// Lines of files, from 0 on: a number, the place of the line, and its text.
const LINES: [(u64, usize, &str); 8] = [
    (1, 0, HEADER),
    (1, 1, HEADER),
    (1, 2, "i1\ti1c1\t1\t2\t0\t0\t0\t0\t0\t0\t0\t0\t0\t0\t0"),
    (1, 3, "\ti1c2\t\t0\t0\t2\t0\t0\t0\t0\t0\t0\t0\t0\t0"),
    (1, 7, "i2\ti2c1\t1\t0\t0\t0\t1\t1\t2\t0\t0\t0\t0\t0\t0"),
    (1, 101, "\ti20c5\t\t0\t0\t0\t0\t0\t0\t0\t0\t0\t1\t2\t2"),
    (0, 2, "i1\ti1c1\t1\t2\t0\t1\t0\t0\t0\t0\t0\t0\t0\t0\t0"),
    (
        u64::MAX,
        2,
        "i1\ti1c1\t1\t1\t2\t1\t0\t0\t0\t0\t0\t0\t0\t0\t0",
    ),
];

/// Whether this text is the line at a place, from 0 on.
fn has_line(bytes: &[u8], place: usize, want: &str) -> bool {
    match bytes.split(|c| *c == b'\n').nth(place) {
        Some(line) => line == want.as_bytes(),
        None => false,
    }
}

#[test]
fn makes_these_lines(rt: HostRuntime) -> Result<(), Fail> {
    for (number, place, want) in LINES {
        let file = demonstration_file(rt.alloc(), number)?;
        let is_there = has_line(file.bytes(), place, want);
        assert!(rt; is_there, "line {place} of {number}");
    }
    Ok(())
}

#[test]
fn has_the_same_length_for_every_number(rt: HostRuntime) -> Result<(), Fail> {
    for number in [0, 1, 7, u64::MAX] {
        let file = demonstration_file(rt.alloc(), number)?;
        assert_eq!(rt; file.bytes().len(), 3_310, "of {number}");
    }
    Ok(())
}
