//! Lines, cells, and the texts of cells.

use std::test::Fail;
use tab_cells::{CellText, cells, is_empty_cell, lines, unquote};

#[test]
fn cuts_lines(rt: HostRuntime) {
    let table: [(&str, &[&str]); 10] = [
        ("", &[]),
        ("a", &["a"]),
        ("a\n", &["a"]),
        ("a\r\nb\rc\n\n\rd", &["a", "b", "c", "", "", "d"]),
        ("\r\n", &[""]),
        ("\n\r", &["", ""]),
        ("\r\r\n", &["", ""]),
        ("a\r", &["a"]),
        ("a\tb\n \n", &["a\tb", " "]),
        ("\nab", &["", "ab"]),
    ];
    for (bytes, want) in table {
        let mut found = lines(bytes.as_bytes());
        for line in want {
            assert_eq!(rt; found.next(), Some(line.as_bytes()), "of {bytes:?}");
        }
        assert_eq!(rt; found.next(), None, "after {bytes:?}");
    }
}

#[test]
fn cuts_cells(rt: HostRuntime) {
    let table: [(&str, &[&str]); 6] = [
        ("", &[""]),
        ("a", &["a"]),
        ("a\t", &["a", ""]),
        ("\t\ta b", &["", "", "a b"]),
        (" a \t\"b\tc\"", &[" a ", "\"b", "c\""]),
        ("pat\tpa\r", &["pat", "pa\r"]),
    ];
    for (line, want) in table {
        let mut found = cells(line.as_bytes());
        for cell in want {
            assert_eq!(rt; found.next(), Some(cell.as_bytes()), "of {line:?}");
        }
        assert_eq!(rt; found.next(), None, "after {line:?}");
    }
}

#[test]
fn takes_digits(rt: HostRuntime) {
    let table: [(&str, usize, [u32; 3]); 6] = [
        ("", 0, [7, 7, 7]),
        ("1\t2", 2, [1, 2, 7]),
        ("1\t23\t4", 1, [1, 7, 7]),
        ("1\t0\t9\t4", 3, [1, 0, 9]),
        ("3\t\t4", 1, [3, 7, 7]),
        ("3\tx\t4", 1, [3, 7, 7]),
    ];
    for (line, taken, numbers) in table {
        let mut found = [7; 3];
        let mut left = cells(line.as_bytes());
        assert_eq!(rt; left.take_digits(&mut found), taken, "of {line:?}");
        assert_eq!(rt; found, numbers, "of {line:?}");
    }
}

#[test]
fn takes_digits_in_groups(rt: HostRuntime) {
    let table: [(&str, usize); 6] = [
        ("0\t1\t2\t3\t4\t5\t6\t7\t8\t9\t0\t1\t2\t3\t4\t5\t6\t7", 17),
        ("0\t1\t2\t3\t4\t5\t6\t7\t8\t9\t0\t1\t2\t3\t4\t5", 16),
        ("0\t1\t2\t3\t4\t5\t6\t7\t8\t9\t0\t1\t2 \t3\t4\t5\t6", 12),
        ("0\t1\t2\t3\t4\t55\t6\t7\t8\t9", 5),
        ("0\t1\t2\t3\t4\t5\t6\t:\t8\t9", 7),
        ("0\t1\t2\t3\t4\t5\t6\t7", 8),
    ];
    for (line, taken) in table {
        let mut found = [77; 17];
        let mut left = cells(line.as_bytes());
        assert_eq!(rt; left.take_digits(&mut found), taken, "of {line:?}");
        for k in 0..found.len() {
            let number = if k < taken { k as u32 % 10 } else { 77 };
            assert_eq!(rt; found[k], number, "at {k} of {line:?}");
        }
    }
}

#[test]
fn takes_the_text_of_cells(rt: HostRuntime) -> Result<(), Fail> {
    let table = [
        ("", "", false),
        ("x", "x", false),
        (" x ", "x", false),
        ("   ", "", false),
        ("\tx\t", "\tx\t", false),
        ("\"x\"", "x", false),
        (" \" x y \" ", "x y", false),
        ("\"a\"\"b\"", "a\"b", true),
        ("\" \"\"\"\"b \"", "\"\"b", true),
        ("\"a\"b\"", "a\"b", false),
        ("\"", "\"", false),
        ("\"\"", "", false),
        ("\"\"\"", "\"", false),
        ("\"\"\"\"", "\"", true),
        ("\"\"\"\"\"", "\"\"", true),
        ("\" \"", "", false),
        ("\"x", "\"x", false),
        ("x\"y\"", "x\"y\"", false),
        ("x\"\"y", "x\"\"y", false),
    ];
    for (cell, want, made) in table {
        match unquote(rt.alloc(), cell.as_bytes()) {
            Ok(text) => {
                assert_eq!(rt; text.bytes(), want.as_bytes(), "of {cell:?}");
                assert_eq!(rt; matches!(text, CellText::Made(_)), made, "of {cell:?}");
            }
            Err(error) => panic!(rt; "{cell:?}: {error:?}"),
        }
        assert_eq!(rt;
            is_empty_cell(cell.as_bytes()),
            want.is_empty(),
            "of {cell:?}"
        );
    }
    Ok(())
}
