//! Files and sinks in memory.

use erc_vectors::{List, NoMemory};
use ot_base::{Failed, Files, Label, MemFiles, MemSink, Sink, SureFiles};
use std::alloc::Global;
use std::test::Fail;

fn pairs(alloc: Global) -> Result<List<(Label, Label)>, NoMemory> {
    let mut files = List::new(alloc);
    for (name, bytes) in [("a", "first"), ("a", "second"), ("b", "")] {
        let name = Label::of(alloc, name.as_bytes())?;
        files.push((name, Label::of(alloc, bytes.as_bytes())?))?;
    }
    Ok(files)
}

/// The reads of a file in pieces of 3, with room for 4.
#[test]
fn files_in_memory_are_read(rt: HostRuntime) -> Result<(), Fail> {
    let alloc = rt.alloc();
    let mut fails = List::new(alloc);
    fails.push(3)?;
    let mut files = MemFiles::new(alloc, pairs(alloc)?, 3, fails);
    let mut buf = *b"----";
    assert_eq!(rt; files.open_file("c"), Err(Failed));
    assert_eq!(rt; files.open_file("a"), Ok(()));
    for (case, answer, read) in [
        ("the third call fails", Err(Failed), b"----"),
        ("a piece", Ok(3), b"fir-"),
        ("what is left", Ok(2), b"str-"),
        ("the end", Ok(0), b"str-"),
    ] {
        assert_eq!(rt; files.read(&mut buf), answer, "{case}");
        assert!(rt; buf == *read, "{case}");
    }
    let mut sure = SureFiles::new(alloc, pairs(alloc)?);
    assert_eq!(rt; sure.open_file("c"), Ok(()));
    assert_eq!(rt; sure.read(&mut buf), Ok(0));
    assert_eq!(rt; sure.open_file("a"), Ok(()));
    assert_eq!(rt; sure.read(&mut buf), Ok(4));
    assert!(rt; buf == *b"firs");
    Ok(())
}

/// Writes of 5 bytes in pieces of 4 into room for 6, of which the second fails.
#[test]
fn sinks_in_memory_are_written(rt: HostRuntime) -> Result<(), Fail> {
    let alloc = rt.alloc();
    let mut fails = List::new(alloc);
    fails.push(2)?;
    let mut sink = MemSink::with_room(alloc, 6, 4, fails)?;
    for (case, answer, written) in [
        ("a piece", Ok(4), "abcd"),
        ("the second write fails", Err(Failed), "abcd"),
        ("the room that is left", Ok(2), "abcdab"),
        ("no room", Err(Failed), "abcdab"),
    ] {
        assert_eq!(rt; sink.write(b"abcde"), answer, "{case}");
        assert!(rt; sink.written() == written.as_bytes(), "{case}");
    }
    assert_eq!(rt; sink.write(b""), Ok(0));
    Ok(())
}
