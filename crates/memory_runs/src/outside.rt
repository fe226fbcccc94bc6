//! What a run finds outside: one or two files, and two sinks.

use erc_vectors::{List, NoMemory};
use ot_base::{Label, MemFiles, MemSink};
use std::alloc::Global;

/// One or two files in memory, the greatest pieces of a read and of a write, and the numbers of the calls that fail.
#[derive(Clone, Copy, Debug)]
pub struct Outside<'a> {
    /// The name of the file.
    pub name: &'a str,
    /// Its bytes.
    pub bytes: &'a [u8],
    /// The name of a second file. Where it is empty, there is none.
    pub other_name: &'a str,
    /// The bytes of the second file.
    pub other_bytes: &'a [u8],
    /// The most bytes of a read.
    pub read_piece: usize,
    /// Which calls of the files fail, counted from 1: opens and reads.
    pub read_fails: &'a [u64],
    /// The bytes that the output has room for.
    pub room: usize,
    /// The most bytes of a write to the output.
    pub write_piece: usize,
    /// Which writes to the output fail, counted from 1.
    pub write_fails: &'a [u64],
    /// The most bytes of a write to the fault output.
    pub err_piece: usize,
    /// Which writes to the fault output fail, counted from 1.
    pub err_fails: &'a [u64],
}

impl<'a> Outside<'a> {
    /// A file under a name, with no call that fails.
    pub fn sound(name: &'a str, bytes: &'a [u8]) -> Outside<'a> {
        Outside {
            name,
            bytes,
            other_name: "",
            other_bytes: b"",
            read_piece: usize::MAX,
            read_fails: &[],
            room: 1 << 16,
            write_piece: usize::MAX,
            write_fails: &[],
            err_piece: usize::MAX,
            err_fails: &[],
        }
    }

    /// The files.
    pub(crate) fn files(&self, alloc: Global) -> Result<MemFiles, NoMemory> {
        let mut files = List::new(alloc);
        let name = Label::of(alloc, self.name.as_bytes())?;
        let bytes = Label::of(alloc, self.bytes)?;
        files.push((name, bytes))?;
        if !self.other_name.is_empty() {
            let name = Label::of(alloc, self.other_name.as_bytes())?;
            let bytes = Label::of(alloc, self.other_bytes)?;
            files.push((name, bytes))?;
        }
        let fails = List::of(alloc, self.read_fails)?;
        Ok(MemFiles::new(alloc, files, self.read_piece.max(1), fails))
    }

    /// The output.
    pub(crate) fn out(&self, alloc: Global) -> Result<MemSink, NoMemory> {
        let fails = List::of(alloc, self.write_fails)?;
        MemSink::with_room(alloc, self.room, self.write_piece.max(1), fails)
    }

    /// The fault output.
    pub(crate) fn err(&self, alloc: Global) -> Result<MemSink, NoMemory> {
        let fails = List::of(alloc, self.err_fails)?;
        MemSink::with_room(alloc, 1 << 10, self.err_piece.max(1), fails)
    }
}
