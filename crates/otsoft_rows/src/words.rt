//! Runs of words that give no settings, and of options that change no report.

ghost use Rattle.std.specs.Prelude.{None};

use crate::reports::CODA;
use erc_vectors::NoMemory;
use memory_runs::{Outside, Part, run_on, run_words, words_of};
use ot_base::{Failed, Files, NoGate};
use otsoft_run::Status;
use std::alloc::Global;
use std::test::Fail;
use std::thread::Threads;

/// Files of which none opens, and which count the opens.
#[derive(Drop)]
struct Closed {
    opens: u64,
}

impl Files for Closed {
    ghost told = { λ f. record { stored = λ _. None; left = None; unopened = λ _. f.opens; unread = f.opens; failed = f.opens } };

    fn open_file(&mut self, _name: &str) -> Result<(), Failed> {
        self.opens = self.opens.saturating_add(1);
        Err(Failed)
    }

    fn read(&mut self, _buf: &mut [u8]) -> Result<usize, Failed> {
        Ok(0)
    }
}

const BAD: [&str; 9] = [
    "typology",
    "typology A B",
    "frob A",
    "typology A --workers 0",
    "typology A --workers 65",
    "typology A --faith 1",
    "typology A --store 1 --store 2",
    "rank A --faith 0",
    "hasse A --store 1",
];

const USAGE: &[u8] = b"usage: otsoft COMMAND FILE [OPTIONS]\n";

/// How often words open a file, and in what their run is not as that of bad words has to be.
fn opens_of<R: Threads + Sync>(
    threads: &R,
    alloc: Global,
    words: &str,
) -> Result<(u64, Option<Part>), NoMemory> {
    let words = words_of(alloc, words, ' ')?;
    let mut files = Closed { opens: 0 };
    let outside = Outside::sound("A", b"");
    let left = run_words(
        threads,
        alloc,
        words.as_slice(),
        &mut files,
        &outside,
        &NoGate,
    )?;
    Ok((files.opens, left.difference(Status::BadWords, &[], USAGE)))
}

#[test]
fn bad_words_open_no_file(rt: HostRuntime) -> Result<(), Fail> {
    for words in &BAD {
        let (opens, part) = opens_of(&rt, rt.alloc(), words)?;
        assert_eq!(rt; opens, 0, "{words}");
        assert_eq!(rt; part, None, "{words}");
    }
    Ok(())
}

const SOUND: [&str; 6] = [
    "typology A --workers=02",
    "typology A --workers 64",
    "typology A --store 0",
    "--store=1 typology A",
    "typology --store 4096 A",
    "typology --workers 3 --store 9 -- A",
];

#[test]
fn options_change_no_report(rt: HostRuntime) -> Result<(), Fail> {
    let outside = Outside::sound("A", CODA.file.as_bytes());
    for words in &SOUND {
        let left = run_on(&rt, rt.alloc(), words, &outside)?;
        let part = left.difference(Status::Done, &[CODA.report.as_bytes()], b"");
        assert_eq!(rt; part, None, "{words}");
    }
    Ok(())
}
