//! What a run leaves.

ghost use Rattle.std.specs.Prelude.{◌≡◌, None, IsTrue, flat_map};

use crate::outside::Outside;
use erc_vectors::NoMemory;
use ot_base::{Files, Gate, MemSink, NoGate};
use otsoft_run::{Status, run};
use std::alloc::Global;
use std::thread::Threads;
use typology_workers::Found;

/// What a run leaves.
#[derive(Drop)]
pub struct Left {
    /// What it answers.
    pub status: Status,
    /// The search in threads that its report was made from.
    pub found: Option<Found>,
    /// The output.
    pub out: MemSink,
    /// The fault output.
    pub err: MemSink,
}

/// A part of what a run leaves.
#[derive(Clone, Copy, Debug, PartialEq, Eq)]
pub enum Part {
    /// What it answers.
    Status,
    /// What stands on the output.
    Output,
    /// What stands on the fault output.
    FaultOutput,
}

impl Left {
    /// The first part that is not the one that is wanted. What is wanted of the output is told in pieces, one behind another.
    pub fn difference(&self, status: Status, output: &[&[u8]], fault: &[u8]) -> Option<Part>
        ensures status { result ≡ None → self.now.status ≡ status }
        ensures output { result ≡ None → self.now.out.written ≡ flat_map (λ piece. piece.now) output.now }
        ensures fault { result ≡ None → self.now.err.written ≡ fault.now }
    {
        if self.status != status {
            return Some(Part::Status);
        }
        if !is_joined(self.out.written(), output) {
            return Some(Part::Output);
        }
        if self.err.written() != fault {
            return Some(Part::FaultOutput);
        }
        None
    }
}

/// Whether the bytes are these pieces, one behind another.
fn is_joined(bytes: &[u8], pieces: &[&[u8]]) -> bool
    ensures { IsTrue result → bytes.now ≡ flat_map (λ piece. piece.now) pieces.now }
{
    let mut rest = bytes;
    for piece in pieces {
        match rest.strip_prefix(*piece) {
            Some(behind) => rest = behind,
            None => return false,
        }
    }
    rest.is_empty()
}

/// Runs words, parted by single blanks.
pub fn run_on<R: Threads + Sync>(
    threads: &R,
    alloc: Global,
    words: &str,
    outside: &Outside,
) -> Result<Left, NoMemory> {
    run_gated(threads, alloc, words, outside, &NoGate)
}

/// The same where a gate is told of the turns of a search.
pub fn run_gated<R: Threads + Sync, G: Gate>(
    threads: &R,
    alloc: Global,
    words: &str,
    outside: &Outside,
    gate: &G,
) -> Result<Left, NoMemory> {
    let words = words_of(alloc, words, ' ')?;
    let mut files = outside.files(alloc)?;
    run_words(threads, alloc, words.as_slice(), &mut files, outside, gate)
}

/// Runs words over files of any kind, and the sinks that the outside has.
pub fn run_words<R: Threads + Sync, F: Files, G: Gate>(
    threads: &R,
    alloc: Global,
    words: &[String],
    files: &mut F,
    outside: &Outside,
    gate: &G,
) -> Result<Left, NoMemory> {
    let mut out = outside.out(alloc)?;
    let mut err = outside.err(alloc)?;
    let ended = run(threads, alloc, words, files, &mut out, &mut err, gate);
    Ok(Left {
        status: ended.status,
        found: ended.found,
        out,
        err,
    })
}

/// The words of a text that a character parts. A text without it is one word.
pub fn words_of(alloc: Global, text: &str, between: char) -> Result<Vec<String>, NoMemory> {
    let mut words = Vec::new(alloc);
    for word in text.split(between) {
        let Ok(word) = String::from_str(alloc, word) else {
            return Err(NoMemory);
        };
        words.push(word)?;
    }
    Ok(words)
}
