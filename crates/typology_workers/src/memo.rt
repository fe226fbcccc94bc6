//! The certificates that a worker found last, to be used again for other prefixes.
//!
//! The last term that a certificate needs is the one at which the fronts of the prefix's terms come to be kept by no ranking. Where
//! no ranking keeps it beside the terms of some first classes, the terms between these and it are all dropped, whatever they are. So
//! prefixes that share these classes and that term share the certificate.

ghost use Rattle.std.specs.Prelude.{◌≡◌, ◌<◌, true, length, take, IfOk, IfSome};
ghost use Rattle.ot_theory.specs.Problems as problems;
ghost use Rattle.refutation.specs.Prefixes.{class_numbers};
ghost use Rattle.typology_workers.specs.Remembered.{AreRemembered, IsRemembered};

use erc_vectors::NoMemory;
use ot_base::ClassId;
use refutation::{Contradiction, Prefix, Term};
use std::alloc::Global;

/// How many certificates are remembered.
const PLACES: usize = 64;

/// How far apart the places of the terms of two inputs, and of two winners of one input, begin: more than an input has classes, and a
/// prime.
const STRIDE: usize = 211;

/// The certificate of the terms of some first classes and of one term more.
#[derive(Drop)]
pub(crate) struct Entry {
    pub(crate) front: Prefix,
    pub(crate) last: Term,
    pub(crate) certificate: Contradiction,
}

/// A place for the certificates of each last term. Several terms may share a place, and the entry put last stays.
#[derive(Drop)]
pub(crate) struct Memo {
    pub(crate) entries: Vec<Option<Entry>>,
}

impl Memo {
    /// Before any certificate is found.
    pub(crate) fn new(alloc: Global) -> Result<Memo, NoMemory>
        ensures { IfOk result (λ memo. (p : problems.Problem) → AreRemembered p memo) }
    {
        let mut entries = Vec::with_capacity(alloc, PLACES)?;
        for _ in 0..PLACES {
            entries.push(None)?;
        }
        Ok(Memo { entries })
    }

    /// The entry of this last term whose front begins the prefix and is shorter.
    pub(crate) fn of(&self, last: &Term, prefix: &[ClassId]) -> Option<&Entry>
        ensures remembered { IfSome result (λ entry. (p : problems.Problem) → AreRemembered p self.now → IsRemembered p entry.now) }
        ensures last { IfSome result (λ entry. entry.now.last ≡ last.now) }
        ensures shorter { IfSome result (λ entry. length entry.now.front < length prefix.now) }
        ensures front { IfSome result (λ entry. entry.now.front ≡ take (length entry.now.front) (class_numbers prefix.now)) }
    {
        match self.entries.get(place_of(last)) {
            Some(Some(entry)) if entry.last == *last && begins(entry.front.as_slice(), prefix) => {
                Some(entry)
            }
            _ => None,
        }
    }

    /// Remembers a certificate in place of the one before it.
    pub(crate) fn put(&mut self, entry: Entry)
        ensures { (p : problems.Problem) → AreRemembered p self.old → IsRemembered p entry → AreRemembered p self.new }
    {
        let place = place_of(&entry.last);
        if place < self.entries.len() {
            self.entries[place] = Some(entry);
        }
    }
}

fn place_of(term: &Term) -> usize {
    match *term {
        Term::Loser {
            input,
            winner,
            loser,
        } => {
            let winner = input.0 as usize * STRIDE + winner.0 as usize;
            (winner * STRIDE + loser.0 as usize) % PLACES
        }
        Term::Given(k) => k as usize % PLACES,
    }
}

/// Whether classes begin a prefix and are not all of it.
fn begins(front: &[ClassId], prefix: &[ClassId]) -> bool
    ensures shorter { result ≡ true → length front.now < length prefix.now }
    ensures front { result ≡ true → class_numbers front.now ≡ take (length front.now) (class_numbers prefix.now) }
{
    front.len() < prefix.len() && prefix.starts_with(front)
}
