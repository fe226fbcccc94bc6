//! The certificates of a bucket as bits, 64 in a block, so that one look at a word sorts many of them out.
//!
//! For each input that one of them names a block has eight words, of which a class takes one by its number. The word has the bits
//! of the certificates that may refute a prefix with this class. Those that do refute a prefix have their bits in all words that
//! its classes take, and most others in few: the words are laid over one another until no bit is left (after the bitmap
//! index of O'Neil, Model 204 Architecture and Performance, 1987).

ghost use Rattle.std.specs.Prelude.{◌≡◌, ◌≤◌, ◌<◌, ◌+◌, ◌*◌, ◌/◌, ◌%◌, ℕ, List, [], true, length, slice_index, All, OnOk, IfSome};
ghost use Rattle.std.specs.Int.{bit_at};
ghost use Rattle.ot_theory.specs.Refutations.{refutes};
ghost use Rattle.refutation.specs.Prefixes.{class_numbers, is_made};
ghost use Rattle.refutation.specs.Asked.{Begins};
ghost use Rattle.refutation.specs.Terms.{term_of, terms_in};
ghost use Rattle.search_deeds.specs.Admitted.{IsAdmitted, IsAdmittedAt, IsAdmittedBy};

use erc_vectors::NoMemory;
use ot_base::{ClassId, InId};
use refutation::Term;
use std::alloc::Global;
use std::marker::Model;

/// How many words there are for an input. A class takes that of its number modulo so many.
const WORDS: usize = 8;

/// For how many certificates a block has bits.
const ROOM: usize = 64;

/// What the certificates of a block ask for at an input.
#[derive(Debug, Drop)]
pub struct Row {
    pub input: InId,
    /// For each class, by its number modulo 8, the bits of the certificates that may refute a prefix with it.
    pub words: [u64; WORDS],
}

/// At most 64 certificates, each with a bit.
#[derive(Debug, Drop)]
pub struct Block {
    /// The bits of those that there are.
    pub present: u64,
    /// One row for each input before the last that one of them names.
    pub rows: Vec<Row>,
}

/// The certificates of a bucket, 64 in each block but the last. A contract sees them as the list of the blocks.
#[derive(Debug, Drop)]
pub struct Blocks {
    blocks: Vec<Block>,
}

impl Model for Blocks {
    ghost use Rattle.std.specs.Prelude.{List};
    ghost use Rattle.search_deeds.specs.declared.blocks.Block.{Block};

    ghost Value = { List Block };

    ghost view = { λ blocks. blocks.blocks.items };
}

impl Blocks {
    /// No certificates. They take no memory yet.
    pub(crate) fn none(alloc: Global) -> Blocks
        ensures { result ≡ [] }
    {
        Blocks {
            blocks: Vec::new(alloc),
        }
    }

    /// The blocks, in order.
    pub(crate) fn as_slice(&self) -> &[Block]
        ensures { result.now ≡ self.now }
    {
        self.blocks.as_slice()
    }

    /// Adds a certificate behind so many others. It has these terms, the last of which are of this input, if any is of one.
    pub(crate) fn add(&mut self, count: usize, terms: &[Term], last: usize) -> Result<(), NoMemory>
        requires { count ≤ length self.old * 64 }
        ensures room { OnOk result (count + 1 ≤ length self.new * 64) }
        ensures own { OnOk result ((prefix : List ℕ) → refutes (terms_in terms.now) prefix ≡ true → IsAdmittedAt self.new prefix count) }
        ensures others { OnOk result ((k : ℕ) → k < count → (prefix : List ℕ) → IsAdmittedAt self.old prefix k → IsAdmittedAt self.new prefix k) }
    {
        let at = count / ROOM;
        self.make(at)?;
        self.blocks[at].add(count % ROOM, terms, last)
    }

    /// Makes the block at this place, unless there is one.
    fn make(&mut self, at: usize) -> Result<(), NoMemory>
        requires { at ≤ length self.old }
        ensures long { OnOk result (at < length self.new) }
        ensures kept { OnOk result (Begins self.old self.new) }
    {
        if at < self.blocks.len() {
            return Ok(());
        }
        let block = Block::none(*self.blocks.allocator());
        self.blocks.push(block)?;
        Ok(())
    }
}

impl Block {
    fn none(alloc: Global) -> Block {
        Block {
            present: 0,
            rows: Vec::new(alloc),
        }
    }

    /// Adds a certificate with these terms, the last of which are of this input, by a bit that none has.
    fn add(&mut self, bit: usize, terms: &[Term], last: usize) -> Result<(), NoMemory>
        requires { bit < 64 }
        ensures own { OnOk result ((prefix : List ℕ) → refutes (terms_in terms.now) prefix ≡ true → IsAdmitted self.new prefix bit) }
        ensures others { OnOk result ((prefix : List ℕ) (b : ℕ) → IsAdmitted self.old prefix b → IsAdmitted self.new prefix b) }
    {
        for term in terms {
            if let Term::Loser { input, .. } = *term {
                self.add_row(input, last)?;
            }
        }
        self.present = with_bit(self.present, bit, true);
        admit(self.rows.as_mut_slice(), bit, terms);
        Ok(())
    }

    /// Adds a row for an input, unless there is one or it is the last.
    fn add_row(&mut self, input: InId, last: usize) -> Result<(), NoMemory>
        ensures { OnOk result ((prefix : List ℕ) (b : ℕ) → IsAdmitted self.old prefix b → IsAdmitted self.new prefix b) }
    {
        if input.0 as usize == last || self.has_row(input) {
            return Ok(());
        }
        self.rows.push(Row {
            input,
            words: [self.present; WORDS],
        })?;
        Ok(())
    }

    fn has_row(&self, input: InId) -> bool {
        self.rows.iter().any(|row| row.input == input)
    }

    /// The bits of the certificates that may refute a prefix.
    fn admitted(&self, prefix: &[ClassId]) -> u64
        ensures { (b : ℕ) → IsAdmitted self.now (class_numbers prefix.now) b → bit_at result b ≡ 1 }
    {
        let mut bits = self.present;
        for row in &self.rows {
            bits = row.among(bits, prefix);
            if bits == 0 {
                return 0;
            }
        }
        bits
    }
}

impl Row {
    /// Of these bits those in the word that a prefix takes.
    fn among(&self, bits: u64, prefix: &[ClassId]) -> u64
        ensures { (b : ℕ) → bit_at bits b ≡ 1 → IsAdmittedBy self.now (class_numbers prefix.now) b → bit_at result b ≡ 1 }
    {
        match prefix.get(self.input.0 as usize) {
            Some(class) => bits & self.words[class.0 as usize % WORDS],
            None => bits,
        }
    }

    /// Gives a certificate with these terms its bit in each word whose classes it may go with.
    fn admit(&mut self, bit: usize, terms: &[Term])
        requires { bit < 64 }
        ensures own { (prefix : List ℕ) → refutes (terms_in terms.now) prefix ≡ true → IsAdmittedBy self.new prefix bit }
        ensures others { (prefix : List ℕ) (b : ℕ) → IsAdmittedBy self.old prefix b → IsAdmittedBy self.new prefix b }
    {
        let winner = winner_at(terms, self.input);
        for k in 0..WORDS {
            self.words[k] = with_bit(self.words[k], bit, takes_word(winner, k));
        }
    }
}

/// Gives a certificate with these terms its bit in each row.
fn admit(rows: &mut [Row], bit: usize, terms: &[Term])
    requires { bit < 64 }
    ensures own { (prefix : List ℕ) → refutes (terms_in terms.now) prefix ≡ true → All (λ row. IsAdmittedBy row prefix bit) rows.new }
    ensures others { (prefix : List ℕ) (b : ℕ) → All (λ row. IsAdmittedBy row prefix b) rows.old → All (λ row. IsAdmittedBy row prefix b) rows.new }
{
    for k in 0..rows.len() {
        rows[k].admit(bit, terms);
    }
}

/// The word, with this bit too where it is given.
fn with_bit(word: u64, bit: usize, given: bool) -> u64
    requires { bit < 64 }
    ensures kept { (b : ℕ) → bit_at word b ≡ 1 → bit_at result b ≡ 1 }
    ensures set { given ≡ true → bit_at result bit ≡ 1 }
{
    if given { word | 1 << bit } else { word }
}

/// The first winner that some terms give to an input.
fn winner_at(terms: &[Term], input: InId) -> Option<ClassId>
    ensures { IfSome result (λ winner. (prefix : List ℕ) → refutes (terms_in terms.now) prefix ≡ true → (input.0 < length prefix) × (slice_index prefix input.0 ≡ winner.0)) }
{
    for term in terms {
        if let Some(winner) = winner_by(term, input) {
            return Some(winner);
        }
    }
    None
}

/// The winner that a term gives to an input.
fn winner_by(term: &Term, input: InId) -> Option<ClassId>
    ensures { IfSome result (λ winner. (prefix : List ℕ) → is_made prefix (term_of term.now) ≡ true → (input.0 < length prefix) × (slice_index prefix input.0 ≡ winner.0)) }
{
    match *term {
        Term::Loser {
            input: own,
            winner,
            ..
        } if own == input => Some(winner),
        _ => None,
    }
}

/// Whether a class takes this word. Where there is none, any class may be meant.
fn takes_word(class: Option<ClassId>, word: usize) -> bool
    ensures { IfSome class (λ class. class.0 % 8 ≡ word) → result ≡ true }
{
    match class {
        Some(class) => class.0 as usize % WORDS == word,
        None => true,
    }
}

/// From this place on the first of so many certificates that may refute a prefix, and the count where there is none.
pub(crate) fn next_admitted(
    blocks: &[Block],
    from: usize,
    count: usize,
    prefix: &[ClassId],
) -> usize
    requires from { from ≤ count }
    requires room { count ≤ length blocks.now * 64 }
    ensures within { result ≤ count }
    ensures onward { from ≤ result }
    ensures passed { (k : ℕ) → from ≤ k → k < result → IsAdmittedAt blocks.now (class_numbers prefix.now) k → ⊥ }
{
    let mut k = from;
    while k < count {
        let left = blocks[k / ROOM].admitted(prefix) >> (k % ROOM);
        if left != 0 {
            return count.min(k + left.trailing_zeros() as usize);
        }
        k += ROOM - k % ROOM;
    }
    count
}
