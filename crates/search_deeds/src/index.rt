//! The places of certificates by the last choice that each of them asks for, so that few are looked at for a prefix. Those of given
//! pairs alone, which ask for none, stand by themselves.

ghost use Rattle.std.specs.Prelude.{◌≡◌, ◌<◌, ◌≤◌, ℕ, List, [], ◌∷◌, ◌++◌, length, slice_index_or, take, true, false, IfOk, OnOk, All};
ghost use Rattle.ot_base.specs.declared.limits.TheConstants.{CANDIDATE_LIMIT};
ghost use Rattle.ot_theory.specs.Languages as theory;
ghost use Rattle.ot_theory.specs.Languages.{Loser, classes_at, refuted};
ghost use Rattle.ot_theory.specs.Refutations.{is_contradiction};
ghost use Rattle.violation_profiles.specs.WellFormed.{IsPrefix};
ghost use Rattle.refutation.specs.Prefixes.{class_numbers};
ghost use Rattle.refutation.specs.Terms.{term_of, terms_in};
ghost use Rattle.search_deeds.specs.Indexed.{is_last, HoldsRefuting, IsBucket, IsIndex, IsLaidOut, IsLastOf};
ghost use Rattle.search_deeds.specs.Admitted.{AreBlocked, AreBlocks, HaveRoom};

use crate::blocks::{Block, Blocks};
use erc_vectors::{List, NoMemory};
use ot_base::{ClassId, INPUT_LIMIT, InId};
use refutation::Term;
use std::alloc::Global;
use violation_profiles::Problem;

/// For each input and class the places of the certificates that give no later input a winner, and this input this class.
#[derive(Debug, Drop)]
pub struct Index {
    /// The greatest number of classes of an input.
    pub widest: usize,
    /// The places, in ascending order, of class a of input i at i * widest + a, and at the end of those of given pairs alone.
    pub places: Vec<List<usize>>,
    /// Beside each list of places what its certificates ask for, as bits.
    pub blocks: Vec<Blocks>,
}

impl Index {
    /// The index of no certificates.
    pub fn new(alloc: Global, p: &Problem) -> Result<Index, NoMemory>
        ensures places { IfOk result (λ index. IsIndex p.now [] index.widest index.places.items) }
        ensures blocked { IfOk result (λ index. AreBlocked [] index.places.items index.blocks.items) }
    {
        let widest = widest(p);
        let mut places = Vec::new(alloc);
        let mut blocks = Vec::new(alloc);
        for _ in 0..p.inputs() * widest + 1 {
            places.push(List::new(alloc))?;
            blocks.push(Blocks::none(alloc))?;
        }
        Ok(Index {
            widest,
            places,
            blocks,
        })
    }

    /// The places of the certificates that give the last input of a prefix its last class as its winner, and no later one any, and
    /// beside them their blocks; for the empty prefix those of given pairs alone. Where no shorter front of the prefix is refuted, those that refute it are among them.
    pub fn bucket_for(&self, p: &Problem, prefix: &[ClassId]) -> (&[usize], &[Block])
        requires prefix { IsPrefix p.now (class_numbers prefix.now) }
        requires laid_out { IsLaidOut p.now self.now.widest self.now.places.items }
        requires as_long { length self.now.blocks.items ≡ length self.now.places.items }
        ensures refuting { (certificates : List (List theory.Term)) → IsIndex p.now certificates self.now.widest self.now.places.items → All (λ terms. is_contradiction p.now terms ≡ true) certificates
            → ((k : ℕ) → k < length prefix.now → refuted p.now (take k (class_numbers prefix.now)) ≡ false) → HoldsRefuting certificates (class_numbers prefix.now) result.0.now }
        ensures blocked { (certificates : List (List theory.Term)) → AreBlocked certificates self.now.places.items self.now.blocks.items → AreBlocks certificates result.0.now result.1.now }
    {
        prove!(prefix.len() <= p.inputs());
        let bucket = self.last_of(p, prefix);
        (
            self.places[bucket].as_slice(),
            self.blocks[bucket].as_slice(),
        )
    }

    /// Where the certificates stand that ask for the last choice of a prefix.
    fn last_of(&self, p: &Problem, prefix: &[ClassId]) -> usize
        requires prefix { IsPrefix p.now (class_numbers prefix.now) }
        requires laid_out { IsLaidOut p.now self.now.widest self.now.places.items }
        ensures within { result < length self.now.places.items }
        ensures refuting { (certificates : List (List theory.Term)) → IsIndex p.now certificates self.now.widest self.now.places.items → All (λ terms. is_contradiction p.now terms ≡ true) certificates
            → ((k : ℕ) → k < length prefix.now → refuted p.now (take k (class_numbers prefix.now)) ≡ false) → HoldsRefuting certificates (class_numbers prefix.now) (slice_index_or self.now.places.items result []) }
    {
        prove!(p.inputs() <= INPUT_LIMIT);
        if prefix.is_empty() {
            return p.inputs() * self.widest;
        }
        let input = prefix.len() - 1;
        input * self.widest + prefix[input].0 as usize
    }

    /// Where a certificate with these terms stands.
    fn bucket_of(&self, p: &Problem, terms: &[Term]) -> usize
        requires genuine { is_contradiction p.now (terms_in terms.now) ≡ true }
        requires laid_out { IsLaidOut p.now self.now.widest self.now.places.items }
        ensures within { result < length self.now.places.items }
        ensures bucket { IsBucket p.now self.now.widest (terms_in terms.now) result }
    {
        prove!(p.inputs() <= INPUT_LIMIT);
        match last_choice(terms) {
            Some((input, winner)) => input * self.widest + winner,
            None => p.inputs() * self.widest,
        }
    }

    /// Adds a certificate, which has these terms, with its place behind those of the others.
    pub fn add(&mut self, p: &Problem, terms: &[Term], place: usize) -> Result<(), NoMemory>
        requires genuine { is_contradiction p.now (terms_in terms.now) ≡ true }
        requires laid_out { IsLaidOut p.now self.old.widest self.old.places.items }
        requires room { HaveRoom self.old.places.items self.old.blocks.items }
        ensures places { OnOk result ((certificates : List (List theory.Term)) → length certificates ≡ place → IsIndex p.now certificates self.old.widest self.old.places.items
            → IsIndex p.now (certificates ++ terms_in terms.now ∷ []) self.new.widest self.new.places.items) }
        ensures blocked { OnOk result ((certificates : List (List theory.Term)) → length certificates ≡ place → IsIndex p.now certificates self.old.widest self.old.places.items → AreBlocked certificates self.old.places.items self.old.blocks.items
            → AreBlocked (certificates ++ terms_in terms.now ∷ []) self.new.places.items self.new.blocks.items) }
    {
        let bucket = self.bucket_of(p, terms);
        let last = last_choice(terms).map_or(0, |choice| choice.0);
        let count = self.places[bucket].len();
        self.blocks[bucket].add(count, terms, last)?;
        self.places[bucket].push(place)
    }
}

/// The greatest number of classes of an input.
pub fn widest(p: &Problem) -> usize
    ensures wide { (i : ℕ) → i < length p.now.inputs → length (classes_at p.now i) ≤ result }
    ensures small { result ≤ CANDIDATE_LIMIT }
{
    let mut widest = 0;
    for i in 0..p.inputs() {
        widest = widest.max(p.classes(InId(i as u32)));
    }
    widest
}

/// The last input to which some terms give a winner, and that winner, if they give any.
fn last_choice(terms: &[Term]) -> Option<(usize, usize)>
    ensures { IsLastOf (terms_in terms.now) result }
{
    let mut last = None;
    for term in terms {
        last = last_with(last, term);
    }
    last
}

/// The same with one term more.
fn last_with(last: Option<(usize, usize)>, term: &Term) -> Option<(usize, usize)>
    ensures { (terms : List theory.Term) → IsLastOf terms last → IsLastOf (terms ++ term_of term.now ∷ []) result }
{
    match *term {
        Term::Loser { input, winner, .. } => Some(later(last, input.0 as usize, winner.0 as usize)),
        Term::Given(_) => last,
    }
}

/// Of the last choice so far and another one the later.
fn later(last: Option<(usize, usize)>, input: usize, winner: usize) -> (usize, usize)
    ensures { (terms : List theory.Term) (loser : ℕ) → IsLastOf terms last → is_last (terms ++ Loser input winner loser ∷ []) result.0 result.1 ≡ true }
{
    match last {
        Some(choice) if input < choice.0 => choice,
        _ => (input, winner),
    }
}
