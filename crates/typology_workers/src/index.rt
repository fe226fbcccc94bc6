//! An index of the values of a front that are contradictions of the problem, so that few of them are asked whether they refute a
//! prefix.
//!
//! A contradiction that refutes a prefix has the winner of its last term in it, or its last term is a given pair. So it stands in the
//! slot of one of the classes of the prefix, or in the last slot, which is that of given pairs. Several classes may share a slot. Beside
//! the place of each stand the bits of the choices that it asks for: where the prefix lacks one of them, the contradiction is passed over
//! unseen.

ghost use Rattle.std.specs.Prelude.{◌≡◌, ◌<◌, ◌≤◌, ℕ, [], length, slice_index, slice_index_or, IfOk, OnOk};
ghost use Rattle.refutation.specs.Prefixes.{class_numbers};
ghost use Rattle.refutation.specs.Terms.{terms_in};
ghost use Rattle.refutation.specs.Typologies.{certificates_of};
ghost use Rattle.search_deeds.specs.Sieved.{AreMarked, HasBits, IsMarkOf, IsSieve};
ghost use Rattle.violation_profiles.specs.WellFormed.{IsPrefix};
ghost use Rattle.typology_workers.specs.Indexed.{CutsOffAt, Has, IsIndex, RefutesAt, last_of, slot_for, slot_of, slots_with};

use erc_vectors::{List, NoMemory};
use ot_base::{ClassId, INPUT_LIMIT, InId};
use refutation::{Contradiction, Term, is_genuine, refutes};
use refutation_store::{Front, Store};
use search_deeds::{bits_of, mark_of};
use std::alloc::Global;
use violation_profiles::Problem;

/// How far apart the slots of the first classes of two inputs are that follow one another: more than an input has classes, and a prime,
/// so that the classes of all inputs spread over any number of slots.
const STRIDE: usize = 211;

/// For each slot the places of the contradictions whose last term has its input and winner there, and for the last slot of those whose
/// last term is a given pair; beside each the bits of the choices that it asks for; and how many values of the front are indexed.
#[derive(Drop)]
pub(crate) struct Index {
    pub(crate) slots: Vec<List<usize>>,
    pub(crate) marks: Vec<List<u64>>,
    pub(crate) indexed: usize,
}

impl Index {
    /// The index of no values, with a slot for each place of a store, and at least one, and the slot of given pairs.
    pub(crate) fn new(alloc: Global, places: usize) -> Result<Index, NoMemory>
        ensures some { IfOk result (λ index. 1 < length index.slots.items) }
        ensures empty { IfOk result (λ index. (s : ℕ) → slice_index_or index.slots.items s [] ≡ []) }
        ensures unmarked { IfOk result (λ index. (s : ℕ) → slice_index_or index.marks.items s [] ≡ []) }
        ensures long { IfOk result (λ index. length index.marks.items ≡ length index.slots.items) }
        ensures none { IfOk result (λ index. index.indexed ≡ 0) }
    {
        let mut slots = Vec::new(alloc);
        let mut marks = Vec::new(alloc);
        for _slot in 0..=places.max(1) {
            slots.push(List::new(alloc))?;
            marks.push(List::new(alloc))?;
        }
        Ok(Index {
            slots,
            marks,
            indexed: 0,
        })
    }

    /// Indexes the values that the front has learnt since.
    pub(crate) fn learn(
        &mut self,
        p: &Problem,
        store: &Store,
        front: &Front,
    ) -> Result<(), NoMemory>
        requires store { front.now.store ≡ store.now }
        requires index { IsIndex p.now self.old.slots.items self.old.indexed front.now.values }
        requires marked { AreMarked (certificates_of front.now.values) self.old.slots.items self.old.marks.items }
        ensures index { OnOk result (IsIndex p.now self.new.slots.items (length front.now.values) front.now.values × (self.new.indexed ≡ length front.now.values)) }
        ensures marked { OnOk result (AreMarked (certificates_of front.now.values) self.new.slots.items self.new.marks.items) }
    {
        for place in self.indexed..front.len() {
            let value = store.seen(front, place);
            if is_genuine(p, value) {
                self.add(value, place)?;
            }
        }
        self.indexed = front.len();
        Ok(())
    }

    /// The first place of the front whose value is a contradiction of the problem and refutes the prefix, or the number of values
    /// where there is none.
    pub(crate) fn first(
        &self,
        p: &Problem,
        store: &Store,
        front: &Front,
        prefix: &[ClassId],
    ) -> usize
        requires store { front.now.store ≡ store.now }
        requires index { IsIndex p.now self.now.slots.items (length front.now.values) front.now.values }
        requires marked { AreMarked (certificates_of front.now.values) self.now.slots.items self.now.marks.items }
        requires prefix { IsPrefix p.now (class_numbers prefix.now) }
        ensures within { result ≤ length front.now.values }
        ensures hit { result < length front.now.values → CutsOffAt p.now front.now.values (class_numbers prefix.now) result }
        ensures first { (k : ℕ) → CutsOffAt p.now front.now.values (class_numbers prefix.now) k → result ≤ k }
    {
        prove!(prefix.len() <= p.inputs());
        prove!(p.inputs() <= INPUT_LIMIT);
        let bits = bits_of(prefix);
        let mut best = front.len();
        for i in (0..prefix.len()).rev() {
            let slot = slot_of(self.slots.len(), InId(i as u32), prefix[i]);
            best = self.nearest_in(slot, store, front, prefix, bits, best);
        }
        self.nearest_in(self.slots.len() - 1, store, front, prefix, bits, best)
    }

    /// The first of `best` and of the places in a slot whose value refutes the prefix, whose choices have these bits.
    fn nearest_in(
        &self,
        slot: usize,
        store: &Store,
        front: &Front,
        prefix: &[ClassId],
        bits: u64,
        best: usize,
    ) -> usize
        requires slot { slot < length self.now.slots.items }
        requires store { front.now.store ≡ store.now }
        requires marked { AreMarked (certificates_of front.now.values) self.now.slots.items self.now.marks.items }
        requires bits { HasBits (class_numbers prefix.now) bits }
        requires within { best ≤ length front.now.values }
        ensures low { result ≤ best }
        ensures hit { result < best → Has (slice_index_or self.now.slots.items slot []) result × RefutesAt front.now.values (class_numbers prefix.now) result }
        ensures all { (k : ℕ) → Has (slice_index_or self.now.slots.items slot []) k → RefutesAt front.now.values (class_numbers prefix.now) k → result ≤ k }
    {
        let places = self.slots[slot].as_slice();
        let marks = self.marks[slot].as_slice();
        nearest(store, front, prefix, bits, places, marks, best)
    }

    /// Puts a place, and the bits of its value, into the slot of the last term of its value.
    fn add(&mut self, value: &Contradiction, place: usize) -> Result<(), NoMemory>
        requires some { 1 < length self.old.slots.items }
        requires long { length self.old.marks.items ≡ length self.old.slots.items }
        ensures slots { OnOk result (self.new.slots.items ≡ slots_with (last_of value.now.terms) place self.old.slots.items) }
        ensures marks { OnOk result ((mark : ℕ) × IsMarkOf (terms_in value.now.terms) mark × (self.new.marks.items ≡ slots_with (last_of value.now.terms) mark self.old.marks.items)) }
    {
        let mark = mark_of(value.terms.as_slice());
        if let Some(last) = value.terms.as_slice().last() {
            let slot = slot_for(self.slots.len(), last);
            self.slots[slot].push(place)?;
            self.marks[slot].push(mark)?;
        }
        Ok(())
    }
}

/// The slot of a term, of so many: that of its winner, and the last one of a given pair.
fn slot_for(slots: usize, term: &Term) -> usize
    requires { 1 < slots }
    ensures slot { result ≡ slot_for slots term.now }
    ensures within { result < slots }
{
    match *term {
        Term::Loser { input, winner, .. } => slot_of(slots, input, winner),
        Term::Given(_) => slots - 1,
    }
}

/// The slot of a class of an input, of so many, of which the last one is that of given pairs.
fn slot_of(slots: usize, input: InId, class: ClassId) -> usize
    requires { 1 < slots }
    ensures slot { result ≡ slot_of slots input.0 class.0 }
    ensures within { result < slots }
{
    (input.0 as usize * STRIDE + class.0 as usize) % (slots - 1)
}

/// The first of `best` and of those of these places whose value refutes the prefix, whose choices have these bits. Beside each place
/// stand the bits that its value asks for.
#[tactic(auto, using(crate::proofs::Sifting::passes_sieve))]
fn nearest(
    store: &Store,
    front: &Front,
    prefix: &[ClassId],
    bits: u64,
    places: &[usize],
    marks: &[u64],
    best: usize,
) -> usize
    requires store { front.now.store ≡ store.now }
    requires sieve { IsSieve (certificates_of front.now.values) (class_numbers prefix.now) places.now marks.now bits }
    requires within { best ≤ length front.now.values }
    ensures low { result ≤ best }
    ensures hit { result < best → Has places.now result × RefutesAt front.now.values (class_numbers prefix.now) result }
    ensures all { (j : ℕ) → j < length places.now → RefutesAt front.now.values (class_numbers prefix.now) (slice_index places.now j) → result ≤ slice_index places.now j }
{
    let mut nearest = best;
    for k in 0..places.len() {
        let place = places[k];
        if marks[k] | bits == bits && place < nearest && refutes(store.seen(front, place), prefix) {
            nearest = place;
        }
    }
    nearest
}
