//! The row of places.

ghost use Rattle.std.specs.Prelude.{◌≡◌, ◌+◌, ◌<◌, ◌≤◌, [], ◌∷◌, ◌++◌, length, IfOk, IfErr, OnErr, Some, slice_get, MatchOption, IsTrue, ◌↔◌};
ghost use Rattle.ot_base.specs.declared.limits.TheConstants.{PLACE_LIMIT};
ghost use Rattle.refutation_store.specs.Fronts.{Begins, Grows, Learns, IsKept, IsMissed, NotMet};

use crate::front::Front;
use erc_vectors::NoMemory;
use note_sign::{Sign, sign_of, tell};
use once_cell::race::OnceBox;
use refutation::Contradiction;
use std::alloc::Global;
use std::marker::Model;

/// What `keep` found: the place, from 0 on, that shows an equal contradiction, or that the front holds all places.
#[derive(Clone, Copy, Debug, PartialEq, Eq)]
pub enum Kept {
    At(usize),
    Full,
}

/// A row of places for contradictions. A contract sees it as the list of the places' names, by which fronts know it; what is in
/// them is known to fronts alone.
#[derive(Drop)]
pub struct Store {
    pub(crate) cells: Vec<OnceBox<Contradiction>>,
    alloc: Global,
}

impl Model for Store {
    ghost use Rattle.std.specs.Prelude.{List, ℕ, map};
    ghost use Rattle.once_cell.specs.Once.{cell_name};

    ghost Value = { List ℕ };

    ghost view = { λ s. map cell_name s.cells.items };
}

impl Store {
    /// A store of so many places, at most 4,096, all empty.
    pub fn new(alloc: Global, places: usize) -> Result<Store, NoMemory>
        requires { places ≤ PLACE_LIMIT }
        ensures { IfOk result (λ store. length store ≡ places) }
    {
        let mut cells = Vec::new(alloc);
        for _ in 0..places {
            let Ok(()) = cells.push(OnceBox::new(alloc)) else {
                return Err(NoMemory);
            };
        }
        Ok(Store { cells, alloc })
    }

    /// The number of places.
    pub fn places(&self) -> usize
        ensures { result ≡ length self.now }
    {
        self.cells.len()
    }

    /// A front of this store that holds nothing yet.
    pub fn front(&self) -> Result<Front, NoMemory>
        ensures { IfOk result (Begins self.now) }
    {
        let mut signs = Vec::new(self.alloc);
        for cell in &self.cells {
            let mut note = cell.note();
            let Ok(()) = signs.push(sign_of(&mut note)) else {
                return Err(NoMemory);
            };
        }
        Ok(Front {
            signs,
            len: 0,
            misses: 0,
        })
    }

    /// The contradiction of the place after the front, which the front then holds. None where the front holds all places, or
    /// where that place gave nothing, which raises the front's misses by 1. It takes no memory.
    pub fn look(&self, f: &mut Front) -> Option<&Contradiction>
        requires { f.old.store ≡ self.now }
        ensures value { MatchOption result (IsMissed f.old f.new) (λ value. Grows f.old value.now f.new) }
        ensures within { length f.new.values ≤ length self.now }
    {
        if f.len >= self.cells.len() {
            return None;
        }
        let next = &self.cells[f.len];
        let mut note = next.note();
        match next.get_as(&mut note) {
            Some(value) => {
                f.signs[f.len] = sign_of(&mut note);
                f.len += 1;
                Some(value)
            }
            None => {
                f.misses = f.misses.saturating_add(1);
                None
            }
        }
    }

    /// The contradiction that the front holds at a place, which is below the front's length. It takes no memory.
    pub fn seen<'s>(&'s self, f: &Front, place: usize) -> &'s Contradiction
        requires store { f.now.store ≡ self.now }
        requires place { place < length f.now.values }
        ensures { slice_get f.now.values place ≡ Some result.now }
    {
        let sign = &f.signs[place];
        let cell = &self.cells[place];
        let mut note = cell.note();
        tell(&mut note, sign);
        match cell.get_as(&mut note) {
            Some(value) => value,
            None => unreachable!(),
        }
    }

    /// Sees to it that a contradiction stands in the store: goes place by place from the front on, offers each a copy, and
    /// learns what it shows, up to the first that shows an equal one. Full where the front then holds all places and none of
    /// those that it met shows one. Where there is no memory, the front holds what it met before.
    pub fn keep(&self, f: &mut Front, c: &Contradiction) -> Result<Kept, NoMemory>
        requires { f.old.store ≡ self.now }
        ensures learns { Learns f.old f.new }
        ensures within { length f.new.values ≤ length self.now }
        ensures kept { IfOk result (IsKept (length self.now) c.now f.old.values f.new.values) }
        ensures refused { OnErr result (NotMet c.now (length f.old.values) f.new.values) }
    {
        while f.len() < self.cells.len() {
            let copy = c.copy()?;
            if self.offer(f, c, copy)? {
                return Ok(Kept::At(f.len() - 1));
            }
        }
        Ok(Kept::Full)
    }

    /// One place of `keep`: offers the copy to the place after the front, learns what it shows, and says whether that is an
    /// equal contradiction. Where the place shows another one, the copy is dropped.
    fn offer(&self, f: &mut Front, c: &Contradiction, copy: Contradiction) -> Result<bool, NoMemory>
        requires store { f.old.store ≡ self.now }
        requires room { length f.old.values < length self.now }
        ensures ok { IfOk result (λ same. (value : _) × Grows f.old value f.new × (IsTrue same ↔ (value ≡ c.now))) }
        ensures refused { OnErr result (f.new ≡ f.old) }
    {
        let Ok(boxed) = Box::new(self.alloc, copy) else {
            return Err(NoMemory);
        };
        let cell = &self.cells[f.len];
        let mut note = cell.note();
        let value = cell.get_or_init_as(move || boxed, &mut note);
        let same = is_same(value, c);
        f.signs[f.len] = sign_of(&mut note);
        f.len += 1;
        Ok(same)
    }
}

fn is_same(a: &Contradiction, b: &Contradiction) -> bool
    ensures { IsTrue result ↔ (a.now ≡ b.now) }
{
    a.terms.as_slice() == b.terms.as_slice()
}
