//! What one caller has learned of a store.

ghost use Rattle.std.specs.Prelude.{◌≡◌, ◌≤◌, length};

use note_sign::Sign;
use refutation::Contradiction;
use std::marker::Model;

/// The contradictions that the first places of a store showed to one caller, in the order of the places, and how often a
/// place that the caller looked at gave nothing. It holds one sign for each place of the store from the start, so that it
/// grows without memory. A contract sees the names of the store's places too, by which it knows the store.
#[derive(Drop)]
pub struct Front {
    pub(crate) signs: Vec<Sign<Contradiction>>,
    pub(crate) len: usize,
    pub(crate) misses: u64,
}

impl Model for Front {
    ghost use Rattle.refutation_store.specs.Fronts.{FrontView, known_of, knowns, cells_of, IsFront};

    ghost Value = { FrontView };

    ghost view = { λ f. record { store = cells_of f.signs.items; values = known_of (knowns f.signs.items); misses = f.misses } };

    ghost invariant = { λ f. IsFront f.signs.items f.len };
}

impl Front {
    /// The number of contradictions that the front holds, no more than its store has places.
    pub fn len(&self) -> usize
        ensures len { result ≡ length self.now.values }
        ensures within { result ≤ length self.now.store }
    {
        self.len
    }

    /// How often a look gave nothing though the front did not hold all places. It stays at 2^64 - 1.
    pub fn misses(&self) -> u64
        ensures { result ≡ self.now.misses }
    {
        self.misses
    }
}
