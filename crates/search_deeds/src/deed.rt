//! What a search did with a prefix.

ghost use Rattle.std.specs.Prelude.{◌≡◌, [], ◌∷◌, ◌++◌, OnOk, OnErr};

use erc_vectors::{List, NoMemory, Strata};
use refutation::{Contradiction, Prefix};
use std::alloc::Global;
use std::marker::Model;

/// What became of a prefix.
#[derive(Debug, Drop)]
pub enum Fate {
    /// It holds under some ranking and is no full choice: its children are searched in its place.
    Opened,
    /// It is a full choice that holds under some ranking, with the least hierarchy of its conditions.
    Language(Strata),
    /// It is refuted by this contradiction.
    Cut(Contradiction),
}

/// A prefix and what became of it.
#[derive(Debug, Drop)]
pub struct Deed {
    pub prefix: Prefix,
    pub fate: Fate,
}

/// A list of deeds, in the order in which they were done. A contract sees it as the list itself.
#[derive(Debug, Drop)]
pub struct Deeds {
    deeds: List<Deed>,
}

impl Model for Deeds {
    ghost use Rattle.std.specs.Prelude.{List};
    ghost use Rattle.search_deeds.specs.declared.deed.Deed.{Deed};

    ghost Value = { List Deed };

    ghost view = { λ list. list.deeds };
}

impl Deeds {
    /// The list of no deeds, which takes no memory yet.
    pub fn new(alloc: Global) -> Deeds
        ensures { result ≡ [] }
    {
        Deeds {
            deeds: List::new(alloc),
        }
    }

    /// Puts a deed behind the others. Where there is no memory for it, it is dropped and the list stays as it was.
    pub fn push(&mut self, d: Deed) -> Result<(), NoMemory>
        ensures ok { OnOk result (self.new ≡ self.old ++ d ∷ []) }
        ensures refused { OnErr result (self.new ≡ self.old) }
    {
        self.deeds.push(d)
    }

    /// The deeds, the oldest first.
    pub fn as_slice(&self) -> &[Deed]
        ensures { result.now ≡ self.now }
    {
        self.deeds.as_slice()
    }
}
