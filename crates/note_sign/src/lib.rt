//! What was learned of a cell that is set once, for good, and readable behind a `&`.
//!
//! A note of `once_cell` knows what its cell shows, but is read through a `&mut` alone. A sign keeps what a note knew, and a `&`
//! to it tells it to another note; so a value that is lent, as a front of a store, can answer from what it learned before. It
//! has no bytes. No safe form of the language turns a note into something that is read behind a `&`; so the proofs of the two
//! calls, and of the law of the type, are written by hand. This crate holds nothing else, so that they stand apart.
#![tactic(auto)]

ghost use Rattle.std.specs.Prelude.{◌≡◌, ℕ};
ghost use Rattle.std.specs.declared.option.Option.{Option};
ghost use Rattle.std.specs.Coded.{coded_option};
ghost use Rattle.once_cell.specs.Once.{noted};
ghost use denote.Sharing.{said};

use once_cell::race::Note;
use std::marker::{Model, PhantomData};

/// What a note knew of its cell: nothing yet, or the value that the cell shows for good. It has no bytes.
pub struct Sign<T> {
    marker: PhantomData<T>,
    pub ghost cell: { ℕ },
    pub ghost known: { Option T } by { coded_option T.code },
}

impl<T> Model for Sign<T> {
    ghost also_owns = { λ n. noted T.row n.cell n.known };

    ghost also_shares = { λ n _ κ. said (noted T.row n.cell n.known) κ };
}

impl<T> Drop for Sign<T> {
    fn drop(self) {
        let Sign { marker: _ } = self;
    }
}

unsafe impl<T> Send for Sign<T> {}

unsafe impl<T> Sync for Sign<T> {}

/// What the note knows, which the note still knows.
pub fn sign_of<T>(note: &mut Note<T>) -> Sign<T>
    ensures { (note.new ≡ note.old) × (result.cell ≡ note.old.cell) × (result.known ≡ note.old.known) }
{
    Sign {
        marker: PhantomData,
    }
}

/// Tells a note of the same cell what the sign knows, which it then knows in place of what it knew.
pub fn tell<T>(note: &mut Note<T>, sign: &Sign<T>)
    requires { sign.now.cell ≡ note.old.cell }
    ensures { (note.new.cell ≡ note.old.cell) × (note.new.known ≡ sign.now.known) }
{}
