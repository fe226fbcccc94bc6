//! The way of one seat to one deque.

ghost use Rattle.std.specs.Prelude.{◌≡◌, ◌<◌, [], ◌∷◌, ◌++◌, ℕ, false};
ghost use Rattle.crossbeam_deque.specs.Handles.{view, IsPassOf, stealer_deque, stealer_flavor};
ghost use Rattle.prefix_deques.specs.Books.{Each};
ghost use Rattle.prefix_deques.specs.Stolen.{MatchStolen};

use crate::rule::{Account, Get, Ledger};
use crossbeam_deque::{Pass, Steal, Stealer};
use refutation::Prefix;
use std::alloc::Global;
use std::marker::Model;

pub type Thief = Stealer<Prefix, Global, Account, Ledger>;

/// What a try to steal gave: the front of the deque, or nothing, since the deque held nothing at one moment of the call, or since
/// somebody else was quicker.
#[derive(Drop)]
pub enum Stolen {
    Got(Prefix),
    Empty,
    Missed,
}

/// A stealer of a deque, and the pass by which the deque knows its seat. The lane to the own deque has no part in it and is never
/// used; it keeps the numbers of lanes and deques the same.
#[derive(Drop)]
pub struct Lane {
    thief: Thief,
    pass: Pass<Prefix, Account>,
}

impl Model for Lane {
    ghost use Rattle.std.specs.Prelude.{◌≡◌, false};
    ghost use Rattle.crossbeam_deque.specs.Handles.{view as pass_view, IsPassOf, stealer_deque, stealer_flavor};
    ghost use Rattle.prefix_deques.specs.Lanes.{LaneView};

    ghost Value = { LaneView };

    ghost view = { λ l. record { deque = (stealer_deque l.thief).0; parts = (pass_view l.pass).parts; gets = (pass_view l.pass).gets } };

    ghost invariant = { λ l. IsPassOf (stealer_deque l.thief) l.pass × (stealer_flavor l.thief ≡ 0) × ((pass_view l.pass).owns ≡ false) };
}

impl Lane {
    ghost use Rattle.prefix_deques.specs.Passes.{IsPass};

    /// One try.
    pub fn steal(&mut self) -> Stolen
        requires { 0 < self.old.parts }
        ensures got { MatchStolen result (λ x. (place : ℕ) × Each (λ e. e.0 < place) self.old.gets × (self.new ≡ record self.old { gets = self.old.gets ++ (place, x) ∷ [] })) (self.new ≡ self.old) }
    {
        match self.thief.steal_as::<Get>(&mut self.pass) {
            Steal::Success(x) => Stolen::Got(x),
            Steal::Empty => Stolen::Empty,
            Steal::Retry => Stolen::Missed,
        }
    }

    pub(crate) fn into_pass(self) -> Pass<Prefix, Account>
        ensures { IsPass self result }
    {
        let Lane { thief, pass } = self;
        drop(thief);
        pass
    }

    pub(crate) fn of(thief: Thief, pass: Pass<Prefix, Account>) -> Lane
        requires pass { IsPassOf (stealer_deque thief) pass × ((view pass).owns ≡ false) }
        requires flavor { stealer_flavor thief ≡ 0 }
        ensures { result ≡ record { deque = (stealer_deque thief).0; parts = (view pass).parts; gets = (view pass).gets } }
    {
        Lane { thief, pass }
    }
}
