//! A list of prefixes that only contracts read.
//!
//! It has no bytes, so noting one more takes no memory and cannot be refused. A type keeps one as a field where its contracts
//! speak of what happened to it in the past, as which prefixes were handed back to a seat, and the running program does not
//! need to know. No safe form of the language gives a list that grows from call to call without memory; so the proofs of the
//! two calls are written by hand. This crate holds nothing else, so that they stand apart.
#![tactic(auto)]

ghost use Rattle.std.specs.Prelude.{◌≡◌, [], ◌∷◌, ◌++◌, List, ℕ};
ghost use Rattle.std.specs.Coded.{coded_list, coded_ℕ};
ghost use base.Fml.{ftrue};

use refutation::Prefix;
use std::marker::Model;

/// The prefixes that were noted, in order. It has no bytes.
#[derive(Drop)]
pub struct Trace {
    pub ghost items: { List (List ℕ) } by { coded_list (coded_list coded_ℕ) },
}

impl Model for Trace {
    ghost also_owns = { λ _. ftrue };
}

impl Trace {
    /// The trace of nothing.
    pub fn new() -> Trace
        ensures { result.items ≡ [] }
    {
        Trace {}
    }

    /// The trace with one prefix more.
    pub fn then(&self, x: &Prefix) -> Trace
        ensures { result.items ≡ self.now.items ++ x.now ∷ [] }
    {
        let _ = x;
        Trace {}
    }
}

unsafe impl Send for Trace {}

unsafe impl Sync for Trace {}
