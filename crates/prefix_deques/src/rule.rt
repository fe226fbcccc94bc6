//! The rule of a deque: what was put, and what each pass got.
//!
//! Each pass carries an account: whether it is the owner's, its parts of the right to know the whole, its puts and its gets. All
//! parts together are always 128, of which at most 63 are cut off, and a pass without a part has got nothing;
//! so a pass that has all parts again has all gets, and what it learns of the deque is exact. The moves are those of the deque:
//! a put, a take or a steal that gets, each that finds nothing, a part cut off, and passes joined.

ghost use Rattle.std.specs.Prelude.{◌≡◌, ◌+◌, ◌-◌, true, false, ◌++◌, []};
ghost use Rattle.prefix_deques.specs.Books.{account, nobody, Puts, Gets, IsSpent, Settles};

use crossbeam_deque::protocol::{Join, Lesson, Outcome, Protocol, Split};
use refutation::Prefix;
use std::collections::LinkedList;

/// What a pass has put and got, and its parts of the right to know the whole. No value of it is made.
pub struct Account {
    pub owns: bool,
    pub parts: u64,
    pub puts: LinkedList<Prefix>,
    pub gets: LinkedList<(u64, Prefix)>,
}

/// The rule itself: what left the deque and what is in it are the puts, in order, and each place that left stands once in the gets.
pub struct Ledger;

impl Protocol<Prefix, Account> for Ledger {
    ghost use Rattle.std.specs.Prelude.{true, []};
    ghost use Rattle.prefix_deques.specs.Books.{account, nobody, whole, Kept};

    ghost holds = { Kept };

    ghost first = { account true whole [] [] };

    ghost guest = { nobody };
}

/// A put.
pub struct Put;

impl Outcome<Prefix, Account> for Put {
    ghost then = { Puts };
}

/// A take or a steal.
pub struct Get;

impl Outcome<Prefix, Account> for Get {
    ghost then = { Gets };

    ghost empty = { IsSpent };
}

/// A pass of one part is cut off.
pub struct Cut;

impl Split<Account> for Cut {
    ghost left = { λ v. account v.owns (v.parts - 1) v.puts v.gets };

    ghost right = { λ v. account false 1 [] [] };
}

/// A pass that knows nothing.
pub struct Blank;

impl Split<Account> for Blank {
    ghost left = { λ v. v };

    ghost right = { λ v. nobody };
}

impl Join<Account> for Cut {
    ghost both = { λ v w. account v.owns (v.parts + w.parts) v.puts (v.gets ++ w.gets) };

    ghost spent = { nobody };
}

/// What the account with all parts learns.
pub struct Total;

impl Lesson<Prefix, Account> for Total {
    ghost fact = { Settles };
}
