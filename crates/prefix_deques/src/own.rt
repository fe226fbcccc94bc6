//! The owner's end of one deque, with its books.

ghost use Rattle.std.specs.Prelude.{◌≡◌, ◌+◌, ◌<◌, ◌≤◌, ◌^◌, [], ◌∷◌, ◌++◌, true, length, IfOk, IfErr, IfNone, IfSome, OnOk, drop, MatchResult, MatchOption};
ghost use Rattle.crossbeam_deque.specs.Handles.{worker_deque, worker_flavor, worker_port, worker_view, worker_capacity, worker_index, SameWorker};
ghost use Rattle.prefix_deques.specs.Books.{account, whole, Puts, Gets, IsSpent, Settles};

use crate::rule::{Account, Get, Ledger, Put, Total};
use crossbeam_deque::Worker;
use erc_vectors::NoMemory;
use refutation::Prefix;
use std::alloc::Global;

/// A deque that gives the oldest first, under the rule.
pub type Deque = Worker<Prefix, Global, Account, Ledger>;

/// The slots that a deque begins with.
pub const ROOM: usize = 64;

/// A fresh deque, with all parts of the right to know the whole.
pub fn open(alloc: Global) -> Result<Deque, NoMemory>
    ensures { IfOk result (λ w. (worker_flavor w ≡ 0) × (worker_port w ≡ 0) × (worker_index w ≡ 0) × (ROOM ≤ worker_capacity w) × (worker_view w ≡ account true whole [] [])) }
{
    Ok(Deque::fifo_as(alloc, ROOM)?)
}

/// Puts a prefix at the back.
pub fn put(own: &mut Deque, p: Prefix) -> Result<(), Prefix>
    requires { (worker_view own.old).owns ≡ true }
    ensures same { SameWorker own.old own.new }
    ensures done { OnOk result (Puts (worker_view own.old) (p ∷ []) (worker_view own.new) × (worker_index own.new ≡ worker_index own.old + 1)) }
    ensures back { IfErr result (λ q. (q ≡ p) × (worker_view own.new ≡ worker_view own.old) × (worker_index own.new ≡ worker_index own.old) × (worker_capacity own.old ≤ worker_index own.old)) }
{
    own.push_as::<Put>(p)
}

/// Takes the front. With all parts, None shows that all was got.
pub fn take(own: &mut Deque) -> Option<Prefix>
    requires fifo { worker_flavor own.old ≡ 0 }
    requires part { 0 < (worker_view own.old).parts }
    ensures same { SameWorker own.old own.new × (worker_index own.new ≤ worker_index own.old) }
    ensures got { IfSome result (λ x. Gets (worker_view own.old) (x ∷ []) (worker_view own.new)) }
    ensures none { IfNone result ((worker_view own.new ≡ worker_view own.old) × IsSpent (worker_view own.old)) }
{
    own.pop_as::<Get>()
}

/// With all parts: the books agree, and what is left are the later puts, so many.
pub fn settle(own: &mut Deque) -> usize
    requires { ((worker_view own.old).owns ≡ true) × ((worker_view own.old).parts ≡ whole) }
    ensures same { (worker_view own.new ≡ worker_view own.old) × (worker_flavor own.new ≡ worker_flavor own.old) }
    ensures left { let v = worker_view own.old in (Settles v (drop (length v.gets) v.puts)) × (result + length v.gets ≡ length v.puts) }
{
    own.len_as::<Total>()
}
