//! A deque in its owner's hand, before its seat is made and after it was taken apart.

ghost use Rattle.std.specs.Prelude.{◌≡◌, ◌<◌, ◌≤◌, [], true, IfOk, length};
ghost use Rattle.crossbeam_deque.specs.Handles.{worker_deque, worker_flavor, worker_view, worker_capacity, worker_index};
ghost use Rattle.prefix_deques.specs.Dealing.{lane_to as lane_view, cut, lanes_from, cut_from, HaveParts, AreFresh, AreRows, after_rows, lists_of};

use crate::handout::lane_to;
use crate::lane::Lane;
use crate::own;
use crate::own::Deque;
use erc_vectors::NoMemory;
use std::alloc::Global;
use std::marker::Model;

/// A deque, seen as its parts of the right to know the whole, its puts and what its owner got.
#[derive(Drop)]
pub struct Owner {
    deque: Deque,
}

impl Model for Owner {
    ghost use Rattle.std.specs.Prelude.{◌≡◌, ◌≤◌, true, length};
    ghost use Rattle.crossbeam_deque.specs.Handles.{worker_deque, worker_flavor, worker_view, worker_capacity, worker_index};
    ghost use Rattle.prefix_deques.specs.Dealing.{OwnerView};

    ghost Value = { OwnerView };

    ghost view = { λ o. record { deque = (worker_deque o.deque).0; parts = (worker_view o.deque).parts; puts = (worker_view o.deque).puts; gets = (worker_view o.deque).gets } };

    ghost invariant = { λ o. ((worker_view o.deque).owns ≡ true) × (worker_flavor o.deque ≡ 0) × (64 ≤ worker_capacity o.deque) × (worker_index o.deque ≤ length (worker_view o.deque).puts) };
}

impl Owner {
    /// A fresh deque with all parts.
    pub fn new(alloc: Global) -> Result<Owner, NoMemory>
        ensures { IfOk result (λ o. (o.parts ≡ 128) × (o.puts ≡ []) × (o.gets ≡ [])) }
    {
        Ok(Owner {
            deque: own::open(alloc)?,
        })
    }

    pub(crate) fn of(deque: Deque) -> Owner
        requires owner { ((worker_view deque).owns ≡ true) × (worker_flavor deque ≡ 0) }
        requires room { (64 ≤ worker_capacity deque) × (worker_index deque ≤ length (worker_view deque).puts) }
        ensures { result ≡ record { deque = (worker_deque deque).0; parts = (worker_view deque).parts; puts = (worker_view deque).puts; gets = (worker_view deque).gets } }
    {
        Owner { deque }
    }

    pub(crate) fn into_deque(self) -> Deque
        ensures owner { ((worker_view result).owns ≡ true) × (worker_flavor result ≡ 0) }
        ensures room { (64 ≤ worker_capacity result) × (worker_index result ≤ length (worker_view result).puts) }
        ensures view { self ≡ record { deque = (worker_deque result).0; parts = (worker_view result).parts; puts = (worker_view result).puts; gets = (worker_view result).gets } }
    {
        let Owner { deque } = self;
        deque
    }

    /// A lane to the deque, with one part, or with none where it is the owner's own.
    pub fn lane(&mut self, mine: bool) -> Result<Lane, NoMemory>
        requires { 1 < self.old.parts }
        ensures { IfOk result (λ l. (l ≡ lane_view mine self.old) × (self.new ≡ cut mine self.old)) }
    {
        lane_to(&mut self.deque, mine)
    }
}

/// The lanes of the seat `number`, one to each deque.
pub fn row(alloc: Global, owners: &mut Vec<Owner>, number: usize) -> Result<Vec<Lane>, NoMemory>
    requires { HaveParts owners.old.items }
    ensures { IfOk result (λ lanes. (lanes.items ≡ lanes_from number 0 owners.old.items) × (owners.new.items ≡ cut_from number 0 owners.old.items)) }
{
    let mut lanes = Vec::new(alloc);
    for v in 0..owners.len() {
        let lane = owners[v].lane(v == number)?;
        let Ok(()) = lanes.push(lane) else {
            return Err(NoMemory);
        };
    }
    Ok(lanes)
}

/// The rows of all seats.
pub fn rows(alloc: Global, owners: &mut Vec<Owner>) -> Result<Vec<Vec<Lane>>, NoMemory>
    requires fresh { AreFresh owners.old.items }
    requires few { length owners.old.items ≤ 64 }
    ensures { IfOk result (λ rows. AreRows 0 owners.old.items (lists_of rows.items) × (length (lists_of rows.items) ≡ length owners.old.items) × (owners.new.items ≡ after_rows (length owners.old.items) 0 owners.old.items)) }
{
    let mut rows = Vec::new(alloc);
    for s in 0..owners.len() {
        let lanes = row(alloc, owners, s)?;
        let Ok(()) = rows.push(lanes) else {
            return Err(NoMemory);
        };
    }
    Ok(rows)
}

/// The owners of n fresh deques.
pub fn owners(alloc: Global, n: usize) -> Result<Vec<Owner>, NoMemory>
    ensures { IfOk result (λ owners. AreFresh owners.items × (length owners.items ≡ n)) }
{
    let mut owners = Vec::new(alloc);
    for _ in 0..n {
        let owner = Owner::new(alloc)?;
        let Ok(()) = owners.push(owner) else {
            return Err(NoMemory);
        };
    }
    Ok(owners)
}
