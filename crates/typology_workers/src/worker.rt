//! One worker's loop.

ghost use Rattle.std.specs.Prelude.{◌≡◌, All, length, IfOk, OnOk};
ghost use Rattle.prefix_deques.specs.Lanes.{HasPlaces};
ghost use Rattle.refutation.specs.Typologies.{certificates_of};
ghost use Rattle.search_deeds.specs.Sieved.{AreMarked};
ghost use Rattle.typology_workers.specs.Indexed.{IsIndex};
ghost use Rattle.typology_workers.specs.Paths.{IsPathOf};
ghost use Rattle.typology_workers.specs.Stays.{KeepsFront, KeepsSeat};
ghost use Rattle.typology_workers.specs.Turned.{HasSettled, IsFated};
ghost use Rattle.typology_workers.specs.Worked.{IsWorked};
ghost use Rattle.violation_profiles.specs.WellFormed.{IsPrefix};

use crate::getting::get;
use crate::handing::open;
use crate::index::Index;
use crate::learning::{find, look_all};
use crate::outcome::Work;
use crate::path::Path;
use erc_vectors::{List, NoMemory};
use ot_base::Gate;
use prefix_deques::Seat;
use refutation::{Prefix, is_prefix};
use refutation_store::{Front, Store};
use search_deeds::{Deed, Deeds, Fate};
use search_machine::fate_for;
use std::alloc::Global;
use violation_profiles::Problem;

/// A worker ends after so many idle rounds in a row.
pub const IDLE_ROUNDS: u64 = 4_096;

/// A worker ends after so many turns.
pub const TURNS: u64 = 1_099_511_627_776;

/// The loop of one worker, whose seat and front have no misses yet. In each turn, of which the gate is told, it takes a prefix from its
/// own deque or steals one from the others, settles it by what its front of the store shows or else by demotion, and puts the children
/// of one that it opens. A turn in which no deque gives anything is an idle round. It ends after 4,096 idle rounds in a row, or after
/// 2^40 turns. Whatever it answers, seat and front are as the calls that were made left them; where there is no memory, what it had in
/// hand is gone.
pub fn work<G: Gate>(
    alloc: Global,
    p: &Problem,
    seat: &mut Seat,
    store: &Store,
    front: &mut Front,
    gate: &G,
) -> Result<Work, NoMemory>
    requires store { front.old.store ≡ store.now }
    requires seat { All (λ misses. misses ≡ 0) seat.old.misses }
    requires front { front.old.misses ≡ 0 }
    ensures seat { KeepsSeat seat.old seat.new }
    ensures front { KeepsFront (length store.now) front.old front.new }
    ensures worked { IfOk result (IsWorked p.now (length store.now) seat.old seat.new front.new) }
{
    let number = seat.number();
    let _deques = seat.deques();
    let mut work = Work {
        deeds: Deeds::new(alloc),
        outbox: List::new(alloc),
        strange: List::new(alloc),
    };
    let mut index = Index::new(alloc, store.places())?;
    let mut path = Path::start(alloc, p)?;
    let mut idle = 0;
    let mut taken = 0;
    for turn in 0..TURNS {
        if idle >= IDLE_ROUNDS {
            return Ok(work);
        }
        gate.turn(number, turn, taken);
        match get(seat) {
            Some(prefix) => {
                settle(
                    alloc, p, seat, store, front, &mut index, &mut path, &mut work, prefix,
                )?;
                idle = 0;
                taken += 1;
            }
            None => idle += 1,
        }
    }
    Ok(work)
}

/// Settles a prefix that was got.
fn settle(
    alloc: Global,
    p: &Problem,
    seat: &mut Seat,
    store: &Store,
    front: &mut Front,
    index: &mut Index,
    path: &mut Path,
    work: &mut Work,
    prefix: Prefix,
) -> Result<(), NoMemory>
    requires store { front.old.store ≡ store.now }
    requires index { IsIndex p.now index.old.slots.items index.old.indexed front.old.values }
    requires marked { AreMarked (certificates_of front.old.values) index.old.slots.items index.old.marks.items }
    requires places { HasPlaces seat.old }
    requires path { IsPathOf p.now path.old }
    ensures path { OnOk result (IsPathOf p.now path.new) }
    ensures index { OnOk result (IsIndex p.now index.new.slots.items index.new.indexed front.new.values) }
    ensures marked { OnOk result (AreMarked (certificates_of front.new.values) index.new.slots.items index.new.marks.items) }
    ensures seat { KeepsSeat seat.old seat.new }
    ensures front { KeepsFront (length store.now) front.old front.new }
    ensures settled { OnOk result (HasSettled p.now (length store.now) prefix seat.old seat.new front.old front.new work.old work.new) }
{
    if !is_prefix(p, prefix.as_slice()) {
        work.strange.push(prefix)?;
        return Ok(());
    }
    let fate = fate_of(alloc, p, store, front, index, path, &prefix)?;
    open(p, seat, &mut work.outbox, &prefix, &fate)?;
    work.deeds.push(Deed { prefix, fate })?;
    Ok(())
}

/// The fate of a prefix, by what the store shows or else by demotion.
fn fate_of(
    alloc: Global,
    p: &Problem,
    store: &Store,
    front: &mut Front,
    index: &mut Index,
    path: &mut Path,
    prefix: &Prefix,
) -> Result<Fate, NoMemory>
    requires store { front.old.store ≡ store.now }
    requires index { IsIndex p.now index.old.slots.items index.old.indexed front.old.values }
    requires marked { AreMarked (certificates_of front.old.values) index.old.slots.items index.old.marks.items }
    requires prefix { IsPrefix p.now prefix.now }
    requires path { IsPathOf p.now path.old }
    ensures path { OnOk result (IsPathOf p.now path.new) }
    ensures index { OnOk result (IsIndex p.now index.new.slots.items index.new.indexed front.new.values) }
    ensures marked { OnOk result (AreMarked (certificates_of front.new.values) index.new.slots.items index.new.marks.items) }
    ensures front { KeepsFront (length store.now) front.old front.new }
    ensures fated { IfOk result (IsFated p.now (length store.now) prefix.now front.old front.new) }
{
    look_all(store, front);
    let finding = find(alloc, p, store, front, index, path, prefix)?;
    Ok(fate_for(p, prefix, finding))
}
