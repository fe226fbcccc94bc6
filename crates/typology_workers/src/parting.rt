//! What the workers leave, taken apart.

ghost use Rattle.std.specs.Prelude.{◌≡◌, ◌++◌, IfOk, OnOk};
ghost use Rattle.search_deeds.specs.Deeds.{times};
ghost use Rattle.typology_workers.specs.Packets.{ArePartsOf, AddsParts};

use crate::halves::Ended;
use crate::outcome::Work;
use erc_vectors::{List, NoMemory};
use prefix_deques::Seat;
use refutation::Prefix;
use refutation_store::Front;
use search_deeds::Deeds;
use std::alloc::Global;
use std::collections::VecDeque;

/// The seats, the fronts and the deeds of workers that have ended, each in the order of the workers, and the prefixes that nobody
/// has settled yet.
#[derive(Drop)]
pub(crate) struct Parts {
    pub(crate) seats: List<Seat>,
    pub(crate) fronts: List<Front>,
    pub(crate) deeds: List<Deeds>,
    pub(crate) waiting: VecDeque<Prefix>,
}

/// Takes apart what workers leave. What was handed back to them waits behind these prefixes. There is no memory where one of them
/// found none.
pub(crate) fn part(
    alloc: Global,
    ended: Vec<Ended>,
    waiting: VecDeque<Prefix>,
) -> Result<Parts, NoMemory>
    ensures { IfOk result (ArePartsOf waiting.items ended.items) }
{
    let mut parts = Parts {
        seats: List::new(alloc),
        fronts: List::new(alloc),
        deeds: List::new(alloc),
        waiting,
    };
    for one in ended {
        add(&mut parts, one)?;
    }
    Ok(parts)
}

/// Adds the parts of one worker behind those of the others.
fn add(parts: &mut Parts, ended: Ended) -> Result<(), NoMemory>
    ensures { OnOk result (AddsParts parts.old ended parts.new) }
{
    let Ended { packet, work } = ended;
    let Work { deeds, outbox, .. } = work?;
    prove!(packet.seat.deques() <= 64);
    parts.seats.push(packet.seat)?;
    parts.fronts.push(packet.front)?;
    parts.deeds.push(deeds)?;
    add_prefixes(&mut parts.waiting, outbox)
}

/// Lets these prefixes wait with the others.
pub(crate) fn add_prefixes(
    waiting: &mut VecDeque<Prefix>,
    mut prefixes: List<Prefix>,
) -> Result<(), NoMemory>
    ensures { OnOk result ((prefix : _) → times prefix waiting.new.items ≡ times prefix (waiting.old.items ++ prefixes)) }
{
    while let Some(prefix) = prefixes.pop() {
        waiting.push_back(prefix)?;
    }
    Ok(())
}
