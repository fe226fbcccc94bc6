//! The packets of the workers, and how prefixes are dealt to them.

ghost use Rattle.std.specs.Prelude.{◌≡◌, ◌<◌, ◌≤◌, [], length, vec_len, IfOk, OnOk, All};
ghost use Rattle.prefix_deques.specs.Booked.{IsMake};
ghost use Rattle.prefix_deques.specs.Made.{AreNew};
ghost use Rattle.refutation_store.specs.Fronts.{Begins};
ghost use Rattle.typology_workers.specs.Packets.{AreDealt, IsPut, seats_of};

use crate::halves::Packet;
use erc_vectors::NoMemory;
use prefix_deques::{Put, make};
use refutation::Prefix;
use refutation_store::Store;
use std::alloc::Global;
use std::collections::VecDeque;

/// A packet for each of 1 to 64 workers, in their order: a seat of one new make, and a front of the store that holds nothing yet.
pub(crate) fn packets(alloc: Global, workers: usize, store: &Store) -> Result<Vec<Packet>, NoMemory>
    requires { (1 ≤ workers) × (workers ≤ 64) }
    ensures seats { IfOk result (λ packets. AreNew workers (seats_of packets.items)) }
    ensures make { IfOk result (λ packets. IsMake (seats_of packets.items)) }
    ensures fronts { IfOk result (λ packets. All (λ packet. Begins store.now packet.front) packets.items) }
{
    let mut seats = make(alloc, workers)?;
    let mut packets = Vec::new(alloc);
    while let Some(seat) = seats.pop() {
        let front = store.front()?;
        packets.insert(0, Packet { seat, front })?;
    }
    Ok(packets)
}

/// Deals prefixes round the packets, the first to the first: each is put into the deque of its seat. Gives those that were handed
/// back.
pub(crate) fn deal(
    alloc: Global,
    packets: &mut Vec<Packet>,
    mut waiting: VecDeque<Prefix>,
) -> Result<VecDeque<Prefix>, NoMemory>
    requires { 0 < vec_len packets.old }
    ensures { IfOk result (λ back. AreDealt packets.old.items waiting.items packets.new.items back.items []) }
{
    let mut back = VecDeque::new(alloc);
    let mut k = 0;
    while let Some(prefix) = waiting.pop_front() {
        put(&mut packets[k], prefix, &mut back)?;
        k = (k + 1) % packets.len();
    }
    Ok(back)
}

/// Puts a prefix into the deque of a packet's seat. Where it is handed back, it is added to the others that were.
fn put(packet: &mut Packet, prefix: Prefix, back: &mut VecDeque<Prefix>) -> Result<(), NoMemory>
    ensures { OnOk result (IsPut packet.old prefix packet.new back.old.items back.new.items) }
{
    match packet.seat.put(prefix) {
        Put::Done => Ok(()),
        Put::Back(prefix) => {
            back.push_back(prefix)?;
            Ok(())
        }
    }
}
