//! All workers, each in a thread.

ghost use Rattle.std.specs.Prelude.{◌≡◌, ◌<◌, ◌≤◌, ◌++◌, length, vec_len, IfOk, All};
ghost use Rattle.std.specs.Thread.{IsSync};
ghost use Rattle.typology_workers.specs.Packets.{AllRan, HasRun, IsReady};

use crate::outcome::Work;
use crate::worker::work;
use erc_vectors::NoMemory;
use ot_base::Gate;
use prefix_deques::Seat;
use refutation_store::{Front, Store};
use std::alloc::Global;
use std::thread::{Threads, join};
use violation_profiles::Problem;

/// What one worker goes to work with.
#[derive(Drop)]
pub(crate) struct Packet {
    pub(crate) seat: Seat,
    pub(crate) front: Front,
}

/// The packet of a worker that has ended, and what its call gave.
#[derive(Drop)]
pub(crate) struct Ended {
    pub(crate) packet: Packet,
    pub(crate) work: Result<Work, NoMemory>,
}

/// Runs the worker of each packet, by `join` on halves of the list, and gives them back in the same order.
pub(crate) fn run_halves<R: Threads + Sync, G: Gate>(
    threads: &R,
    alloc: Global,
    p: &Problem,
    store: &Store,
    gate: &G,
    packets: Vec<Packet>,
) -> Result<Vec<Ended>, NoMemory>
    requires ready { All (IsReady store.now) packets.items }
    ensures { IfOk result (λ ended. AllRan p.now store.now packets.items ended.items) }
{
    if packets.len() < 2 {
        return run_one(alloc, p, store, gate, packets);
    }
    let (front, back) = halves(store, packets)?;
    let (first, second) = join(
        threads,
        move || -> Result<Vec<Ended>, NoMemory>
            requires { IsSync R.row × All (IsReady store.now) front.items }
            ensures { IfOk result (λ ended. AllRan p.entry.now store.entry.now front.items ended.items) }
        { run_halves(threads, alloc, p, store, gate, front) },
        move || -> Result<Vec<Ended>, NoMemory>
            requires { IsSync R.row × All (IsReady store.now) back.items }
            ensures { IfOk result (λ ended. AllRan p.entry.now store.entry.now back.items ended.items) }
        { run_halves(threads, alloc, p, store, gate, back) },
    );
    both(first?, second?)
}

/// The first half of at least two packets, and the second.
fn halves(store: &Store, mut packets: Vec<Packet>) -> Result<(Vec<Packet>, Vec<Packet>), NoMemory>
    requires two { 2 ≤ vec_len packets }
    requires ready { All (IsReady store.now) packets.items }
    ensures { IfOk result (λ r. (packets.items ≡ r.0.items ++ r.1.items) × (vec_len r.0 < vec_len packets) × (vec_len r.1 < vec_len packets) × All (IsReady store.now) r.0.items × All (IsReady store.now) r.1.items) }
{
    match packets.split_off(packets.len() / 2) {
        Ok(rest) => Ok((packets, rest)),
        Err(_) => Err(NoMemory),
    }
}

fn both(mut first: Vec<Ended>, mut second: Vec<Ended>) -> Result<Vec<Ended>, NoMemory>
    ensures { IfOk result (λ ended. ended.items ≡ first.items ++ second.items) }
{
    match first.append(&mut second) {
        Ok(()) => Ok(first),
        Err(_) => Err(NoMemory),
    }
}

/// Runs the worker of the packet, if there is one.
fn run_one<G: Gate>(
    alloc: Global,
    p: &Problem,
    store: &Store,
    gate: &G,
    mut packets: Vec<Packet>,
) -> Result<Vec<Ended>, NoMemory>
    requires { All (IsReady store.now) packets.items × (length packets.items < 2) }
    ensures { IfOk result (λ ended. AllRan p.now store.now packets.items ended.items) }
{
    let mut all = Vec::new(alloc);
    let Some(packet) = packets.pop() else {
        return Ok(all);
    };
    all.push(run(alloc, p, store, gate, packet))?;
    Ok(all)
}

/// Runs the worker of a packet.
fn run<G: Gate>(alloc: Global, p: &Problem, store: &Store, gate: &G, packet: Packet) -> Ended
    requires { IsReady store.now packet }
    ensures { HasRun p.now store.now packet result }
{
    let Packet {
        mut seat,
        mut front,
    } = packet;
    let work = work(alloc, p, &mut seat, store, &mut front, gate);
    Ended {
        packet: Packet { seat, front },
        work,
    }
}
