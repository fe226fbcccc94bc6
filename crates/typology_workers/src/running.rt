//! The workers of a search, from the deal to their end.

ghost use Rattle.std.specs.Prelude.{◌≤◌, IfOk};
ghost use Rattle.typology_workers.specs.Packets.{HasRunAll};

use crate::dealing::{deal, packets};
use crate::halves::run_halves;
use crate::parting::{Parts, part};
use erc_vectors::NoMemory;
use ot_base::Gate;
use refutation::Prefix;
use refutation_store::Store;
use std::alloc::Global;
use std::collections::VecDeque;
use std::thread::Threads;
use violation_profiles::Problem;

/// Deals the prefixes that wait to 1 to 64 workers, runs these to their end, and takes apart what they leave.
pub(crate) fn run_workers<R: Threads + Sync, G: Gate>(
    threads: &R,
    alloc: Global,
    p: &Problem,
    store: &Store,
    gate: &G,
    workers: usize,
    waiting: VecDeque<Prefix>,
) -> Result<Parts, NoMemory>
    requires { (1 ≤ workers) × (workers ≤ 64) }
    ensures { IfOk result (HasRunAll p.now workers store.now waiting.items) }
{
    let mut packets = packets(alloc, workers, store)?;
    let back = deal(alloc, &mut packets, waiting)?;
    let ended = run_halves(threads, alloc, p, store, gate, packets)?;
    part(alloc, ended, back)
}
