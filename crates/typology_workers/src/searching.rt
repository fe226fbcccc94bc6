//! The search of a typology by workers in threads.

ghost use Rattle.std.specs.Prelude.{◌≤◌, IfOk};
ghost use Rattle.ot_base.specs.declared.limits.TheConstants.{PLACE_LIMIT};
ghost use Rattle.search_machine.specs.declared.machine.TheConstants.{WORKER_LIMIT};
ghost use Rattle.typology_workers.specs.FoundSearch.{IsFoundSearch};

use crate::found::Found;
use crate::gatherer::Gatherer;
use crate::opening::opening;
use crate::parting::{Parts, add_prefixes};
use crate::rest::settle_rest;
use crate::running::run_workers;
use erc_vectors::NoMemory;
use ot_base::Gate;
use prefix_deques::{Settled, settle_up};
use refutation_store::Store;
use search_deeds::gather;
use std::alloc::Global;
use std::thread::Threads;
use violation_profiles::Problem;

/// The typology of a problem, found by 1 to 64 workers in threads that share at most 4,096 places for contradictions: its languages, each
/// with its least hierarchy (Tesar and Smolensky 2000), and its cuts, each with a certificate (Prince 2002), as `gather` gives them of
/// the deeds. The gate is told of each turn of each worker.
///
/// The calling thread is the gatherer. It opens prefixes breadth first, until four times as many wait as there are workers or none
/// does, and deals them round the workers' deques. Each worker is one call of `work`, in a thread where one is to be had. What they
/// leave the gatherer settles itself. Where a worker finds no memory, the search ends so after all have ended.
pub fn search<R: Threads + Sync, G: Gate>(
    threads: &R,
    alloc: Global,
    p: &Problem,
    workers: usize,
    places: usize,
    gate: &G,
) -> Result<Found, NoMemory>
    requires some { 1 ≤ workers }
    requires few { workers ≤ WORKER_LIMIT }
    requires places { places ≤ PLACE_LIMIT }
    ensures { IfOk result (IsFoundSearch p.now workers places) }
{
    let store = Store::new(alloc, places)?;
    let opened = opening(alloc, p, 4 * workers)?;
    let dealt = opened.deeds.as_slice().len();
    let parts = run_workers(threads, alloc, p, &store, gate, workers, opened.waiting)?;
    let Parts {
        seats,
        fronts,
        mut deeds,
        mut waiting,
    } = parts;
    let settled = settle_up(alloc, seats)?;
    let Settled { left, books } = settled;
    add_prefixes(&mut waiting, left)?;
    let gatherer = Gatherer {
        deeds: opened.deeds,
        waiting,
    };
    let last = settle_rest(alloc, p, gatherer)?;
    deeds.push(last)?;
    let typology = gather(alloc, p, deeds.as_slice())?;
    Ok(Found {
        deeds,
        dealt,
        typology,
        books,
        store,
        fronts,
    })
}
