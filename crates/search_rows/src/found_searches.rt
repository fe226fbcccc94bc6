//! The search of workers in threads.

ghost use Rattle.std.specs.Prelude.{◌≤◌};

use crate::problems::{OTHER_CERTIFICATE, TWO_CODAS, problem};
use crate::workers::write_deed;
use ot_base::{ClassId, NoGate};
use std::alloc::Global;
use std::process::Abort;
use std::test::Fail;
use std::thread::Threads;
use typology_workers::{Found, search};
use violation_profiles::Problem;

/// Whether three languages, six certificates and six cuts are found, by deeds of each worker and of the gatherer.
fn tells(rt: &impl Abort, workers: usize, found: &Found) {
    let typology = &found.typology;
    assert_eq!(rt; typology.languages.len(), 3);
    assert_eq!(rt; typology.certificates.len(), 6);
    assert_eq!(rt; typology.cuts.len(), 6);
    assert_eq!(rt; found.deeds.len(), workers.saturating_add(1));
    assert_eq!(rt; found.fronts.len(), workers);
}

/// The same of a search with so many workers and places.
fn finds<R: Threads + Sync + Abort>(
    rt: &R,
    alloc: Global,
    p: &Problem,
    workers: usize,
    places: usize,
) -> Result<(), Fail>
    requires workers { (1 ≤ workers) × (workers ≤ 64) }
    requires places { places ≤ 4096 }
{
    let found = search(rt, alloc, p, workers, places, &NoGate)?;
    tells(rt, workers, &found);
    Ok(())
}

/// The deeds of a prefix among all deeds of a search with one worker and so many places.
fn deeds_of<R: Threads + Sync>(
    threads: &R,
    alloc: Global,
    p: &Problem,
    places: usize,
    prefix: &[ClassId],
) -> Result<String, Fail>
    requires { places ≤ 4096 }
{
    let found = search(threads, alloc, p, 1, places, &NoGate)?;
    shown(alloc, &found, prefix)
}

fn shown(alloc: Global, found: &Found, prefix: &[ClassId]) -> Result<String, Fail> {
    let mut text = String::new(alloc);
    for deeds in found.deeds.as_slice() {
        for deed in deeds.as_slice() {
            if deed.prefix.as_slice() == prefix {
                write_deed(&mut text, deed)?;
            }
        }
    }
    Ok(text)
}

#[test]
fn all_workers_and_places_find_the_same(rt: HostRuntime) -> Result<(), Fail> {
    let alloc = rt.alloc();
    let p = problem(alloc, &TWO_CODAS)?;
    finds(&rt, alloc, &p, 1, 0)?;
    finds(&rt, alloc, &p, 1, 1024)?;
    finds(&rt, alloc, &p, 2, 1)?;
    finds(&rt, alloc, &p, 8, 0)?;
    finds(&rt, alloc, &p, 64, 1)
}

#[test]
fn a_worker_learns_for_a_later_prefix(rt: HostRuntime) -> Result<(), Fail> {
    let alloc = rt.alloc();
    let p = problem(alloc, &OTHER_CERTIFICATE)?;
    let last = [ClassId(2), ClassId(2)];
    let learnt = deeds_of(&rt, alloc, &p, 16, &last)?;
    assert_eq!(rt; learnt.as_str(), "3 3 cut 2:3>2 \n");
    let own = deeds_of(&rt, alloc, &p, 0, &last)?;
    assert_eq!(rt; own.as_str(), "3 3 cut 1:3>2 2:3>1 \n");
    Ok(())
}
