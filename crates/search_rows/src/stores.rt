//! The store of contradictions.

ghost use Rattle.std.specs.Prelude.{◌≡◌, IfOk};
ghost use Rattle.search_rows.specs.Fronts.{AreOf};

use erc_vectors::{List, NoMemory};
use ot_base::{ClassId, InId};
use refutation::{Contradiction, Term};
use refutation_store::{Front, Kept, Store, laws};
use std::alloc::Global;
use std::thread;
use std::thread::Threads;

/// One of the contradictions of a test, by its number.
fn contradiction(alloc: Global, number: u32) -> Result<Contradiction, NoMemory> {
    let terms = [Term::Loser {
        input: InId(number),
        winner: ClassId(0),
        loser: ClassId(1),
    }];
    Ok(Contradiction {
        terms: List::of(alloc, &terms)?,
    })
}

#[test]
fn a_full_store_shows_what_was_kept_first(rt: HostRuntime) -> Result<(), NoMemory> {
    let alloc = rt.alloc();
    let store = Store::new(alloc, 1)?;
    let (c, d) = (contradiction(alloc, 3)?, contradiction(alloc, 4)?);

    let mut first = store.front()?;
    assert_eq!(rt; store.keep(&mut first, &c)?, Kept::At(0));

    let mut second = store.front()?;
    assert_eq!(rt; store.keep(&mut second, &d)?, Kept::Full);
    assert_eq!(rt; second.len(), 1);
    assert!(rt; store.seen(&second, 0).terms.as_slice() == c.terms.as_slice());

    let mut third = store.front()?;
    assert_eq!(rt; store.keep(&mut third, &c)?, Kept::At(0));
    assert!(rt; store.look(&mut first).is_none());
    assert_eq!(rt; first.misses(), 0);

    let mut last = store.front()?;
    let seen = store.look(&mut last);
    assert!(rt; seen.is_some_and(|value| value.terms.as_slice() == c.terms.as_slice()));
    Ok(())
}

const THREADS: usize = 8;

const KEPT: usize = 125;

const DIFFERENT: usize = 100;

const PLACES: usize = 64;

/// Keeps 125 contradictions, of which the last 25 are those of the beginning again.
fn keep_many(store: &Store, alloc: Global, thread: usize) -> Result<Front, NoMemory>
    ensures { IfOk result (λ front. front.store ≡ store.now) }
{
    let mut front = store.front()?;
    for k in 0..KEPT {
        let number = (thread % THREADS + k) % DIFFERENT;
        let c = contradiction(alloc, number as u32)?;
        let _kept = store.keep(&mut front, &c)?;
    }
    Ok(front)
}

/// What each of the threads learned.
fn all_fronts<R: Threads + Sync>(
    rt: &R,
    alloc: Global,
    store: &Store,
) -> Result<Vec<Result<Front, NoMemory>>, NoMemory>
    ensures { IfOk result (λ fronts. AreOf store.now fronts.items) }
{
    match thread::map_indices(rt, alloc, THREADS, &|k| keep_many(store, alloc, k)) {
        Ok(fronts) => Ok(fronts),
        Err(_) => Err(NoMemory),
    }
}

/// How many of the fronts hold all places. All agree with another one.
fn full(store: &Store, other: &Front, fronts: &[Result<Front, NoMemory>]) -> usize
    requires other { other.now.store ≡ store.now }
    requires fronts { AreOf store.now fronts.now }
{
    let mut full = 0usize;
    for k in 0..fronts.len() {
        if let Ok(front) = &fronts[k] {
            laws::agree(store, other, front);
            if front.len() == PLACES {
                full = full.saturating_add(1);
            }
        }
    }
    full
}

#[test]
fn the_fronts_of_eight_threads_agree(rt: HostRuntime) -> Result<(), NoMemory> {
    let alloc = rt.alloc();
    let store = Store::new(alloc, PLACES)?;
    let fronts = all_fronts(&rt, alloc, &store)?;
    let other = keep_many(&store, alloc, 0)?;
    assert_eq!(rt; full(&store, &other, &fronts), THREADS);
    assert_eq!(rt; other.len(), PLACES);
    Ok(())
}
