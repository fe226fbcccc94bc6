//! One worker of the search in threads.

ghost use Rattle.std.specs.Prelude.{◌≡◌, ◌≤◌, All, IfOk};
ghost use Rattle.prefix_deques.specs.Lanes.{SeatView};

use crate::problems::{CODA, OTHER_CERTIFICATE, TWO_CODAS, problem, with_given};
use crate::shown::{write_prefix, write_terms};
use erc_vectors::{ConId, List, NoMemory};
use ot_base::{ClassId, Gate, NoGate};
use prefix_deques::{Put, Seat, make};
use refutation::Prefix;
use refutation_store::Store;
use search_deeds::{Deed, Fate};
use std::alloc::Global;
use std::process::Abort;
use std::sync::atomic::AtomicU64;
use std::sync::atomic::Ordering::SeqCst;
use std::test::Fail;
use typology_workers::{IDLE_ROUNDS, Work, work};
use violation_profiles::Problem;

/// The prefix of a deed, and `opened`, `language` with the strata, or `cut` with the terms.
pub(crate) fn write_deed(text: &mut String, deed: &Deed) -> Result<(), Fail> {
    write_prefix(text, &deed.prefix)?;
    match &deed.fate {
        Fate::Opened => text.push_str("opened")?,
        Fate::Language(strata) => {
            text.push_str("language ")?;
            for c in 0..strata.width() {
                let level = strata.level(ConId(c as u16));
                write!(text, "{level}")?;
            }
        }
        Fate::Cut(found) => {
            text.push_str("cut ")?;
            write_terms(text, found)?;
        }
    }
    text.push('\n')?;
    Ok(())
}

/// The deeds in order, and then what is no prefix of the problem.
fn shown(alloc: Global, work: &Work) -> Result<String, Fail> {
    let mut text = String::new(alloc);
    for deed in work.deeds.as_slice() {
        write_deed(&mut text, deed)?;
    }
    for prefix in work.strange.as_slice() {
        write_prefix(&mut text, prefix)?;
        text.push_str("strange\n")?;
    }
    Ok(text)
}

/// So many new seats.
fn seats(alloc: Global, n: usize) -> Result<List<Seat>, NoMemory>
    requires { (1 ≤ n) × (n ≤ 64) }
    ensures { IfOk result (All (λ (seat : SeatView). All (λ misses. misses ≡ 0) seat.misses)) }
{
    make(alloc, n)
}

fn put_all(alloc: Global, seat: &mut Seat, prefixes: &[&[u16]]) -> Result<(), NoMemory>
    ensures { seat.new.misses ≡ seat.old.misses }
{
    for prefix in prefixes {
        let mut classes = List::new(alloc);
        for class in prefix.iter() {
            classes.push(ClassId(*class))?;
        }
        put(seat, Prefix::of(alloc, classes.as_slice())?);
    }
    Ok(())
}

fn put(seat: &mut Seat, prefix: Prefix)
    ensures { seat.new.misses ≡ seat.old.misses }
{
    match seat.put(prefix) {
        Put::Done | Put::Back(_) => {}
    }
}

/// What the worker of the last of some seats does, after these prefixes were put into the deque of the seat before it, or into its own
/// where there is one seat.
fn works<G: Gate>(
    alloc: Global,
    p: &Problem,
    n: usize,
    places: usize,
    prefixes: &[&[u16]],
    gate: &G,
) -> Result<Work, NoMemory>
    requires seats { (1 ≤ n) × (n ≤ 64) }
    requires places { places ≤ 4096 }
{
    let mut seats = seats(alloc, n)?;
    let Some(mut seat) = seats.pop() else {
        return Err(NoMemory);
    };
    let mut other = seats.pop();
    match &mut other {
        Some(other) => put_all(alloc, other, prefixes)?,
        None => put_all(alloc, &mut seat, prefixes)?,
    }
    let store = Store::new(alloc, places)?;
    let mut front = store.front()?;
    work(alloc, p, &mut seat, &store, &mut front, gate)
}

/// Whether that gives these deeds.
fn tells(rt: &impl Abort, alloc: Global, name: &str, work: &Work, deeds: &str) -> Result<(), Fail> {
    let text = shown(alloc, work)?;
    assert_eq!(rt; text.as_str(), deeds, "{name}");
    assert_eq!(rt; work.outbox.len(), 0, "{name}");
    Ok(())
}

const EMPTY: &[&[u16]] = &[&[]];

#[test]
fn a_worker_settles_what_it_takes_or_steals(rt: HostRuntime) -> Result<(), Fail> {
    let alloc = rt.alloc();
    let p = problem(alloc, &TWO_CODAS)?;
    let deeds =
        "opened\n1 opened\n2 opened\n3 opened\n1 1 language 211\n1 2 cut 1:1>2 2:2>1 \n1 3 cut 1:1>3 2:3>1 \n2 1 cut 1:2>1 2:1>2 \n2 2 language 121\n2 3 cut 1:2>3 2:3>2 \n3 1 cut 1:3>1 2:1>3 \n3 2 cut 1:3>2 2:2>3 \n3 3 language 112\n";
    tells(
        &rt,
        alloc,
        "alone",
        &works(alloc, &p, 1, 16, EMPTY, &NoGate)?,
        deeds,
    )?;
    tells(
        &rt,
        alloc,
        "a thief",
        &works(alloc, &p, 2, 16, EMPTY, &NoGate)?,
        deeds,
    )?;
    tells(
        &rt,
        alloc,
        "other prefixes",
        &works(alloc, &p, 1, 16, &[&[3], &[0, 0], &[0, 0, 0]], &NoGate)?,
        "1 1 language 211\n4 strange\n1 1 1 strange\n",
    )?;
    let cycle = with_given(&rt, alloc, problem(alloc, &[CODA])?, &[(0, 1), (1, 0)])?;
    tells(
        &rt,
        alloc,
        "a cycle of given pairs",
        &works(alloc, &cycle, 1, 16, EMPTY, &NoGate)?,
        "cut g1 g2 \n",
    )
}

#[test]
fn a_worker_cuts_off_by_what_it_learnt_before(rt: HostRuntime) -> Result<(), Fail> {
    let alloc = rt.alloc();
    let p = problem(alloc, &OTHER_CERTIFICATE)?;
    let prefixes: &[&[u16]] = &[&[1, 2], &[2, 2]];
    tells(
        &rt,
        alloc,
        "16 places",
        &works(alloc, &p, 1, 16, prefixes, &NoGate)?,
        "2 3 cut 2:3>2 \n3 3 cut 2:3>2 \n",
    )?;
    tells(
        &rt,
        alloc,
        "no place",
        &works(alloc, &p, 1, 0, prefixes, &NoGate)?,
        "2 3 cut 2:3>2 \n3 3 cut 1:3>2 2:3>1 \n",
    )
}

/// Counts the turns of which it is told what is so of a lone worker that gets a prefix in each of the first 13 turns and then none.
#[derive(Drop)]
struct Turns {
    right: AtomicU64,
}

impl Gate for Turns {
    fn turn(&self, worker: usize, turn: u64, taken: u64) {
        if worker == 0 && taken == turn.min(13) {
            self.right.fetch_add(1, SeqCst);
        }
    }
}

#[test]
fn a_gate_is_told_of_each_turn(rt: HostRuntime) -> Result<(), Fail> {
    let alloc = rt.alloc();
    let p = problem(alloc, &TWO_CODAS)?;
    let gate = Turns {
        right: AtomicU64::new(0),
    };
    let work = works(alloc, &p, 1, 16, EMPTY, &gate)?;
    assert_eq!(rt; work.deeds.as_slice().len(), 13);
    assert_eq!(rt; gate.right.load(SeqCst), 13 + IDLE_ROUNDS);
    Ok(())
}
