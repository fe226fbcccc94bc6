//! The deques of prefixes.

ghost use Rattle.std.specs.Prelude.{◌≡◌, ◌≢◌, ◌<◌, ℕ, length, map, IfOk, slice_index_or};
ghost use Rattle.prefix_deques.specs.Booked.{IsMake};
ghost use Rattle.search_rows.specs.Stays.{ArePair, IsSame};

use erc_vectors::{List, NoMemory};
use ot_base::ClassId;
use prefix_deques::{Put, Seat, Settled, Stolen, make, settle_up};
use refutation::Prefix;
use std::alloc::Global;
use std::thread;
use std::thread::Threads;

/// What is done to two seats: the first puts a prefix of one class, takes, or the second steals from it, and what that gives.
#[derive(Clone, Copy)]
enum Step {
    Put(u16),
    Take(Option<u16>),
    Steal(Option<u16>),
}

fn shows(prefix: &Option<Prefix>, class: Option<u16>) -> bool {
    match (prefix, class) {
        (Some(prefix), Some(class)) => prefix.as_slice() == [ClassId(class)].as_slice(),
        (None, None) => true,
        _ => false,
    }
}

fn puts(seat: &mut Seat, p: Prefix) -> bool
    ensures { IsSame seat.old seat.new }
{
    match seat.put(p) {
        Put::Done => true,
        Put::Back(_) => false,
    }
}

fn takes(seat: &mut Seat) -> Option<Prefix>
    ensures { IsSame seat.old seat.new }
{
    seat.take()
}

/// What one try to steal gives.
fn tries(seat: &mut Seat, victim: usize) -> Option<Prefix>
    requires { (victim < length seat.old.make) × (victim ≢ seat.old.number) }
    ensures { IsSame seat.old seat.new }
{
    match seat.steal(victim) {
        Stolen::Got(p) => Some(p),
        Stolen::Empty | Stolen::Missed => None,
    }
}

/// What at most 1,000 tries give.
fn steals(seat: &mut Seat, victim: usize) -> Option<Prefix>
    requires { (victim < length seat.old.make) × (victim ≢ seat.old.number) }
    ensures { IsSame seat.old seat.new }
{
    for _ in 0..1000 {
        let stolen = tries(seat, victim);
        if stolen.is_some() {
            return stolen;
        }
    }
    None
}

fn gives(alloc: Global, first: &mut Seat, second: &mut Seat, step: &Step) -> Result<bool, NoMemory>
    requires { ArePair first.old second.old }
    ensures { ArePair first.new second.new }
{
    match *step {
        Step::Put(class) => {
            let p = Prefix::of(alloc, &[ClassId(class)])?;
            Ok(puts(first, p))
        }
        Step::Take(class) => Ok(shows(&takes(first), class)),
        Step::Steal(class) => Ok(shows(&steals(second, 0), class)),
    }
}

fn pair(alloc: Global) -> Result<(Seat, Seat), NoMemory>
    ensures { IfOk result (λ r. ArePair r.0 r.1) }
{
    let mut seats = make(alloc, 2)?;
    let Some(second) = seats.pop() else {
        return Err(NoMemory);
    };
    let Some(first) = seats.pop() else {
        return Err(NoMemory);
    };
    Ok((first, second))
}

/// The end of two seats, the second of which comes first.
fn ends(alloc: Global, first: Seat, second: Seat) -> Result<Settled, NoMemory>
    requires { ArePair first second }
{
    let mut seats = List::new(alloc);
    seats.push(second)?;
    seats.push(first)?;
    settle_up(alloc, seats)
}

/// Whether the steps give what they say, and leave prefixes of these classes.
fn goes(alloc: Global, steps: &[Step], left: &[u16]) -> Result<bool, NoMemory> {
    let (mut first, mut second) = pair(alloc)?;
    for step in steps {
        if !gives(alloc, &mut first, &mut second, step)? {
            return Ok(false);
        }
    }
    let settled = ends(alloc, first, second)?;
    let mut found = settled.left.len() == left.len();
    for (prefix, class) in settled.left.as_slice().iter().zip(left) {
        found = found && prefix.as_slice() == [ClassId(*class)].as_slice();
    }
    Ok(found)
}

#[test]
fn what_was_put_is_taken_stolen_or_left(rt: HostRuntime) -> Result<(), NoMemory> {
    let alloc = rt.alloc();
    let taken = [Step::Put(3), Step::Put(5), Step::Take(Some(3))];
    let stolen = [Step::Put(3), Step::Put(5), Step::Steal(Some(3))];
    let both = [
        Step::Put(3),
        Step::Put(5),
        Step::Steal(Some(3)),
        Step::Take(Some(5)),
        Step::Take(None),
    ];
    assert!(rt; goes(alloc, &taken, &[5])?, "taken, then left");
    assert!(rt; goes(alloc, &stolen, &[5])?, "stolen, then left");
    assert!(rt; goes(alloc, &both, &[])?, "stolen, then taken");
    Ok(())
}

const SEATS: usize = 8;

const PUTS: usize = 1250;

/// A seat, and the numbers of the prefixes that it got or was handed back.
#[derive(Drop)]
struct Hand {
    seat: Seat,
    got: List<usize>,
}

/// The number of a prefix of the seats' test.
fn number_of(prefix: &Prefix) -> usize {
    match prefix.as_slice() {
        [seat, put] => usize::from(seat.0)
            .saturating_mul(PUTS)
            .saturating_add(usize::from(put.0)),
        _ => SEATS * PUTS,
    }
}

/// Puts one prefix, and steals one from the next seat.
fn turn(alloc: Global, hand: &mut Hand, put: usize) -> Result<(), NoMemory>
    ensures { IsSame hand.old.seat hand.new.seat }
{
    let number = hand.seat.number();
    let next = number.wrapping_add(1) % hand.seat.deques();
    let p = Prefix::of(
        alloc,
        &[ClassId(number as u16), ClassId((put % PUTS) as u16)],
    )?;
    if let Put::Back(p) = hand.seat.put(p) {
        hand.got.push(number_of(&p))?;
    }
    if next != number {
        if let Some(p) = tries(&mut hand.seat, next) {
            hand.got.push(number_of(&p))?;
        }
    }
    Ok(())
}

/// All turns of one seat.
fn turns(alloc: Global, hand: &mut Hand)
    ensures { IsSame hand.old.seat hand.new.seat }
{
    for put in 0..PUTS {
        if turn(alloc, hand, put).is_err() {
            return;
        }
    }
}

fn hands(alloc: Global) -> Result<Vec<Hand>, NoMemory>
    ensures { IfOk result (λ hands. IsMake (map (λ h. h.seat) hands.items)) }
{
    let mut seats = make(alloc, SEATS)?;
    let mut hands = Vec::new(alloc);
    while let Some(seat) = seats.pop() {
        let got = List::new(alloc);
        let Ok(()) = hands.insert(0, Hand { seat, got }) else {
            return Err(NoMemory);
        };
    }
    Ok(hands)
}

fn all_turns<R: Threads + Sync>(rt: &R, alloc: Global, hands: &mut [Hand])
    ensures many { length hands.new ≡ length hands.old }
    ensures same { (k : ℕ) (d : _) → k < length hands.old → IsSame (slice_index_or hands.old k d).seat (slice_index_or hands.new k d).seat }
{
    thread::for_each_mut(rt, hands, SEATS, &|_, hand| turns(alloc, hand));
}

/// The end of all seats, and how often each prefix was got or is left.
fn ended(alloc: Global, mut hands: Vec<Hand>) -> Result<Vec<usize>, NoMemory>
    requires { IsMake (map (λ h. h.seat) hands.items) }
{
    let Ok(mut times) = vec![in alloc; 0usize; SEATS * PUTS + 1] else {
        return Err(NoMemory);
    };
    let mut seats = List::new(alloc);
    for _ in 0..hands.len() {
        let hand = hands.remove(0);
        for got in hand.got.as_slice() {
            count(&mut times, *got);
        }
        seats.push(hand.seat)?;
    }
    for prefix in settle_up(alloc, seats)?.left.as_slice() {
        count(&mut times, number_of(prefix));
    }
    Ok(times)
}

fn count(times: &mut Vec<usize>, at: usize) {
    if at < times.len() {
        times[at] = times[at].saturating_add(1);
    }
}

#[test]
fn eight_threads_lose_none_of_10_000_prefixes(rt: HostRuntime) -> Result<(), NoMemory> {
    let alloc = rt.alloc();
    let mut hands = hands(alloc)?;
    all_turns(&rt, alloc, &mut hands);
    let times = ended(alloc, hands)?;
    for (number, often) in times.iter().enumerate() {
        assert_eq!(rt;
            *often,
            usize::from(number < SEATS * PUTS),
            "prefix {number}"
        );
    }
    Ok(())
}
