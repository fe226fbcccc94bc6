//! A seat: one deque of its own, and a lane to each deque.

ghost use Rattle.std.specs.Prelude.{◌≡◌, ◌≢◌, ◌+◌, ◌<◌, ◌≤◌, ◌↔◌, [], ◌∷◌, ◌++◌, length, map, replicate, ℕ, IfOk, IfSome, IfNone, IsNone, Some, slice_get, slice_set, slice_index};
ghost use Rattle.prefix_deques.specs.Lanes.{Adds, GetsFrom, HandsBack, HasPlaces, Misses, gets_of, none_idle, one_more};
ghost use Rattle.prefix_deques.specs.Made.{IsRow, IsNew, IsParted};
ghost use Rattle.prefix_deques.specs.Stolen.{MatchStolen, MatchPut};

use crate::lane::{Lane, Stolen};
use crate::own;
use crate::own::Deque;
use crate::owner::Owner;
use erc_vectors::NoMemory;
use ghost_trace::Trace;
use refutation::Prefix;
use std::alloc::Global;
use std::marker::Model;

/// What became of a put: the prefix stands at the back of the own deque, or it comes back.
#[derive(Drop)]
pub enum Put {
    Done,
    Back(Prefix),
}

/// One of the seats of a make, which one thread holds. A contract sees its number, its make, the room of its own deque, its puts,
/// what it got from each deque (the place and the prefix, in the order of getting), what was handed back to it, and for each
/// deque its misses, and those since something was last got or put.
#[derive(Drop)]
pub struct Seat {
    number: usize,
    room: usize,
    own: Deque,
    lanes: Vec<Lane>,
    counts: Counts,
    back: Trace,
}

/// For each deque, how often it gave nothing: in all, and since something was last got or put. Only contracts read the latter.
#[derive(Drop)]
pub struct Counts {
    misses: Vec<u64>,
    idle: Vec<u64>,
}

impl Model for Seat {
    ghost use Rattle.prefix_deques.specs.Lanes.{SeatView};

    ghost Value = { SeatView };

    ghost use Rattle.prefix_deques.specs.Seats.{seat_view, IsSeat};

    ghost view = { seat_view };

    ghost invariant = { IsSeat };
}

impl Seat {
    /// The seat of an owner and a row of lanes that belong together.
    pub(crate) fn new(
        alloc: Global,
        owner: Owner,
        lanes: Vec<Lane>,
        number: usize,
    ) -> Result<Seat, NoMemory>
        requires { IsRow owner number lanes.items }
        ensures { IfOk result (IsNew (map (λ l. l.deque) lanes.items) number) }
    {
        let misses = zeros(alloc, lanes.len())?;
        let idle = zeros(alloc, lanes.len())?;
        let own = owner.into_deque();
        Ok(Seat {
            number,
            room: own::ROOM,
            own,
            lanes,
            counts: Counts { misses, idle },
            back: Trace::new(),
        })
    }

    /// Takes the seat apart.
    pub(crate) fn part(self) -> (Owner, Vec<Lane>)
        ensures { IsParted self result.0 result.1.items }
    {
        let Seat { own, lanes, .. } = self;
        (Owner::of(own), lanes)
    }

    /// The seat's number, from 0 on, which is that of its own deque.
    pub fn number(&self) -> usize
        ensures { result ≡ self.now.number }
    {
        self.number
    }

    /// The number of deques, and of seats, of its make: 1 to 64.
    pub fn deques(&self) -> usize
        ensures many { result ≡ length self.now.make }
        ensures places { HasPlaces self.now }
    {
        self.lanes.len()
    }

    /// How often the deque v gave nothing to a take or a steal. It stays at 2^64 - 1.
    pub fn misses(&self, v: usize) -> u64
        requires { v < length self.now.make }
        ensures { result ≡ slice_index self.now.misses v }
    {
        self.counts.misses[v]
    }

    /// Puts a prefix at the back of the own deque. Back, which hands it back and changes nothing else, comes only where the seat
    /// has put at least as many prefixes as its deque has room for, and then stands for want of memory and for the far limits of
    /// the deque's rings alike.
    pub fn put(&mut self, p: Prefix) -> Put
        ensures { MatchPut result (Adds self.old p self.new) (HandsBack self.old p self.new) }
    {
        match own::put(&mut self.own, p) {
            Ok(()) => {
                rest(&mut self.counts.idle);
                Put::Done
            }
            Err(p) => {
                self.back = self.back.then(&p);
                Put::Back(p)
            }
        }
    }

    /// Takes the front of the own deque. None is the finding that it held nothing at one moment of the call, and raises its
    /// misses by 1. Where there is one seat, None comes exactly where all that was put was taken. It takes no memory.
    pub fn take(&mut self) -> Option<Prefix>
        ensures got { IfSome result (λ x. GetsFrom self.old.number self.old x self.new) }
        ensures none { IfNone result (Misses self.old.number self.old self.new) }
        ensures alone { length self.old.make ≡ 1 → IfNone result (length self.old.puts ≡ length (gets_of self.old self.old.number)) }
        ensures left { length self.old.make ≡ 1 → IfSome result (λ _. length (gets_of self.old self.old.number) < length self.old.puts) }
    {
        match own::take(&mut self.own) {
            Some(p) => {
                rest(&mut self.counts.idle);
                Some(p)
            }
            None => {
                count(&mut self.counts.misses, self.number);
                count(&mut self.counts.idle, self.number);
                None
            }
        }
    }

    /// Takes the front of another seat's deque. Empty is the finding that it held nothing at one moment of the call, and Missed
    /// that somebody else was quicker; both raise its misses by 1. It takes no memory.
    pub fn steal(&mut self, victim: usize) -> Stolen
        requires { (victim < length self.old.make) × (victim ≢ self.old.number) }
        ensures { MatchStolen result (λ x. GetsFrom victim self.old x self.new) (Misses victim self.old self.new) }
    {
        let stolen = self.lanes[victim].steal();
        match &stolen {
            Stolen::Got(_) => rest(&mut self.counts.idle),
            Stolen::Empty | Stolen::Missed => {
                count(&mut self.counts.misses, victim);
                count(&mut self.counts.idle, victim);
            }
        }
        stolen
    }
}

/// One more, up to 2^64 - 1.
fn count(counts: &mut Vec<u64>, at: usize)
    requires { at < length counts.old.items }
    ensures { counts.new.items ≡ slice_set counts.old.items at (one_more (slice_index counts.old.items at)) }
{
    counts[at] = counts[at].saturating_add(1);
}

fn rest(idle: &mut Vec<u64>)
    ensures { idle.new.items ≡ none_idle idle.old.items }
{
    idle.as_mut_slice().fill(0);
}

fn zeros(alloc: Global, n: usize) -> Result<Vec<u64>, NoMemory>
    ensures { IfOk result (λ zeros. zeros.items ≡ replicate n 0) }
{
    Ok(vec![in alloc; 0u64; n]?)
}
