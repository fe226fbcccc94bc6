//! Taking from the own deque, and stealing from the others.

ghost use Rattle.std.specs.Prelude.{◌≡◌, ◌+◌, ◌<◌, ◌≤◌, ◌⊎◌, length, MatchOption};
ghost use Rattle.prefix_deques.specs.Lanes.{HasPlaces};
ghost use Rattle.typology_workers.specs.Stays.{KeepsSeat};
ghost use Rattle.typology_workers.specs.Turns.{HasGot, HasMissed};

use prefix_deques::{Seat, Stolen};
use refutation::Prefix;

/// A prefix from the own deque, or from the first other one that gives something, beginning with the next number. None is an
/// idle round: each deque gave nothing.
pub(crate) fn get(seat: &mut Seat) -> Option<Prefix>
    requires { HasPlaces seat.old }
    ensures stays { KeepsSeat seat.old seat.new }
    ensures got { MatchOption result (HasMissed 0 (length seat.old.make) seat.old seat.new) (HasGot seat.old seat.new) }
{
    let number = seat.number();
    let deques = seat.deques();
    if let Some(prefix) = take(seat) {
        return Some(prefix);
    }
    if let Some(prefix) = steal(seat, number + 1, deques) {
        return Some(prefix);
    }
    steal(seat, 0, number)
}

fn take(seat: &mut Seat) -> Option<Prefix>
    requires { HasPlaces seat.old }
    ensures stays { KeepsSeat seat.old seat.new }
    ensures got { MatchOption result (HasMissed seat.old.number (seat.old.number + 1) seat.old seat.new) (HasGot seat.old seat.new) }
{
    seat.take()
}

/// Tries to steal from the deques from one number to another, each once.
fn steal(seat: &mut Seat, from: usize, to: usize) -> Option<Prefix>
    requires places { HasPlaces seat.old }
    requires within { to ≤ length seat.old.make }
    requires others { (seat.old.number < from) ⊎ (to ≤ seat.old.number) }
    ensures stays { KeepsSeat seat.old seat.new }
    ensures got { MatchOption result (HasMissed from to seat.old seat.new) (HasGot seat.old seat.new) }
{
    for victim in from..to {
        if let Some(prefix) = steal_one(seat, victim) {
            return Some(prefix);
        }
    }
    None
}

fn steal_one(seat: &mut Seat, victim: usize) -> Option<Prefix>
    requires places { HasPlaces seat.old }
    requires within { victim < length seat.old.make }
    requires other { (seat.old.number < victim) ⊎ (victim < seat.old.number) }
    ensures stays { KeepsSeat seat.old seat.new }
    ensures got { MatchOption result (HasMissed victim (victim + 1) seat.old seat.new) (HasGot seat.old seat.new) }
{
    match seat.steal(victim) {
        Stolen::Got(prefix) => Some(prefix),
        Stolen::Empty | Stolen::Missed => None,
    }
}
