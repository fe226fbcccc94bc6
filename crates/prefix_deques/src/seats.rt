//! All seats of one make.

ghost use Rattle.std.specs.Prelude.{◌≡◌, ◌≤◌, IfOk};
ghost use Rattle.prefix_deques.specs.Booked.{IsMake};
ghost use Rattle.prefix_deques.specs.Made.{AreNew};

use crate::owner;
use crate::seat::Seat;
use erc_vectors::{List, NoMemory};
use std::alloc::Global;

/// The seats of a new make, 1 to 64, in the order of their numbers. The seat k owns the deque k, which has room for at least 64
/// prefixes. Nothing is put, got, missed or handed back yet.
pub fn make(alloc: Global, n: usize) -> Result<List<Seat>, NoMemory>
    requires { (1 ≤ n) × (n ≤ 64) }
    ensures new { IfOk result (AreNew n) }
    ensures make { IfOk result IsMake }
{
    let mut owners = owner::owners(alloc, n)?;
    let mut rows = owner::rows(alloc, &mut owners)?;
    let mut seats = List::new(alloc);
    for number in 0..n {
        let owner = owners.remove(0);
        let lanes = rows.remove(0);
        seats.push(Seat::new(alloc, owner, lanes, number)?)?;
    }
    Ok(seats)
}
