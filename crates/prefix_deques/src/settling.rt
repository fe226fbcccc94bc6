//! The end of all deques of one make.

ghost use Rattle.std.specs.Prelude.{◌≡◌, IfOk, length};
ghost use Rattle.std.specs.List.{All};
ghost use Rattle.prefix_deques.specs.Booked.{IsMake, DequeAgrees, all_later};
ghost use Rattle.prefix_deques.specs.Dealing.{lists_of};
ghost use Rattle.prefix_deques.specs.Made.{AreLong, AreParted, HaveLanes, IsColumn, columns_from};

use crate::booked::{Books, booked, of_seats};
use crate::close::close;
use crate::lane::Lane;
use crate::owner::Owner;
use crate::seat::Seat;
use erc_vectors::{List, NoMemory};
use refutation::Prefix;
use std::alloc::Global;
use std::mem;

/// What is left in the deques of one make, and the books of its seats.
#[derive(Drop)]
pub struct Settled {
    pub left: List<Prefix>,
    pub books: Books,
}

/// The end of all deques of one make, whose seats come in any order. The books of each deque agree: what was put into it is what
/// was taken, stolen or is left, each as often. What is left stands in the order of the puts of each deque, that of the last
/// seat first. Where there is no memory, the seats are gone.
pub fn settle_up(alloc: Global, seats: List<Seat>) -> Result<Settled, NoMemory>
    requires { IsMake seats }
    ensures shown { IfOk result (λ s. (s.books.seats ≡ seats) × (s.books.left ≡ s.left)) }
    ensures agree { IfOk result (λ s. All (DequeAgrees seats) seats) }
    ensures left { IfOk result (λ s. s.left ≡ all_later seats seats) }
{
    let shown = of_seats(&seats);
    let (mut owners, rows) = part_all(alloc, seats)?;
    let mut columns = columns(alloc, owners.len(), rows)?;
    let mut left = List::new(alloc);
    while let Some((number, owner)) = owners.pop() {
        let lanes = mem::replace(&mut columns[number], Vec::new(alloc));
        close(owner.into_deque(), lanes, &mut left)?;
    }
    let books = booked(shown, &left);
    Ok(Settled { left, books })
}

/// Takes the seats apart: the owners' ends, each with its seat's number, and each seat's row of lanes.
fn part_all(
    alloc: Global,
    mut seats: List<Seat>,
) -> Result<(Vec<(usize, Owner)>, Vec<Vec<Lane>>), NoMemory>
    ensures { IfOk result (λ r. AreParted seats r.0.items (lists_of r.1.items)) }
{
    let mut owners = Vec::new(alloc);
    let mut rows = Vec::new(alloc);
    while let Some(seat) = seats.pop() {
        let number = seat.number();
        let (owner, lanes) = seat.part();
        let Ok(()) = owners.insert(0, (number, owner)) else {
            return Err(NoMemory);
        };
        let Ok(()) = rows.insert(0, lanes) else {
            return Err(NoMemory);
        };
    }
    Ok((owners, rows))
}

/// The lanes by deque: for each deque in order, the lane of each row to it. Each row has a lane to each deque, in order.
fn columns(
    alloc: Global,
    deques: usize,
    mut rows: Vec<Vec<Lane>>,
) -> Result<Vec<Vec<Lane>>, NoMemory>
    requires { AreLong deques (lists_of rows.items) }
    ensures { IfOk result (λ columns. lists_of columns.items ≡ columns_from 0 deques (lists_of rows.items)) }
{
    let mut columns = Vec::new(alloc);
    for _ in 0..deques {
        let (rest, lanes) = column(alloc, rows)?;
        rows = rest;
        let Ok(()) = columns.insert(0, lanes) else {
            return Err(NoMemory);
        };
    }
    Ok(columns)
}

/// The rows without their last lanes, and these lanes.
fn column(alloc: Global, mut rows: Vec<Vec<Lane>>) -> Result<(Vec<Vec<Lane>>, Vec<Lane>), NoMemory>
    requires { HaveLanes (lists_of rows.items) }
    ensures { IfOk result (λ r. IsColumn (lists_of rows.items) (lists_of r.0.items) r.1.items) }
{
    let mut rest = Vec::new(alloc);
    let mut column = Vec::new(alloc);
    for _ in 0..rows.len() {
        let mut row = rows.remove(0);
        let Some(lane) = row.pop() else {
            unreachable!();
        };
        let Ok(()) = rest.push(row) else {
            return Err(NoMemory);
        };
        let Ok(()) = column.push(lane) else {
            return Err(NoMemory);
        };
    }
    Ok((rest, column))
}
