//! The books of seats that were settled up, which exist in proofs alone.

ghost use Rattle.std.specs.Prelude.{◌≡◌};
ghost use Rattle.prefix_deques.specs.Booked.{IsMake};

use crate::seat::Seat;
use erc_vectors::List;
use refutation::Prefix;
use std::marker::Model;
use std::snapshot::Snapshot;

/// What the seats had when they were handed in to be settled up, and what was left. It has no bytes: a contract sees in it the
/// list of the seats, and the list of what was left.
#[derive(Drop)]
pub struct Books {
    seats: Snapshot<List<Seat>>,
    left: Snapshot<List<Prefix>>,
}

impl Model for Books {
    ghost use Rattle.prefix_deques.specs.Booked.{BooksView};

    ghost Value = { BooksView };

    ghost view = { λ b. record { seats = b.seats.value; left = b.left.value } };
}

/// The seats as they are handed in.
pub(crate) fn of_seats(seats: &List<Seat>) -> Snapshot<List<Seat>>
    requires { IsMake seats.now }
    ensures { result.value ≡ seats.now }
{
    Snapshot::of(seats)
}

/// The books of these seats, with what is left.
pub(crate) fn booked(seats: Snapshot<List<Seat>>, left: &List<Prefix>) -> Books
    ensures { result ≡ record { seats = seats.value; left = left.now } }
{
    Books {
        seats,
        left: Snapshot::of(left),
    }
}
