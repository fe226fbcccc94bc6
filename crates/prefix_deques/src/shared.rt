//! Which types may go to another thread: each call below is refused if its type may not.

use crate::{Put, Seat, Stolen};

fn goes<T: Send>(_value: &T) {}

/// A seat and its answers may go to another thread.
pub fn seats_go(seat: &Seat, put: &Put, stolen: &Stolen) {
    goes(seat);
    goes(put);
    goes(stolen);
}
