//! Which types may go to another thread: the call below is refused if its type may not.

use crate::Status;

fn goes<T: Send>(_value: &T) {}

pub fn status_goes(status: &Status) {
    goes(status);
}
