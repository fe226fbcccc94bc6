//! Which types may go to another thread, or be shared by threads: each call below is refused if its type may not.

use crate::{Front, Kept, Store};

fn goes<T: Send>(_value: &T) {}

fn is_shared<T: Sync>(_value: &T) {}

/// Threads may share a store, and a front or an answer of `keep` may go to another thread.
pub fn stores_go(store: &Store, front: &Front, kept: &Kept) {
    is_shared(store);
    goes(front);
    goes(kept);
}
