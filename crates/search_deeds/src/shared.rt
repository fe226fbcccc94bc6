//! Which types may go to another thread: each call below is refused if its type may not.

use crate::{Deed, Deeds, Fate};

fn goes<T: Send>(_value: &T) {}

fn is_shared<T: Sync>(_value: &T) {}

/// A deed and a list of deeds may go to another thread, and threads may share them.
pub fn deeds_go(fate: &Fate, deed: &Deed, deeds: &Deeds) {
    goes(fate);
    goes(deed);
    goes(deeds);
    is_shared(fate);
    is_shared(deed);
    is_shared(deeds);
}
