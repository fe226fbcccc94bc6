//! What demotion comes to may go to another thread, and threads may share it: the call below is refused if it may not.

use crate::Demoted;

fn goes<T: Send>(_value: &T) {}

fn is_shared<T: Sync>(_value: &T) {}

/// What demotion comes to may go to another thread, and threads may share it.
pub fn demoted_goes(demoted: &Demoted) {
    goes(demoted);
    is_shared(demoted);
}
