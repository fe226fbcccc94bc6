//! The bases may go to another thread, and threads may share them: the call below is refused if they may not.

use crate::Bases;

fn goes<T: Send>(_value: &T) {}

fn is_shared<T: Sync>(_value: &T) {}

/// The bases may go to another thread, and threads may share them.
pub fn bases_go(bases: &Bases) {
    goes(bases);
    is_shared(bases);
}
