//! A compact typology may go to another thread, and threads may share it: the call below is refused if it may not.

use crate::CompactTypology;

fn goes<T: Send>(_value: &T) {}

fn is_shared<T: Sync>(_value: &T) {}

/// A compact typology may go to another thread, and threads may share it.
pub fn compact_typologies_go(typology: &CompactTypology) {
    goes(typology);
    is_shared(typology);
}
