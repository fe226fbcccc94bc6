//! Which types may go to another thread, and which threads may share: each call below is refused if its type may not.

use crate::Problem;

fn goes<T: Send>(_value: &T) {}

fn is_shared<T: Sync>(_value: &T) {}

/// A problem may go to another thread, and threads may share it.
pub fn problem_is_shared(problem: &Problem) {
    goes(problem);
    is_shared(problem);
}
