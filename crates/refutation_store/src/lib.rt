//! A store of learned contradictions that threads share, and what each caller has learned of it.
//!
//! A store is a row of places, each of which is filled at most once and never changes after that. A caller reads it through a
//! front of its own: the list of the contradictions that the first places showed to it. What one caller learned, any other
//! one meets at the same place. No call waits for another thread, holds a lock, or tries again: a place that somebody else
//! filled teaches its value, and the caller goes on to the next one.
//!
//! Store and front, and the search that they serve, are this project's own; a contradiction is that of `refutation`, after
//! Prince (Entailed Ranking Arguments, 2002). That a stored contradiction is genuine is not said here: whoever believes one
//! looks at its terms first.
#![tactic(auto)]

mod front;
pub mod laws;
mod shared;
mod store;

pub use front::Front;
pub use ot_base::PLACE_LIMIT;
pub use shared::stores_go;
pub use store::{Kept, Store};
