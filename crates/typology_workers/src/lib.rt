//! The search for a typology by workers in threads, and one worker of it.
//!
//! The thread that calls `search` is the gatherer. It opens prefixes of choices breadth first, from the empty one, until four times as
//! many wait as there are workers or none does, and deals those that wait round the workers' deques. Each worker is one call of
//! `work`; the workers run by `join` on halves of their list, and share deques (`prefix_deques`) and a store of contradictions
//! (`refutation_store`). What they leave in the deques, and what was handed back to them, the gatherer settles itself, depth first.
//! The deeds of all together are honest and balanced, so they tell the typology, whatever the threads did in between; and the answer
//! shows by the books of the deques and the fronts of the store that the workers found it. The search is this project's own.
//!
//! One worker of a search by several workers: it takes prefixes from its own deque or steals them from the others', settles each,
//! and tells what it did.
//!
//! Each prefix that a worker gets is settled by a deed: it is a language, it is opened and its children are put into the worker's own
//! deque, or it is cut off by a contradiction. A contradiction is the first that the worker's front of the store shows, that is one of
//! the worker's own problem and refutes the prefix, or, where there is none, the prefix's own certificate, which the worker then keeps
//! in the store. Deques that workers share are after Chase and Lev (Dynamic circular work-stealing deque, 2005); what a prefix is
//! judged by is after Tesar and Smolensky (Learnability in Optimality Theory, 2000) and Prince (Entailed Ranking Arguments, 2002). The
//! worker's loop, when it ends, the order in which it tries the deques, and how it consults the store are this project's own.
//!
//! Nothing is said of the order between workers: whatever the other ones do, what `work` answers is true.
#![tactic(auto)]

mod dealing;
mod found;
mod gatherer;
mod getting;
mod halves;
mod handing;
mod index;
mod learning;
mod memo;
mod opening;
mod outcome;
mod parting;
mod path;
mod rest;
mod running;
mod searching;
mod worker;

pub use found::Found;
pub use outcome::Work;
pub use searching::search;
pub use worker::{IDLE_ROUNDS, TURNS, work};
