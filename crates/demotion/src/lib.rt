//! Recursive constraint demotion: the least hierarchy of a set of conditions, if some ranking keeps them.
//!
//! It is that of Tesar and Smolensky (Learnability in Optimality Theory, 2000): each round places the constraints at which no
//! open condition has L in the next stratum, and closes the conditions with a W there. That no number of the hierarchy
//! could be smaller, and that no ranking keeps the conditions where a constraint stays behind, is proved in `ot_theory`.
//! That the stratum numbers are the only state, with 0 for a constraint that is not placed yet, is this project's own.
#![tactic(auto)]

mod demoted;
mod fronts;
mod order;
mod rounds;
mod shared;

pub use demoted::{Demoted, demote, least_hierarchy};
pub use fronts::last_needed;
pub use order::order_of;
pub use rounds::{blocked_by, is_hopeless};
pub use shared::demoted_goes;
