//! The problem that a tableau poses: of each input the classes of its candidates, their profiles and members, the winner,
//! and the conditions between classes.
//!
//! Candidates with equal violations are one class, and the condition of one class over another is the elementary ranking
//! condition of Prince (Entailed Ranking Arguments, 2002): a class is optimal under a ranking, as Tesar and Smolensky
//! (Learnability in Optimality Theory, 2000) define it, exactly where the ranking keeps its conditions over all other
//! classes. The rule that picks one winner of an input by the counts is this project's own. Conditions are not kept, since
//! there may be millions of them: each is found from the two profiles when it is asked for, many violations at a time.
#![tactic(auto)]

mod classes;
mod given;
mod input_classes;
mod laws;
mod masks;
mod planes;
mod problem;
mod shared;
mod winner;

pub use laws::{optimal_by_conditions, winner_by_counts};
pub use problem::Problem;
pub use shared::problem_is_shared;
