//! Implications between outputs: which class of one input wins wherever a class of another input does.
//!
//! An output is a class of an input. One output implies another where every ranking that makes the one optimal in its input
//! (Prince and Smolensky, Optimality Theory, 1993; Tesar and Smolensky, Learnability in Optimality Theory, 2000) makes the
//! other optimal in its own: the idea of a T-order (Anttila and Andrus, T-orders, 2006). The listing is this project's own: it
//! leaves out implications within one input, and those of outputs that no ranking makes optimal. That implications can be read
//! off the languages, since under each ranking exactly one language holds, is proved in `laws`.
#![tactic(auto)]

mod laws;
mod listing;
mod row;
mod seen;
mod table;

pub use laws::{
    implied_by_languages, one_language_for_each_ranking, possible_by_languages, told_by_languages,
};
pub use listing::implications;
pub use refutation::Implication;
