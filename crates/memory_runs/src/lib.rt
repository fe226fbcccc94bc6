//! Runs of the program over files and sinks in memory, for the crates of whole runs. The program is called in one place. What a
//! run has to leave stands in the tables of those crates, and no contract here says it.
#![tactic(auto)]

mod left;
mod outside;

pub use left::{Left, Part, run_gated, run_on, run_words, words_of};
pub use outside::Outside;
