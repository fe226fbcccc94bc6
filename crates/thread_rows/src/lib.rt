//! Whole runs of the program whose search is one of workers in threads: their reports, which no number of workers and of places
//! changes, and that the workers run at the same time, which no contract says.
#![tactic(auto)]

#[cfg(test)]
mod gate;
#[cfg(test)]
mod reports;
