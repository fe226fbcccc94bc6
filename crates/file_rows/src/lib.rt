//! Tests of files and sinks in memory, of lines, cells and their texts, of tableaus, given pairs and the faults of their files, and of
//! the demonstration file. What is expected was worked out by hand, and never what the program gave before.
#![tactic(auto)]

#[cfg(test)]
mod cells;
#[cfg(test)]
mod demonstrations;
#[cfg(test)]
mod givens;
#[cfg(test)]
mod memory;
#[cfg(test)]
mod tableaus;
