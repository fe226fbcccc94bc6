//! Whole runs of typologies over files and sinks in memory, words, faults and sizes. What a run leaves is compared byte by byte
//! with reports and fault lines that were worked out by hand, and never with what the program wrote before.
#![tactic(auto)]

#[cfg(test)]
mod demo;
#[cfg(test)]
mod faults;
#[cfg(test)]
mod given_pairs;
#[cfg(test)]
mod reports;
#[cfg(test)]
mod settings;
#[cfg(test)]
mod sizes;
#[cfg(test)]
mod words;
