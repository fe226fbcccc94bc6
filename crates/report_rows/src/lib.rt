//! Tests of the texts of reports, and of the reports that are read and those that are not. What is expected was worked out by hand,
//! and never what the program gave before.
#![tactic(auto)]

#[cfg(test)]
mod readings;
#[cfg(test)]
mod texts;
