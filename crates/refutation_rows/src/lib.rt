//! Tests of the problem that a tableau poses, of terms, contradictions, certificates and prefixes, and of the list of cuts. What is
//! expected was worked out by hand, and never what the program gave before.
#![tactic(auto)]

#[cfg(test)]
mod certificates;
#[cfg(test)]
mod cuts;
#[cfg(test)]
mod givens;
#[cfg(test)]
mod problems;
#[cfg(test)]
mod profiles;
#[cfg(test)]
mod shown;
