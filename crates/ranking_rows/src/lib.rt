//! Tests of conditions, rankings and hierarchies, and of what is asked of sets of conditions: their fusion, demotion, entailment,
//! covers, biased demotion and the two bases. What is expected was worked out by hand, and never what the program gave before.
#![tactic(auto)]

#[cfg(test)]
mod biases;
#[cfg(test)]
mod demotions;
#[cfg(test)]
mod entailments;
#[cfg(test)]
mod fusions;
#[cfg(test)]
mod listings;
#[cfg(test)]
mod marks;
#[cfg(test)]
mod reductions;
#[cfg(test)]
mod vectors;
