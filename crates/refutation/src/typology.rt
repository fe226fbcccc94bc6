//! A typology: the languages of a problem, its cuts, and the certificates that the cuts name.

use crate::contradiction::Contradiction;
use crate::prefix::Prefix;
use erc_vectors::{List, Strata};

/// A language: a choice of one class for each input, all of which some ranking makes optimal, and the least hierarchy of the
/// conditions of these classes over the others (Tesar and Smolensky 2000), which has a stratum for each constraint.
#[derive(Debug, Drop)]
pub struct Language {
    pub choice: Prefix,
    pub strata: Strata,
}

/// A cut: a prefix that holds under no ranking, though each shorter front of it holds under one, and the position of its
/// certificate, from 0 on, among those of the typology.
#[derive(Debug, Drop)]
pub struct Cut {
    pub prefix: Prefix,
    pub certificate: usize,
}

/// The languages and the cuts of a problem, both in lexicographic order, and the certificates, which show of each cut that it
/// holds under no ranking, in the order in which the cuts first name them.
#[derive(Debug, Drop)]
pub struct Typology {
    pub languages: List<Language>,
    pub cuts: List<Cut>,
    pub certificates: List<Contradiction>,
}
