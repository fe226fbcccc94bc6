//! What a search by workers comes to.

use erc_vectors::List;
use prefix_deques::Books;
use refutation::Typology;
use refutation_store::{Front, Store};
use search_deeds::Deeds;

/// The typology of a problem, and how workers and a gatherer found it.
#[derive(Drop)]
pub struct Found {
    /// The deeds of each worker, and last those of the gatherer, each in the order of settling.
    pub deeds: List<Deeds>,
    /// How many deeds the gatherer had done when it dealt the prefixes that waited.
    pub dealt: usize,
    /// The typology that the deeds tell.
    pub typology: Typology,
    /// The books of the workers' seats, in the order of the workers, and what was left in their deques.
    pub books: Books,
    /// The store of contradictions that the workers shared.
    pub store: Store,
    /// What each worker had learnt of the store.
    pub fronts: List<Front>,
}
