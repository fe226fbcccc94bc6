//! What the call of one worker gives.

use erc_vectors::List;
use refutation::Prefix;
use search_deeds::Deeds;

/// What a worker did with the prefixes that it got.
#[derive(Debug, Drop)]
pub struct Work {
    /// The deeds, in the order of settling.
    pub deeds: Deeds,
    /// The children of opened prefixes that were handed back to the worker's seat.
    pub outbox: List<Prefix>,
    /// What the worker got that is no prefix of the problem.
    pub strange: List<Prefix>,
}
