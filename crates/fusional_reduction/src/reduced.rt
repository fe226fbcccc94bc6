use erc_vectors::{Condition, List};

/// The two bases of a set of conditions: lists of as many members, of which the members at the same place are of the same node.
#[derive(Debug, Drop)]
pub struct Bases {
    /// The fusions that are kept.
    pub informative: List<Condition>,
    /// Their skeletal forms.
    pub skeletal: List<Condition>,
}
