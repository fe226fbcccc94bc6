use crate::list::CutList;
use erc_vectors::List;
use refutation::{Contradiction, Language};

/// A typology whose cuts are kept by what each does not share with the one before it: the languages and the cuts of a problem,
/// both in lexicographic order, and the certificates, in the order in which the cuts first name them.
#[derive(Debug, Drop)]
pub struct CompactTypology {
    pub languages: List<Language>,
    pub cuts: CutList,
    pub certificates: List<Contradiction>,
}
