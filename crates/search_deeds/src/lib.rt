//! What the deeds of a search give: from honest and balanced ones, the typology of a problem.
//!
//! A search opens prefixes of choices, finds languages and cuts refuted prefixes off, in whatever order. Its deeds say which.
//! They are honest where each is true of its prefix, and balanced where their prefixes are the empty one and the children of
//! each opened one, each as often. Such deeds tell all languages, that is all choices that some ranking makes optimal
//! (factorial typology, after Prince and Smolensky), each with its least hierarchy (Tesar and Smolensky, Learnability in
//! Optimality Theory, 2000), and all shortest refuted prefixes, each with a contradiction that shows it (Prince, Entailed
//! Ranking Arguments, 2002). The deeds, the cuts, the list of certificates and the index in which a certificate is found are
//! this project's own.
#![tactic(auto)]

mod blocks;
mod certified;
mod collecting;
mod deed;
mod gathering;
mod index;
mod lexicographic;
mod ready;
mod shared;
mod sieve;

pub use blocks::{Block, Blocks, Row};
pub use certified::place_of;
pub use deed::{Deed, Deeds, Fate};
pub use gathering::gather;
pub use index::{Index, widest};
pub use ready::Ready;
pub use shared::deeds_go;
pub use sieve::{bits_of, mark_of};
