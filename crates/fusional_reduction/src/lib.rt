//! Fusional reduction: a set of conditions that some ranking keeps, in two small bases that the same rankings keep.
//!
//! The idea is that of Brasoveanu and Prince (Ranking and Necessity, 2011): fuse the set, and go on with the conditions that the
//! fusion says nothing of. The exact rules are this project's own: what the nodes are, the test that keeps a node's fusion, the
//! skeletal form, and the order of the members. No claim is made that they are the paper's.
#![tactic(auto)]

mod masks;
mod member;
mod order;
mod reduced;
mod reduction;
mod shared;
mod visit;

pub use reduced::Bases;
pub use reduction::bases;
pub use shared::bases_go;
