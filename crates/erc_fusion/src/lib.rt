//! The fusion of conditions, and whether a condition is a contradiction.
//!
//! Fusion is that of Prince (Entailed Ranking Arguments, 2002): of the marks of a constraint L is stronger than W, and W
//! than e. No ranking keeps a set of conditions exactly where the fusion of some part of it has an L and no W, here called
//! a contradiction. Both are answered in fixed memory. The masks of the conditions are joined in the lanes of a vector, four
//! conditions at a time, and those behind the last four one by one, for every length alike.
#![tactic(auto)]

mod fusion;

pub use fusion::{fuse, is_contradiction};
