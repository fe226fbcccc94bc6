//! Cuts one behind another, each kept by what it does not share with the one before it.
//!
//! The cuts of a typology stand in lexicographic order, and most have a long front in common with the one before. So a list
//! of them takes far less memory than their prefixes do (front coding, after Witten, Moffat and Bell, Managing Gigabytes, 1999). That
//! the cuts of a factorial typology are kept so is this project's own.
#![tactic(auto)]

mod compact;
mod front;
mod list;
mod shared;

pub use compact::CompactTypology;
pub use front::common_front;
pub use list::{Change, CutList};
pub use shared::compact_typologies_go;
