//! The words of a command line, as what they ask for.
//!
//! The commands, their options and the rules by which words are read are this project's own; `docs/FORMATS.md` has them whole.
#![tactic(auto)]

mod constraint_list;
mod cut;
mod numbers;
mod settings;
mod words;

pub use constraint_list::named_flags;
pub use settings::{FileName, Settings, WordsError};
pub use words::settings_of;
