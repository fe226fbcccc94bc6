//! Terms, the conditions that they stand for, the contradictions that show that no ranking keeps some of them, and so which
//! prefixes of choices no ranking makes optimal.
//!
//! A term stands for an elementary ranking condition of Prince (Entailed Ranking Arguments, 2002): that of a class of an
//! input, as winner, over another one, as loser. A contradiction is some terms, with one winner for each input, whose
//! conditions fuse to an L and no W; that no ranking keeps them is proved in `ot_theory`. It refutes each prefix that makes
//! all of its winner choices. The certificate, which is what remains of terms that no ranking keeps when each is dropped, from
//! the last to the first, without which the others are still kept by none, and the cuts, which are the shortest prefixes that
//! hold under no ranking, are this project's own.
#![tactic(auto)]

mod asked;
mod certificate;
mod contradiction;
mod implication;
mod judging;
mod laws;
mod prefix;
mod refuting;
mod shared;
mod term;
mod typology;
mod winners;

pub use asked::Asked;
pub use certificate::{core_of, core_of_conditions};
pub use contradiction::{Contradiction, fusion_of, is_genuine};
pub use implication::Implication;
pub use judging::{Finding, judge_terms};
pub use laws::genuine_refutes;
pub use prefix::{Prefix, is_prefix};
pub use refuting::{asked_of, deletion_core, refutes, terms_of};
pub use shared::{contradictions_go, implications_go, typologies_go};
pub use term::{Term, condition_of, conditions_of};
pub use typology::{Cut, Language, Typology};
pub use winners::winner_terms;
