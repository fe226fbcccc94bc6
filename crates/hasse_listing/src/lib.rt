//! The rankings that a set of conditions forces, as a list of covers: what a Hasse diagram of the constraints shows.
//!
//! A constraint stands necessarily above another one where the set entails the condition with W at the one, L at the other and
//! e elsewhere (Prince, Entailed Ranking Arguments, 2002). A cover is such a pair with no constraint necessarily between the
//! two. What only a choice between several W's demands is not shown by covers. The listing of covers and its order, and that
//! one demotion for each constraint, in which this constraint is never placed, tells which others can stand above it, are this
//! project's own.
#![tactic(auto)]

mod listing;
mod necessary;

pub use erc_vectors::Cover;
pub use listing::covers;
