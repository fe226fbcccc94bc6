//! Biased demotion: the hierarchy of a set of conditions that keeps faithfulness constraints low, and its r-measure.
//!
//! The bias for markedness and the r-measure are those of Prince and Tesar (Learning phonotactic distributions, 2004). The exact
//! rule is this project's own: which constraints make up the next stratum, that one faithfulness constraint at a time is
//! placed where it makes markedness constraints free, the one that makes the greatest number free, and that the first in
//! the order of the file is taken of several. No claim is made that the r-measure is the greatest possible.
#![tactic(auto)]

mod demoted;
mod kinds;
mod laws;
mod measure;
mod next;
mod strata;

pub use demoted::biased;
pub use laws::one_hierarchy;
pub use measure::r_measure;
