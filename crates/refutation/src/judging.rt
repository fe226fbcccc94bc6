//! Whether some ranking keeps the conditions of terms, with what shows it.

ghost use Rattle.std.specs.Prelude.{◌≡◌, All, IfOk, IsTrue, length, map};
ghost use Rattle.ot_theory.specs.Languages.{condition_of};
ghost use Rattle.ot_theory.specs.Refutations.{one_winner_each};
ghost use Rattle.refutation.specs.Findings.{AreJudged};
ghost use Rattle.refutation.specs.Terms.{are_terms, terms_in};

use crate::certificate::core_of_conditions;
use crate::contradiction::Contradiction;
use crate::term::Term;
use demotion::least_hierarchy;
use erc_vectors::{Condition, NoMemory, Strata};
use std::alloc::Global;
use violation_profiles::Problem;

/// What some terms come to.
#[derive(Debug, Drop)]
pub enum Finding {
    /// Some ranking keeps their conditions, of which this is the least hierarchy.
    Holds(Strata),
    /// No ranking keeps their conditions, and this is the certificate of the terms.
    Refuted(Contradiction),
}

/// Judges terms by demotion of their conditions, which are at hand: the least hierarchy, or, where no ranking keeps them, the
/// certificate. The terms are in range, with a loser other than the winner and at most one winner for each input.
pub fn judge_terms(
    alloc: Global,
    p: &Problem,
    terms: &[Term],
    conditions: Vec<Condition>,
) -> Result<Finding, NoMemory>
    requires genuine { IsTrue (are_terms p.now terms.now) }
    requires one { IsTrue (one_winner_each (terms_in terms.now)) }
    requires conditions { conditions.items ≡ map (condition_of p.now) (terms_in terms.now) }
    requires widths { All (λ marks. length marks ≡ p.now.constraints) conditions.items }
    ensures { IfOk result (AreJudged p.now (terms_in terms.now)) }
{
    match least_hierarchy(p.constraints(), &conditions) {
        Some(strata) => Ok(Finding::Holds(strata)),
        None => {
            let core = core_of_conditions(alloc, p, terms, conditions)?;
            Ok(Finding::Refuted(core))
        }
    }
}
