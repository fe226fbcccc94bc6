//! The certificate of terms that no ranking keeps.
//!
//! The last term that it keeps ends the shortest front of the terms that no ranking keeps, beside those kept so far; so each is
//! found at once, and the terms behind it are dropped. The conditions of those kept stand at the end of the list, in the place of
//! dropped ones.

ghost use Rattle.std.specs.Prelude.{◌≡◌, IsTrue, IfOk, All, length, map, true};
ghost use Rattle.ot_theory.specs.Languages.{condition_of};
ghost use Rattle.ot_theory.specs.Refutations.{one_winner_each, no_ranking_keeps, is_contradiction, certificate_of, EachIsNeeded};
ghost use Rattle.refutation.specs.Terms.{are_terms, terms_in};

use crate::contradiction::Contradiction;
use crate::term::{Term, conditions_of};
use demotion::last_needed;
use erc_vectors::{Condition, List, NoMemory};
use std::alloc::Global;
use violation_profiles::Problem;

/// The certificate of terms that no ranking keeps: what remains when each is dropped, from the last to the first, without
/// which no ranking keeps the others. It is a genuine contradiction, in the order of the terms, and without any one of its
/// terms some ranking keeps the others. The terms are in range, with a loser other than the winner and at most one winner
/// for each input.
pub fn core_of(alloc: Global, p: &Problem, terms: &[Term]) -> Result<Contradiction, NoMemory>
    requires genuine { IsTrue (are_terms p.now terms.now) }
    requires one { IsTrue (one_winner_each (terms_in terms.now)) }
    requires hopeless { no_ranking_keeps p.now.constraints (map (condition_of p.now) (terms_in terms.now)) ≡ true }
    ensures certificate { IfOk result (λ core. terms_in core.terms ≡ certificate_of p.now (terms_in terms.now)) }
    ensures contradiction { IfOk result (λ core. IsTrue (is_contradiction p.now (terms_in core.terms))) }
    ensures needed { IfOk result (λ core. EachIsNeeded p.now (terms_in core.terms)) }
{
    core_of_conditions(alloc, p, terms, conditions_of(alloc, p, terms)?)
}

/// The same for terms whose conditions are at hand.
pub fn core_of_conditions(
    alloc: Global,
    p: &Problem,
    terms: &[Term],
    conditions: Vec<Condition>,
) -> Result<Contradiction, NoMemory>
    requires genuine { IsTrue (are_terms p.now terms.now) }
    requires one { IsTrue (one_winner_each (terms_in terms.now)) }
    requires conditions { conditions.items ≡ map (condition_of p.now) (terms_in terms.now) }
    requires widths { All (λ marks. length marks ≡ p.now.constraints) conditions.items }
    requires hopeless { no_ranking_keeps p.now.constraints conditions.items ≡ true }
    ensures certificate { IfOk result (λ core. terms_in core.terms ≡ certificate_of p.now (terms_in terms.now)) }
    ensures contradiction { IfOk result (λ core. IsTrue (is_contradiction p.now (terms_in core.terms))) }
    ensures needed { IfOk result (λ core. EachIsNeeded p.now (terms_in core.terms)) }
{
    let n = p.constraints();
    let mut conditions = conditions;
    let mut kept = Vec::new(alloc);
    let mut front = conditions.len();
    let mut others = conditions.len();
    while let Some(last) = last_needed(n, &conditions[others..], &conditions[..front]) {
        others -= 1;
        conditions[others] = conditions[last];
        kept.insert(0, terms[last])?;
        front = last;
    }
    Ok(Contradiction {
        terms: List::from_vec(kept),
    })
}
