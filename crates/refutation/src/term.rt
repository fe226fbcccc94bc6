//! A term, and the condition that it stands for.

ghost use Rattle.std.specs.Prelude.{◌≡◌, All, IsTrue, IfOk, length, map};
ghost use Rattle.ot_theory.specs.Languages.{Loser, condition_of};
ghost use Rattle.ot_theory.specs.Refutations.{is_term};
ghost use Rattle.refutation.specs.Terms.{are_terms, term_of, terms_in};

use erc_vectors::{Condition, NoMemory};
use ot_base::{ClassId, InId};
use std::alloc::Global;
use violation_profiles::Problem;

/// What stands for a condition. All numbers are counted from 0.
#[derive(Clone, Copy, Debug, PartialEq, Eq)]
pub enum Term {
    /// A class of an input, as winner, against another class of it, as loser: the condition of the winner over the loser (Prince
    /// 2002).
    Loser {
        input: InId,
        winner: ClassId,
        loser: ClassId,
    },
    /// A given pair, by its number: the condition with W at the upper constraint, L at the lower one and e elsewhere.
    Given(u32),
}

/// The condition that a term stands for, of as many marks as the problem has constraints. The numbers are in range,
/// and a loser is not its winner. It takes no memory.
pub fn condition_of(p: &Problem, t: &Term) -> Condition
    requires { IsTrue (is_term p.now (term_of t.now)) }
    ensures marks { result ≡ condition_of p.now (term_of t.now) }
    ensures width { length result ≡ p.now.constraints }
{
    match *t {
        Term::Loser {
            input,
            winner,
            loser,
        } => p.condition(input, winner, loser),
        Term::Given(k) => p.given_condition(k),
    }
}

/// The conditions that terms stand for, in order. The terms are as `condition_of` asks.
pub fn conditions_of(alloc: Global, p: &Problem, terms: &[Term]) -> Result<Vec<Condition>, NoMemory>
    requires { IsTrue (are_terms p.now terms.now) }
    ensures conditions { IfOk result (λ conditions. conditions.items ≡ map (condition_of p.now) (terms_in terms.now)) }
    ensures widths { IfOk result (λ conditions. All (λ marks. length marks ≡ p.now.constraints) conditions.items) }
{
    let mut conditions = Vec::new(alloc);
    for term in terms {
        conditions.push(condition_of(p, term))?;
    }
    Ok(conditions)
}

/// Whether a term's numbers are in range and a loser is not its winner.
pub(crate) fn is_term(p: &Problem, t: &Term) -> bool
    ensures { result ≡ is_term p.now (term_of t.now) }
{
    match *t {
        Term::Loser {
            input,
            winner,
            loser,
        } => are_classes(p, input, winner, loser),
        Term::Given(k) => (k as usize) < p.givens().len(),
    }
}

/// Whether these are two different classes of an input.
fn are_classes(p: &Problem, input: InId, winner: ClassId, loser: ClassId) -> bool
    ensures { result ≡ is_term p.now (Loser input.0 winner.0 loser.0) }
{
    if input.0 as usize >= p.inputs() {
        return false;
    }
    let classes = p.classes(input);
    (winner.0 as usize) < classes && (loser.0 as usize) < classes && loser != winner
}
