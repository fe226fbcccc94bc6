//! The terms of the given pairs and of the winners of a problem.

ghost use Rattle.std.specs.Prelude.{◌≡◌, ◌<◌, ◌++◌, IsTrue, IfOk, OnOk, length};
ghost use Rattle.ot_theory.specs.Languages.{classes_at, terms_of_class, terms_of_givens};
ghost use Rattle.ot_theory.specs.Refutations.{one_winner_each, terms_of_winners};
ghost use Rattle.refutation.specs.Terms.{are_terms, terms_in};

use crate::term::Term;
use erc_vectors::{List, NoMemory};
use ot_base::{ClassId, InId};
use std::alloc::Global;
use violation_profiles::Problem;

/// The given pairs, and then the winner of each input that has one against each other class of it, in order of input and then of loser.
/// No input has two winners in them.
pub fn winner_terms(alloc: Global, p: &Problem) -> Result<List<Term>, NoMemory>
    ensures terms { IfOk result (λ terms. terms_in terms ≡ terms_of_winners p.now) }
    ensures genuine { IfOk result (λ terms. IsTrue (are_terms p.now terms)) }
    ensures one { IfOk result (λ terms. IsTrue (one_winner_each (terms_in terms))) }
{
    let mut terms = given_terms(alloc, p)?;
    for i in 0..p.inputs() {
        let input = InId(i as u32);
        if let Some(winner) = p.winner(input) {
            add_terms(&mut terms, p, input, winner)?;
        }
    }
    Ok(terms)
}

/// The given pairs, in order.
pub(crate) fn given_terms(alloc: Global, p: &Problem) -> Result<List<Term>, NoMemory>
    ensures { IfOk result (λ terms. terms_in terms ≡ terms_of_givens p.now) }
{
    let mut terms = List::new(alloc);
    for k in 0..p.givens().len() {
        terms.push(Term::Given(k as u32))?;
    }
    Ok(terms)
}

/// Adds a class of an input against each other class of it.
pub(crate) fn add_terms(
    terms: &mut List<Term>,
    p: &Problem,
    input: InId,
    winner: ClassId,
) -> Result<(), NoMemory>
    requires input { input.0 < length p.now.inputs }
    requires class { winner.0 < length (classes_at p.now input.0) }
    ensures { OnOk result (terms_in terms.new ≡ terms_in terms.old ++ terms_of_class (classes_at p.now input.0) input.0 winner.0) }
{
    for b in 0..p.classes(input) {
        let loser = ClassId(b as u16);
        if loser != winner {
            terms.push(Term::Loser {
                input,
                winner,
                loser,
            })?;
        }
    }
    Ok(())
}
