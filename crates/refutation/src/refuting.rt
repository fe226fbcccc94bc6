//! What shows that no ranking makes the classes of a prefix optimal.

ghost use Rattle.std.specs.Prelude.{◌≡◌, ℕ, IfOk, IsTrue};
ghost use Rattle.std.specs.List.{list_all};
ghost use Rattle.ot_theory.specs.Languages.{Loser, refuted, terms_of};
ghost use Rattle.ot_theory.specs.Refutations.{EachIsNeeded, certificate_of, is_contradiction, one_winner_each, refutes};
ghost use Rattle.refutation.specs.Asked.{AreAsked};
ghost use Rattle.refutation.specs.Prefixes.{class_numbers, is_made};
ghost use Rattle.refutation.specs.Terms.{are_terms, term_of, terms_in};
ghost use Rattle.violation_profiles.specs.WellFormed.{IsPrefix};

use crate::asked::Asked;
use crate::certificate::core_of;
use crate::contradiction::Contradiction;
use crate::term::Term;
use crate::winners::{add_terms, given_terms};
use erc_vectors::{List, NoMemory};
use ot_base::{ClassId, InId};
use std::alloc::Global;
use violation_profiles::Problem;

/// The given pairs, and then each class of a prefix of the problem against each other class of its input, in order of input and then of
/// loser. No input has two winners in them.
pub fn terms_of(alloc: Global, p: &Problem, prefix: &[ClassId]) -> Result<List<Term>, NoMemory>
    requires { IsPrefix p.now (class_numbers prefix.now) }
    ensures terms { IfOk result (λ terms. terms_in terms ≡ terms_of p.now (class_numbers prefix.now)) }
    ensures genuine { IfOk result (λ terms. IsTrue (are_terms p.now terms)) }
    ensures one { IfOk result (λ terms. IsTrue (one_winner_each (terms_in terms))) }
{
    prove!(prefix.len() <= p.inputs());
    let mut terms = given_terms(alloc, p)?;
    for (i, winner) in prefix.iter().enumerate() {
        add_terms(&mut terms, p, InId(i as u32), *winner)?;
    }
    Ok(terms)
}

/// What the given pairs and the classes of a prefix of the problem ask of a ranking: its terms and their conditions, without those that
/// earlier ones imply.
pub fn asked_of(alloc: Global, p: &Problem, prefix: &[ClassId]) -> Result<Asked, NoMemory>
    requires { IsPrefix p.now (class_numbers prefix.now) }
    ensures { IfOk result (λ asked. AreAsked p.now (terms_of p.now (class_numbers prefix.now)) asked.terms.items asked.conditions.items) }
{
    prove!(prefix.len() <= p.inputs());
    let mut asked = Asked::nothing(alloc);
    asked.add_givens(p)?;
    for (i, winner) in prefix.iter().enumerate() {
        asked.add(p, InId(i as u32), *winner, 0)?;
    }
    Ok(asked)
}

/// Whether a prefix makes each of the winner choices of a contradiction: of each term with a winner, it is longer than the number of
/// the input and has the winner at this input. A given pair asks nothing of it. It takes no memory.
pub fn refutes(c: &Contradiction, prefix: &[ClassId]) -> bool
    ensures { result ≡ refutes (terms_in c.now.terms) (class_numbers prefix.now) }
{
    makes_each(prefix, c.terms.as_slice())
}

/// Whether a prefix makes the winner choice of each term.
fn makes_each(prefix: &[ClassId], terms: &[Term]) -> bool
    ensures { result ≡ list_all (λ term. is_made (class_numbers prefix.now) (term_of term)) terms.now }
{
    terms.iter().all(|term| makes(prefix, term))
}

/// Whether a prefix has the winner of a term at the input of the term, where the term has one.
fn makes(prefix: &[ClassId], term: &Term) -> bool
    ensures { result ≡ is_made (class_numbers prefix.now) (term_of term.now) }
{
    match *term {
        Term::Loser { input, winner, .. } => has_class(prefix, input, winner),
        Term::Given(_) => true,
    }
}

/// Whether a prefix has this class at the input.
fn has_class(prefix: &[ClassId], input: InId, winner: ClassId) -> bool
    ensures { (loser : ℕ) → result ≡ is_made (class_numbers prefix.now) (Loser input.0 winner.0 loser) }
{
    match prefix.get(input.0 as usize) {
        Some(class) => *class == winner,
        None => false,
    }
}

/// The certificate of the terms of a prefix of the problem that holds under no ranking: what remains when each term is dropped,
/// from the last to the first, without which no ranking keeps the others. It is a genuine contradiction that refutes the
/// prefix, in the order of the terms, and without any one of its terms some ranking keeps the others.
pub fn deletion_core(
    alloc: Global,
    p: &Problem,
    prefix: &[ClassId],
) -> Result<Contradiction, NoMemory>
    requires prefix { IsPrefix p.now (class_numbers prefix.now) }
    requires refuted { IsTrue (refuted p.now (class_numbers prefix.now)) }
    ensures certificate { IfOk result (λ core. terms_in core.terms ≡ certificate_of p.now (terms_of p.now (class_numbers prefix.now))) }
    ensures contradiction { IfOk result (λ core. IsTrue (is_contradiction p.now (terms_in core.terms))) }
    ensures refutes { IfOk result (λ core. IsTrue (refutes (terms_in core.terms) (class_numbers prefix.now))) }
    ensures needed { IfOk result (λ core. EachIsNeeded p.now (terms_in core.terms)) }
{
    prove!(prefix.len() <= p.inputs());
    let terms = terms_of(alloc, p, prefix)?;
    core_of(alloc, p, terms.as_slice())
}
