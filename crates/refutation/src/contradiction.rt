//! A contradiction, and whether some terms are one of a problem.

ghost use Rattle.std.specs.Prelude.{All, ◌≡◌, ◌≢◌, ◌<◌, ◌==◌, ℕ, List, [], ◌++◌, true, Some, None, ◌∷◌, IsTrue, IfOk, length, map};
ghost use Rattle.ot_base.specs.declared.limits.TheConstants.{INPUT_LIMIT};
ghost use Rattle.ot_theory.specs.Conditions.{fusion, is_contradictory};
ghost use Rattle.ot_theory.specs.Languages as theory;
ghost use Rattle.ot_theory.specs.Languages.{condition_of};
ghost use Rattle.ot_theory.specs.Refutations.{is_term, one_winner_each, is_contradiction};
ghost use Rattle.std.specs.Option.{option_map_or};
ghost use Rattle.refutation.specs.Terms.{are_terms, term_of, terms_in};
ghost use Rattle.refutation.specs.Winners.{class_at, AreWinners, IsBelow};

use crate::term::{Term, condition_of, is_term};
use erc_fusion::{fuse, is_contradiction};
use erc_vectors::{Condition, List, NoMemory};
use ot_base::{ClassId, INPUT_LIMIT, InId};
use violation_profiles::Problem;

/// Some terms, in order. Those of a genuine contradiction show that no ranking keeps their given pairs and makes each of their winners
/// optimal.
#[derive(Debug, Drop)]
pub struct Contradiction {
    pub terms: List<Term>,
}

impl Contradiction {
    /// An equal contradiction.
    pub fn copy(&self) -> Result<Contradiction, NoMemory>
        ensures { IfOk result (λ copy. copy ≡ self.now) }
    {
        Ok(Contradiction {
            terms: self.terms.copy()?,
        })
    }
}

/// Whether the terms of a contradiction are some of the problem, in range and with a loser other than the winner or given pairs, and
/// at least one, with no more than one winner for each input, and their conditions fuse to an L and no W (Prince 2002). It takes
/// no memory.
pub fn is_genuine(p: &Problem, c: &Contradiction) -> bool
    ensures { result ≡ is_contradiction p.now (terms_in c.now.terms) }
{
    let terms = c.terms.as_slice();
    if !are_terms(p, terms) {
        return false;
    }
    if !have_one_winner_each(p, terms) {
        return false;
    }
    fuse_to_contradiction(p, terms)
}

fn are_terms(p: &Problem, terms: &[Term]) -> bool
    ensures { result ≡ are_terms p.now terms.now }
{
    terms.iter().all(|term| is_term(p, term))
}

/// Whether no two of the terms give an input two winners. It walks them once, with the winners of all inputs so far.
fn have_one_winner_each(p: &Problem, terms: &[Term]) -> bool
    requires { IsTrue (are_terms p.now terms.now) }
    ensures { result ≡ one_winner_each (terms_in terms.now) }
{
    prove!(p.inputs() <= INPUT_LIMIT);
    let mut winners = no_winners();
    for term in terms {
        if !agrees(&mut winners, term) {
            return false;
        }
    }
    true
}

fn no_winners() -> [Option<ClassId>; INPUT_LIMIT]
    ensures none { All (λ winner. winner ≡ None) result }
    ensures length { length result ≡ INPUT_LIMIT }
{
    [None; INPUT_LIMIT]
}

/// Whether a term gives its input the winner that it has so far, or no winner. The first that gives it one sets it.
fn agrees(winners: &mut [Option<ClassId>], term: &Term) -> bool
    requires { IsBelow (length winners.old) (term_of term.now) }
    ensures one { (terms : List theory.Term) → AreWinners terms winners.old → one_winner_each terms ≡ true → result ≡ one_winner_each (terms ++ term_of term.now ∷ []) }
    ensures winners { (terms : List theory.Term) → AreWinners terms winners.old → AreWinners (terms ++ term_of term.now ∷ []) winners.new }
    ensures length { length winners.new ≡ length winners.old }
{
    match *term {
        Term::Loser { input, winner, .. } => has_winner(winners, input, winner),
        Term::Given(_) => true,
    }
}

/// Whether an input has this winner so far, which it gets where it has none.
fn has_winner(winners: &mut [Option<ClassId>], input: InId, class: ClassId) -> bool
    requires { input.0 < length winners.old }
    ensures agrees { result ≡ option_map_or (λ a. a.0 == class.0) (class_at winners.old input.0) true }
    ensures chosen { class_at winners.new input.0 ≡ Some (option_map_or (λ a. a) (class_at winners.old input.0) class) }
    ensures others { (i : ℕ) → i ≢ input.0 → class_at winners.new i ≡ class_at winners.old i }
    ensures length { length winners.new ≡ length winners.old }
{
    let winner = &mut winners[input.0 as usize];
    match *winner {
        Some(a) => a == class,
        None => {
            *winner = Some(class);
            true
        }
    }
}

/// Whether the conditions of the terms fuse to an L and no W.
fn fuse_to_contradiction(p: &Problem, terms: &[Term]) -> bool
    requires { IsTrue (are_terms p.now terms.now) }
    ensures { result ≡ is_contradictory (fusion p.now.constraints (map (condition_of p.now) (terms_in terms.now))) }
{
    match terms.split_first() {
        Some((first, rest)) => is_contradiction(&fusion_of(p, first, rest)),
        None => false,
    }
}

/// The fusion of the conditions of some terms, of which there is at least one (Prince 2002): a mark for each constraint.
/// The terms' numbers are in range, and no loser is the winner. It takes no memory.
pub fn fusion_of(p: &Problem, first: &Term, rest: &[Term]) -> Condition
    requires first { IsTrue (is_term p.now (term_of first.now)) }
    requires rest { IsTrue (are_terms p.now rest.now) }
    ensures { result ≡ fusion p.now.constraints (map (condition_of p.now) (term_of first.now ∷ terms_in rest.now)) }
{
    let mut fused = condition_of(p, first);
    for term in rest {
        fused = fuse(&[fused, condition_of(p, term)]);
    }
    fused
}
