//! What the classes of a prefix ask of a ranking, without what earlier classes ask already.

ghost use Rattle.std.specs.Prelude.{◌≡◌, ◌<◌, List, [], ◌∷◌, ◌++◌, length, take, true, OnOk};
ghost use Rattle.ot_theory.specs.Problems as problems;
ghost use Rattle.ot_theory.specs.Languages as theory;
ghost use Rattle.ot_theory.specs.Languages.{classes_at, terms_of_class, terms_of_givens};
ghost use Rattle.ot_theory.specs.Reductions.{IsImplied, IsStronger};
ghost use Rattle.ot_theory.specs.Refutations.{is_term};
ghost use Rattle.refutation.specs.Terms.{term_of};
ghost use Rattle.refutation.specs.Asked.{AreAsked, Begins};

use crate::term::{Term, condition_of};
use erc_vectors::{Condition, NoMemory};
use ot_base::{ClassId, InId};
use std::alloc::Global;
use violation_profiles::Problem;

/// Terms, and the condition of each. A term is left out whose condition has no L, or has W wherever an earlier one has it and L
/// only where that one has it: what keeps that one keeps it.
#[derive(Debug, Drop)]
pub struct Asked {
    pub terms: Vec<Term>,
    pub conditions: Vec<Condition>,
}

impl Asked {
    /// What no term asks.
    pub fn nothing(alloc: Global) -> Asked
        ensures terms { result.terms.items ≡ [] }
        ensures conditions { result.conditions.items ≡ [] }
    {
        Asked {
            terms: Vec::new(alloc),
            conditions: Vec::new(alloc),
        }
    }

    /// Adds a class of an input against each other class of it. A term is left out where its condition has no L, or is implied
    /// by that of a term from this place on.
    pub fn add(
        &mut self,
        p: &Problem,
        input: InId,
        winner: ClassId,
        from: usize,
    ) -> Result<(), NoMemory>
        requires input { input.0 < length p.now.inputs }
        requires class { winner.0 < length (classes_at p.now input.0) }
        ensures asked { OnOk result ((whole : List theory.Term) → AreAsked p.now whole self.old.terms.items self.old.conditions.items
            → AreAsked p.now (whole ++ terms_of_class (classes_at p.now input.0) input.0 winner.0) self.new.terms.items self.new.conditions.items) }
        ensures terms { OnOk result (Begins self.old.terms.items self.new.terms.items) }
        ensures conditions { OnOk result (Begins self.old.conditions.items self.new.conditions.items) }
    {
        for b in 0..p.classes(input) {
            let loser = ClassId(b as u16);
            if loser != winner {
                let term = Term::Loser {
                    input,
                    winner,
                    loser,
                };
                self.add_term(p, term, from)?;
            }
        }
        Ok(())
    }

    /// Adds the given pairs. One is left out where its condition is implied by that of a term that stands here.
    pub(crate) fn add_givens(&mut self, p: &Problem) -> Result<(), NoMemory>
        ensures { OnOk result ((whole : List theory.Term) → AreAsked p.now whole self.old.terms.items self.old.conditions.items
            → AreAsked p.now (whole ++ terms_of_givens p.now) self.new.terms.items self.new.conditions.items) }
    {
        for k in 0..p.givens().len() {
            self.add_term(p, Term::Given(k as u32), 0)?;
        }
        Ok(())
    }

    /// Adds all terms of another list behind these.
    pub fn append(&mut self, other: &Asked) -> Result<(), NoMemory>
        ensures asked { OnOk result ((p : problems.Problem) (whole others : List theory.Term) → AreAsked p whole self.old.terms.items self.old.conditions.items → AreAsked p others other.now.terms.items other.now.conditions.items
            → AreAsked p (whole ++ others) self.new.terms.items self.new.conditions.items) }
        ensures terms { OnOk result (Begins self.old.terms.items self.new.terms.items) }
        ensures conditions { OnOk result (Begins self.old.conditions.items self.new.conditions.items) }
    {
        self.terms.extend_from_slice(other.terms.as_slice())?;
        self.conditions
            .extend_from_slice(other.conditions.as_slice())?;
        Ok(())
    }

    /// Adds the terms of another list behind these, without those whose conditions these imply.
    pub fn append_needed(&mut self, other: &Asked) -> Result<(), NoMemory>
        ensures asked { OnOk result ((p : problems.Problem) (whole others : List theory.Term) → AreAsked p whole self.old.terms.items self.old.conditions.items → AreAsked p others other.now.terms.items other.now.conditions.items
            → AreAsked p (whole ++ others) self.new.terms.items self.new.conditions.items) }
        ensures terms { OnOk result (Begins self.old.terms.items self.new.terms.items) }
        ensures conditions { OnOk result (Begins self.old.conditions.items self.new.conditions.items) }
    {
        let kept = self.conditions.len();
        for k in 0..other.terms.len().min(other.conditions.len()) {
            let condition = other.conditions[k];
            if !is_implied(self.conditions.as_slice(), 0, kept, &condition) {
                self.keep(other.terms[k], condition)?;
            }
        }
        Ok(())
    }

    /// Adds a term, unless those from this place on imply its condition.
    fn add_term(&mut self, p: &Problem, term: Term, from: usize) -> Result<(), NoMemory>
        requires { is_term p.now (term_of term) ≡ true }
        ensures asked { OnOk result ((whole : List theory.Term) → AreAsked p.now whole self.old.terms.items self.old.conditions.items
            → AreAsked p.now (whole ++ term_of term ∷ []) self.new.terms.items self.new.conditions.items) }
        ensures terms { OnOk result (Begins self.old.terms.items self.new.terms.items) }
        ensures conditions { OnOk result (Begins self.old.conditions.items self.new.conditions.items) }
    {
        let condition = condition_of(p, &term);
        if is_implied(
            self.conditions.as_slice(),
            from,
            self.conditions.len(),
            &condition,
        ) {
            return Ok(());
        }
        self.keep(term, condition)?;
        Ok(())
    }

    /// Adds a term and its condition.
    fn keep(&mut self, term: Term, condition: Condition) -> Result<(), NoMemory>
        ensures terms { OnOk result (self.new.terms.items ≡ self.old.terms.items ++ term ∷ []) }
        ensures conditions { OnOk result (self.new.conditions.items ≡ self.old.conditions.items ++ condition ∷ []) }
    {
        self.terms.push(term)?;
        self.conditions.push(condition)?;
        Ok(())
    }

    /// Drops the terms behind the first ones.
    pub fn forget(&mut self, kept: usize)
        ensures terms { self.new.terms.items ≡ take kept self.old.terms.items }
        ensures conditions { self.new.conditions.items ≡ take kept self.old.conditions.items }
    {
        self.terms.truncate(kept);
        self.conditions.truncate(kept);
    }
}

/// Whether a condition has no L, or is weaker than one of some others between these places.
fn is_implied(conditions: &[Condition], from: usize, to: usize, condition: &Condition) -> bool
    ensures { result ≡ true → IsImplied conditions.now condition.now }
{
    if condition.l_mask() == 0 {
        return true;
    }
    for k in from..to.min(conditions.len()) {
        if is_stronger(&conditions[k], condition) {
            return true;
        }
    }
    false
}

/// Whether the one condition has W only where the other has it, and L wherever the other has it.
fn is_stronger(condition: &Condition, weaker: &Condition) -> bool
    ensures { result ≡ true → IsStronger condition.now weaker.now }
{
    let wins = weaker.w_mask();
    let losses = condition.l_mask();
    condition.w_mask() | wins == wins && weaker.l_mask() | losses == losses
}
