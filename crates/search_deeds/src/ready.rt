//! What the given pairs ask of a ranking, made at the start, and what the classes of the inputs ask, each made when it is first wanted.

ghost use Rattle.std.specs.Prelude.{◌≡◌, ◌<◌, ◌++◌, List, length, true, IfOk, OnOk, IfSome};
ghost use Rattle.ot_theory.specs.Problems as problems;
ghost use Rattle.ot_theory.specs.Languages as theory;
ghost use Rattle.ot_theory.specs.Languages.{classes_at, refuted, terms_of, terms_of_class};
ghost use Rattle.ot_theory.specs.Refutations.{EachIsNeeded, certificate_of, is_contradiction, refutes};
ghost use Rattle.refutation.specs.Prefixes.{class_numbers};
ghost use Rattle.refutation.specs.Terms.{terms_in};
ghost use Rattle.violation_profiles.specs.WellFormed.{IsPrefix};
ghost use Rattle.refutation.specs.Asked.{AreAsked};
ghost use Rattle.search_deeds.specs.Made.{AreMade};

use crate::index::widest;
use erc_vectors::NoMemory;
use ot_base::{ClassId, InId};
use refutation::{Asked, Contradiction, asked_of, core_of_conditions};
use std::alloc::Global;
use violation_profiles::Problem;

/// For how many terms of a prefix there is room before the lists grow.
const ROOM: usize = 16;

/// What a class of an input asks.
#[derive(Debug, Drop)]
pub(crate) struct Entry {
    pub(crate) input: InId,
    pub(crate) class: ClassId,
    pub(crate) asked: Asked,
}

/// What the given pairs ask, and what the classes of the inputs ask, as far as it is made: a place for each class of each input.
#[derive(Debug, Drop)]
pub struct Ready {
    pub givens: Asked,
    widest: u16,
    entries: Vec<Option<Entry>>,
}

impl Ready {
    /// Before any class is wanted.
    pub fn new(alloc: Global, p: &Problem) -> Result<Ready, NoMemory>
        ensures { IfOk result (AreMade p.now) }
    {
        let widest = widest(p);
        let mut entries = Vec::new(alloc);
        for _ in 0..p.inputs() * widest {
            entries.push(None)?;
        }
        Ok(Ready {
            givens: asked_of(alloc, p, &[])?,
            widest: widest as u16,
            entries,
        })
    }

    /// Makes what a class asks, unless it is made.
    pub fn make(
        &mut self,
        alloc: Global,
        p: &Problem,
        input: InId,
        class: ClassId,
    ) -> Result<(), NoMemory>
        requires input { input.0 < length p.now.inputs }
        requires class { class.0 < length (classes_at p.now input.0) }
        requires made { AreMade p.now self.old }
        ensures { AreMade p.now self.new }
    {
        let place = place_of(self.widest, input, class);
        if place < self.entries.len() && self.entries[place].is_none() {
            let mut asked = Asked::nothing(alloc);
            asked.add(p, input, class, 0)?;
            self.entries[place] = Some(Entry {
                input,
                class,
                asked,
            });
        }
        Ok(())
    }

    /// What a class asks, if it is made.
    pub fn of(&self, input: InId, class: ClassId) -> Option<&Asked>
        ensures { IfSome result (λ asked. (p : problems.Problem) → AreMade p self.now → AreAsked p (terms_of_class (classes_at p input.0) input.0 class.0) asked.now.terms.items asked.now.conditions.items) }
    {
        match self.entries.get(place_of(self.widest, input, class)) {
            Some(Some(entry)) if entry.input == input && entry.class == class => Some(&entry.asked),
            _ => None,
        }
    }

    /// Adds what a class asks to a list, without what the list implies. It is made first, unless it is made.
    pub fn add_needed(
        &mut self,
        alloc: Global,
        p: &Problem,
        input: InId,
        class: ClassId,
        asked: &mut Asked,
    ) -> Result<(), NoMemory>
        requires input { input.0 < length p.now.inputs }
        requires class { class.0 < length (classes_at p.now input.0) }
        requires made { AreMade p.now self.old }
        ensures asked { OnOk result ((whole : List theory.Term) → AreAsked p.now whole asked.old.terms.items asked.old.conditions.items
            → AreAsked p.now (whole ++ terms_of_class (classes_at p.now input.0) input.0 class.0) asked.new.terms.items asked.new.conditions.items) }
        ensures made { AreMade p.now self.new }
    {
        self.make(alloc, p, input, class)?;
        match self.of(input, class) {
            Some(more) => asked.append_needed(more),
            None => asked.add(p, input, class, 0),
        }
    }

    /// What the given pairs and the classes of a prefix of the problem ask, without what earlier ones imply.
    pub fn asked_by(
        &mut self,
        alloc: Global,
        p: &Problem,
        prefix: &[ClassId],
    ) -> Result<Asked, NoMemory>
        requires prefix { IsPrefix p.now (class_numbers prefix.now) }
        requires made { AreMade p.now self.old }
        ensures asked { IfOk result (λ asked. AreAsked p.now (terms_of p.now (class_numbers prefix.now)) asked.terms.items asked.conditions.items) }
        ensures made { AreMade p.now self.new }
    {
        prove!(prefix.len() <= p.inputs());
        let mut asked = Asked {
            terms: Vec::with_capacity(alloc, ROOM)?,
            conditions: Vec::with_capacity(alloc, ROOM)?,
        };
        asked.append(&self.givens)?;
        for (i, class) in prefix.iter().enumerate() {
            self.add_needed(alloc, p, InId(i as u32), *class, &mut asked)?;
        }
        Ok(asked)
    }

    /// The certificate of a prefix of the problem that holds under no ranking, which is that of all terms of the prefix. What its
    /// classes ask is made first, unless it is made.
    pub fn certificate_of(
        &mut self,
        alloc: Global,
        p: &Problem,
        prefix: &[ClassId],
    ) -> Result<Contradiction, NoMemory>
        requires prefix { IsPrefix p.now (class_numbers prefix.now) }
        requires refuted { refuted p.now (class_numbers prefix.now) ≡ true }
        requires made { AreMade p.now self.old }
        ensures certificate { IfOk result (λ core. terms_in core.terms ≡ certificate_of p.now (terms_of p.now (class_numbers prefix.now))) }
        ensures contradiction { IfOk result (λ core. is_contradiction p.now (terms_in core.terms) ≡ true) }
        ensures refutes { IfOk result (λ core. refutes (terms_in core.terms) (class_numbers prefix.now) ≡ true) }
        ensures needed { IfOk result (λ core. EachIsNeeded p.now (terms_in core.terms)) }
        ensures made { AreMade p.now self.new }
    {
        let asked = self.asked_by(alloc, p, prefix)?;
        certificate_asked(alloc, p, prefix, asked)
    }
}

/// The certificate of a refuted prefix whose classes ask this.
fn certificate_asked(
    alloc: Global,
    p: &Problem,
    prefix: &[ClassId],
    asked: Asked,
) -> Result<Contradiction, NoMemory>
    requires prefix { IsPrefix p.now (class_numbers prefix.now) }
    requires refuted { refuted p.now (class_numbers prefix.now) ≡ true }
    requires asked { AreAsked p.now (terms_of p.now (class_numbers prefix.now)) asked.terms.items asked.conditions.items }
    ensures certificate { IfOk result (λ core. terms_in core.terms ≡ certificate_of p.now (terms_of p.now (class_numbers prefix.now))) }
    ensures contradiction { IfOk result (λ core. is_contradiction p.now (terms_in core.terms) ≡ true) }
    ensures refutes { IfOk result (λ core. refutes (terms_in core.terms) (class_numbers prefix.now) ≡ true) }
    ensures needed { IfOk result (λ core. EachIsNeeded p.now (terms_in core.terms)) }
{
    prove!(prefix.len() <= p.inputs());
    let Asked { terms, conditions } = asked;
    core_of_conditions(alloc, p, terms.as_slice(), conditions)
}

fn place_of(widest: u16, input: InId, class: ClassId) -> usize {
    input.0 as usize * widest as usize + class.0 as usize
}
