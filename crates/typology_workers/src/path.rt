//! The prefix that was judged last, and what its classes ask of a ranking.
//!
//! Of the prefixes that a worker judges one after another most are children of one parent, or of parents that differ in their last
//! classes. So what is asked by the classes that a prefix shares with the one before it is kept, and only what its other classes
//! ask is added. And a certificate that was found for one prefix is looked for first when another one is judged.

ghost use Rattle.std.specs.Prelude.{◌≡◌, ◌+◌, ◌<◌, ◌≤◌, List, ◌∷◌, [], ◌++◌, true, false, length, slice_index, take, ℕ, IfOk, IfSome, OnOk};
ghost use Rattle.ot_theory.specs.Problems as problems;
ghost use Rattle.ot_theory.specs.Languages as theory;
ghost use Rattle.ot_theory.specs.Languages.{classes_at, terms_of_class};
ghost use Rattle.ot_theory.specs.Refutations.{no_ranking_keeps};
ghost use Rattle.refutation.specs.Asked.{AreAsked, Begins};
ghost use Rattle.refutation.specs.Prefixes.{class_numbers};
ghost use Rattle.search_deeds.specs.Made.{AreMade};
ghost use Rattle.search_machine.specs.Findings.{IsJudged};
ghost use Rattle.refutation.specs.declared.judging.Finding.TheVariants.{Refuted};
ghost use Rattle.typology_workers.specs.Paths.{IsLastNeeded, IsPathOf, before_of, prefix_of};
ghost use Rattle.violation_profiles.specs.WellFormed.{IsPrefix};

use crate::memo::{Entry, Memo};
use demotion::{is_hopeless, least_hierarchy};
use erc_vectors::{Condition, NoMemory};
use ot_base::{ClassId, INPUT_LIMIT, InId};
use refutation::{Asked, Contradiction, Prefix, Term, core_of_conditions};
use search_deeds::Ready;
use search_machine::Finding;
use std::alloc::Global;
use violation_profiles::Problem;

/// A class of the prefix, and how many terms the classes before it ask for.
#[derive(Drop)]
pub(crate) struct Step {
    pub(crate) class: ClassId,
    pub(crate) before: usize,
}

/// The prefix that was judged last, what its classes ask of a ranking, what each class of each input asks, as far as it is made, and
/// the certificates that were found last. Of so many fronts of what the prefix asks, from the empty one on, it is known that some ranking
/// keeps them.
#[derive(Drop)]
pub(crate) struct Path {
    pub(crate) steps: Vec<Step>,
    pub(crate) asked: Asked,
    pub(crate) fronts: usize,
    pub(crate) ready: Ready,
    pub(crate) memo: Memo,
}

impl Path {
    /// The empty prefix, which asks what the given pairs ask.
    pub(crate) fn start(alloc: Global, p: &Problem) -> Result<Path, NoMemory>
        ensures { IfOk result (IsPathOf p.now) }
    {
        let ready = Ready::new(alloc, p)?;
        let mut asked = Asked::nothing(alloc);
        asked.append(&ready.givens)?;
        Ok(Path {
            steps: Vec::new(alloc),
            asked,
            fronts: 0,
            ready,
            memo: Memo::new(alloc)?,
        })
    }

    /// Judges a prefix of the problem by demotion: the least hierarchy of its conditions, or, where no ranking keeps them, the
    /// certificate of its terms, which is then remembered.
    pub(crate) fn judge(
        &mut self,
        alloc: Global,
        p: &Problem,
        prefix: &[ClassId],
    ) -> Result<Finding, NoMemory>
        requires prefix { IsPrefix p.now (class_numbers prefix.now) }
        requires path { IsPathOf p.now self.old }
        ensures judged { IfOk result (IsJudged p.now (class_numbers prefix.now)) }
        ensures path { OnOk result (IsPathOf p.now self.new) }
    {
        self.go_to(alloc, p, prefix)?;
        if let Some(certificate) = self.recalled(p, prefix)? {
            return Ok(Finding::Refuted(certificate));
        }
        let finding = self.judge_here(alloc, p)?;
        match &finding {
            Finding::Holds(_) => self.keep_all(p),
            Finding::Refuted(certificate) => self.remember(alloc, p, prefix, certificate)?,
        }
        Ok(finding)
    }

    /// Goes to a prefix of the problem.
    #[tactic(auto, using(crate::proofs::Going::shorter_path, crate::proofs::Going::all_there))]
    fn go_to(&mut self, alloc: Global, p: &Problem, prefix: &[ClassId]) -> Result<(), NoMemory>
        requires prefix { IsPrefix p.now (class_numbers prefix.now) }
        requires path { IsPathOf p.now self.old }
        ensures path { OnOk result (IsPathOf p.now self.new) }
        ensures there { OnOk result (prefix_of self.new ≡ class_numbers prefix.now) }
    {
        let shared = self.shared(prefix);
        self.go_back(shared);
        for k in shared..prefix.len() {
            self.go_on(alloc, p, prefix[k])?;
        }
        Ok(())
    }

    /// How many classes at its front the path shares with a prefix.
    fn shared(&self, prefix: &[ClassId]) -> usize
        ensures within { result ≤ length prefix.now }
        ensures on { result ≤ length self.now.steps.items }
        ensures front { take result (prefix_of self.now) ≡ take result (class_numbers prefix.now) }
    {
        let limit = self.steps.len().min(prefix.len());
        for k in 0..limit {
            if self.steps[k].class != prefix[k] {
                return k;
            }
        }
        limit
    }

    /// Goes back to the first classes of the path.
    fn go_back(&mut self, kept: usize)
        ensures path { (p : problems.Problem) → IsPathOf p self.old → IsPathOf p self.new }
        ensures there { prefix_of self.new ≡ take kept (prefix_of self.old) }
    {
        if kept < self.steps.len() {
            let before = self.steps[kept].before;
            self.asked.forget(before);
            self.fronts = shorter(self.fronts, before);
            self.steps.truncate(kept);
        }
    }

    /// Goes on to a class of the next input.
    fn go_on(&mut self, alloc: Global, p: &Problem, class: ClassId) -> Result<(), NoMemory>
        requires path { IsPathOf p.now self.old }
        requires shorter { length self.old.steps.items < length p.now.inputs }
        requires class { class.0 < length (classes_at p.now (length self.old.steps.items)) }
        ensures path { OnOk result (IsPathOf p.now self.new) }
        ensures there { OnOk result (prefix_of self.new ≡ prefix_of self.old ++ class.0 ∷ []) }
    {
        prove!(p.inputs() <= INPUT_LIMIT);
        let input = InId(self.steps.len() as u32);
        let before = self.asked.terms.len();
        self.ready.make(alloc, p, input, class)?;
        ask(p, &self.ready, input, class, &mut self.asked)?;
        self.steps.push(Step { class, before })?;
        Ok(())
    }

    /// The certificate of the prefix of the path, if it is remembered.
    fn recalled(
        &mut self,
        p: &Problem,
        prefix: &[ClassId],
    ) -> Result<Option<Contradiction>, NoMemory>
        requires prefix { IsPrefix p.now (class_numbers prefix.now) }
        requires path { IsPathOf p.now self.old }
        requires there { prefix_of self.old ≡ class_numbers prefix.now }
        ensures judged { IfOk result (λ found. IfSome found (λ certificate. IsJudged p.now (class_numbers prefix.now) (Refuted certificate))) }
        ensures path { OnOk result (IsPathOf p.now self.new) }
        ensures there { OnOk result (prefix_of self.new ≡ prefix_of self.old) }
    {
        prove!(prefix.len() <= p.inputs());
        let Some(place) = self.remembered_at(prefix) else {
            return Ok(None);
        };
        if !self.keeps_before(p, place) {
            return Ok(None);
        }
        match self.memo.of(&self.asked.terms[place], prefix) {
            Some(entry) => Ok(Some(entry.certificate.copy()?)),
            None => Ok(None),
        }
    }

    /// The place of the first term of the last class of which an entry is remembered whose front begins the prefix.
    fn remembered_at(&self, prefix: &[ClassId]) -> Option<usize>
        requires there { prefix_of self.now ≡ class_numbers prefix.now }
        ensures within { IfSome result (λ place. place < length self.now.asked.terms.items) }
        ensures behind { IfSome result (λ place. (p : problems.Problem) (front : ℕ) → IsPathOf p self.now → front < length prefix.now → slice_index (before_of self.now) front ≤ place) }
    {
        let before = self.steps.last()?.before;
        for k in before..self.asked.terms.len() {
            if self.memo.of(&self.asked.terms[k], prefix).is_some() {
                return Some(k);
            }
        }
        None
    }

    /// Whether some ranking keeps what the path asks before a place.
    fn keeps_before(&mut self, p: &Problem, place: usize) -> bool
        requires path { IsPathOf p.now self.old }
        requires within { place ≤ length self.old.asked.terms.items }
        ensures kept { result ≡ true → no_ranking_keeps p.now.constraints (take place self.new.asked.conditions.items) ≡ false }
        ensures path { IsPathOf p.now self.new }
        ensures steps { self.new.steps ≡ self.old.steps }
        ensures asked { self.new.asked ≡ self.old.asked }
    {
        if place < self.fronts {
            return true;
        }
        if is_hopeless(p.constraints(), &self.asked.conditions[..place]) {
            return false;
        }
        self.fronts = place + 1;
        true
    }

    /// Some ranking keeps all fronts of what a prefix asks that holds.
    fn keep_all(&mut self, p: &Problem)
        requires prefix { IsPrefix p.now (prefix_of self.old) }
        requires path { IsPathOf p.now self.old }
        requires holds { theory.refuted p.now (prefix_of self.old) ≡ false }
        ensures { IsPathOf p.now self.new }
    {
        prove!(p.inputs() <= INPUT_LIMIT);
        self.fronts = self.asked.terms.len() + 1;
    }

    /// Remembers the certificate of the prefix of the path, by its last term and the classes up to that of the term before it.
    fn remember(
        &mut self,
        alloc: Global,
        p: &Problem,
        prefix: &[ClassId],
        certificate: &Contradiction,
    ) -> Result<(), NoMemory>
        requires prefix { IsPrefix p.now (class_numbers prefix.now) }
        requires path { IsPathOf p.now self.old }
        requires there { prefix_of self.old ≡ class_numbers prefix.now }
        requires judged { IsJudged p.now (class_numbers prefix.now) (Refuted certificate.now) }
        ensures { OnOk result (IsPathOf p.now self.new) }
    {
        prove!(prefix.len() <= p.inputs());
        let front = classes_needed(certificate.terms.as_slice());
        if front >= prefix.len() {
            return Ok(());
        }
        if let Some(last) = self.last_needed(alloc, p, front, certificate)? {
            let entry = Entry {
                front: Prefix::of(alloc, &prefix[..front])?,
                last: self.asked.terms[last],
                certificate: certificate.copy()?,
            };
            self.memo.put(entry);
        }
        Ok(())
    }

    /// The place of the last term of the certificate, if the front before it is kept by some ranking, and that term beside what the
    /// first classes ask by none.
    fn last_needed(
        &self,
        alloc: Global,
        p: &Problem,
        front: usize,
        certificate: &Contradiction,
    ) -> Result<Option<usize>, NoMemory>
        requires path { IsPathOf p.now self.now }
        requires front { front < length self.now.steps.items }
        ensures { IfOk result (λ place. IfSome place (IsLastNeeded p.now self.now front)) }
    {
        let before = self.steps[front].before;
        let Some(last) = certificate.terms.as_slice().last() else {
            return Ok(None);
        };
        let Some(place) = self.asked.terms.iter().position(|term| term == last) else {
            return Ok(None);
        };
        let conditions = self.asked.conditions.as_slice();
        if place < before || is_hopeless(p.constraints(), &conditions[..place]) {
            return Ok(None);
        }
        let mut needed = copied(alloc, &conditions[..before])?;
        needed.push(conditions[place])?;
        if is_hopeless(p.constraints(), needed.as_slice()) {
            return Ok(Some(place));
        }
        Ok(None)
    }

    /// Judges the prefix of the path by demotion.
    fn judge_here(&self, alloc: Global, p: &Problem) -> Result<Finding, NoMemory>
        requires prefix { IsPrefix p.now (prefix_of self.now) }
        requires path { IsPathOf p.now self.now }
        ensures { IfOk result (IsJudged p.now (prefix_of self.now)) }
    {
        let conditions = self.asked.conditions.as_slice();
        match least_hierarchy(p.constraints(), conditions) {
            Some(strata) => Ok(Finding::Holds(strata)),
            None => {
                let terms = self.asked.terms.as_slice();
                let copy = copied(alloc, conditions)?;
                let core = core_of_conditions(alloc, p, terms, copy)?;
                Ok(Finding::Refuted(core))
            }
        }
    }
}

/// How many of so many fronts have no more terms than this.
fn shorter(fronts: usize, terms: usize) -> usize
    ensures low { result ≤ fronts }
    ensures reach { result ≤ terms + 1 }
{
    if terms < fronts { terms + 1 } else { fronts }
}

/// How many classes there are up to that of the last term but one, and none where this is a given pair.
fn classes_needed(terms: &[Term]) -> usize {
    if terms.len() < 2 {
        return 0;
    }
    match terms[terms.len() - 2] {
        Term::Loser { input, .. } => input.0 as usize + 1,
        Term::Given(_) => 0,
    }
}

/// Adds what a class of an input asks, without what the others imply.
fn ask(
    p: &Problem,
    ready: &Ready,
    input: InId,
    class: ClassId,
    asked: &mut Asked,
) -> Result<(), NoMemory>
    requires input { input.0 < length p.now.inputs }
    requires class { class.0 < length (classes_at p.now input.0) }
    requires made { AreMade p.now ready.now }
    ensures asked { OnOk result ((whole : List theory.Term) → AreAsked p.now whole asked.old.terms.items asked.old.conditions.items
        → AreAsked p.now (whole ++ terms_of_class (classes_at p.now input.0) input.0 class.0) asked.new.terms.items asked.new.conditions.items) }
    ensures terms { OnOk result (Begins asked.old.terms.items asked.new.terms.items) }
    ensures conditions { OnOk result (Begins asked.old.conditions.items asked.new.conditions.items) }
{
    match ready.of(input, class) {
        Some(more) => asked.append_needed(more),
        None => asked.add(p, input, class, 0),
    }
}

fn copied(alloc: Global, conditions: &[Condition]) -> Result<Vec<Condition>, NoMemory>
    ensures { IfOk result (λ copy. copy.items ≡ conditions.now) }
{
    Ok(Vec::from_slice(alloc, conditions)?)
}
