//! A walk through the prefixes of a problem, depth first and in class order.
//!
//! It finds the languages and the cuts in lexicographic order, and so it names the certificate of a cut when it comes to it. What
//! makes it fast: a prefix is first held against the certificates that name its last class, and of these only against those
//! whose choices may all be its own; what a class asks of a ranking is made once; the path keeps the conditions of its
//! classes, without those that earlier ones imply, so that a child adds its own behind them and takes them off again; and where
//! the least hierarchy of a prefix satisfies what a child adds, it is the child's too, and nothing is demoted.

ghost use Rattle.std.specs.Prelude.{◌≡◌, ◌<◌, ◌≤◌, ◌+◌, ℕ, List, [], ◌∷◌, ◌++◌, length, true, false, take, drop, IfOk, OnOk, IfSome, IfNone, All};
ghost use Rattle.std.specs.List.{list_all};
ghost use Rattle.ot_base.specs.declared.limits.TheConstants.{INPUT_LIMIT};
ghost use Rattle.ot_theory.specs.Hierarchies.{IsLeastHierarchy, satisfies};
ghost use Rattle.ot_theory.specs.Languages as theory;
ghost use Rattle.ot_theory.specs.Languages.{classes_at, conditions_of, refuted, terms_of, terms_of_class};
ghost use Rattle.refutation.specs.Asked.{AreAsked, Begins};
ghost use Rattle.violation_profiles.specs.WellFormed.{IsPrefix};
ghost use Rattle.refutation.specs.Prefixes.{class_numbers};
ghost use Rattle.refutation.specs.Typologies.{certificates_of, cuts_of, found_of};
ghost use Rattle.search_deeds.specs.Gathered.{first_refuting};
ghost use Rattle.search_deeds.specs.Made.{AreMade};
ghost use Rattle.typology_core.specs.Walked.{AreAllBelow, AreMore, IsDone, IsEntered, IsFoundOf, IsJudged, IsLower, IsPathOf, IsReached, IsSamePath, IsSettled, IsToOpen, prefix_of};

use cut_list::CutList;
use demotion::least_hierarchy;
use erc_vectors::{Condition, List, NoMemory, Strata};
use ot_base::{ClassId, INPUT_LIMIT, InId};
use refutation::{Asked, Contradiction, Language, Prefix, asked_of, core_of_conditions};
use search_deeds::{Index, Ready, place_of};
use std::alloc::Global;
use violation_profiles::Problem;

/// The prefix where the walk stands, and what the given pairs and its classes ask of a ranking.
#[derive(Debug, Drop)]
pub(crate) struct Path {
    pub(crate) classes: Vec<ClassId>,
    pub(crate) asked: Asked,
}

/// What the walk found so far.
#[derive(Debug, Drop)]
pub(crate) struct Found {
    pub(crate) languages: List<Language>,
    pub(crate) cuts: CutList,
    pub(crate) certificates: List<Contradiction>,
    pub(crate) index: Index,
}

/// Adds the languages and the cuts that extend a prefix which no certificate so far refutes.
pub(crate) fn walk(
    alloc: Global,
    p: &Problem,
    ready: &mut Ready,
    path: &mut Path,
    found: &mut Found,
) -> Result<(), NoMemory>
    requires made { AreMade p.now ready.old }
    requires path { IsPathOf p.now path.old }
    requires fresh { first_refuting (certificates_of found.old.certificates) (prefix_of path.old) ≡ length found.old.certificates }
    requires found { IsFoundOf p.now found.old }
    ensures found { OnOk result (IsFoundOf p.now found.new) }
    ensures more { OnOk result ((n : ℕ) → length path.old.classes.items + n ≡ length p.now.inputs → AreAllBelow p.now n (prefix_of path.old) found.old found.new) }
{
    let hierarchy = hierarchy_of(p, path);
    if let Some(strata) = holds(alloc, p, path, &hierarchy, found)? {
        visit(alloc, p, &strata, ready, path, found)?;
    }
    Ok(())
}

/// Adds the languages and the cuts that extend a prefix which is not refuted and is no full choice, and whose conditions have
/// this least hierarchy.
fn visit(
    alloc: Global,
    p: &Problem,
    strata: &Strata,
    ready: &mut Ready,
    path: &mut Path,
    found: &mut Found,
) -> Result<(), NoMemory>
    requires made { AreMade p.now ready.old }
    requires path { IsPathOf p.now path.old }
    requires held { refuted p.now (prefix_of path.old) ≡ false }
    requires shorter { length path.old.classes.items < length p.now.inputs }
    requires least { IsLeastHierarchy p.now.constraints (conditions_of p.now (prefix_of path.old)) strata.now }
    requires found { IsFoundOf p.now found.old }
    ensures found { OnOk result (IsFoundOf p.now found.new) }
    ensures more { OnOk result ((n : ℕ) → length path.old.classes.items + n ≡ length p.now.inputs → AreAllBelow p.now n (prefix_of path.old) found.old found.new) }
    ensures path { OnOk result (IsSamePath path.old path.new) }
    ensures made { OnOk result (AreMade p.now ready.new) }
{
    prove!(p.inputs() <= INPUT_LIMIT);
    let input = InId(path.classes.len() as u32);
    for a in 0..p.classes(input) {
        let class = ClassId(a as u16);
        let terms = path.asked.terms.len();
        if let Some(lower) = enter(alloc, p, class, strata, ready, path, found)? {
            visit(alloc, p, &lower, ready, path, found)?;
            leave(path, input, terms);
        }
    }
    Ok(())
}

/// The least hierarchy of a prefix that no certificate so far refutes, where it is neither refuted nor a full choice. Else it is added
/// as a cut or a language. The hierarchy is the least one of its conditions, if some ranking keeps them.
fn holds(
    alloc: Global,
    p: &Problem,
    path: &Path,
    hierarchy: &Option<Strata>,
    found: &mut Found,
) -> Result<Option<Strata>, NoMemory>
    requires path { IsPathOf p.now path.now }
    requires judged { IsJudged p.now (prefix_of path.now) hierarchy.now }
    requires fresh { first_refuting (certificates_of found.old.certificates) (prefix_of path.now) ≡ length found.old.certificates }
    requires found { IsFoundOf p.now found.old }
    ensures opened { IfOk result (λ opened. IfSome opened (λ strata. IsToOpen p.now path.now found.old found.new)) }
    ensures least { IfOk result (λ opened. IfSome opened (λ strata. IsLeastHierarchy p.now.constraints (conditions_of p.now (prefix_of path.now)) strata)) }
    ensures settled { IfOk result (λ opened. IfNone opened (IsSettled p.now path.now found.old found.new)) }
{
    match hierarchy {
        None => {
            found.add_certificate(alloc, p, path)?;
            Ok(None)
        }
        Some(strata) if is_full(p, path) => {
            found.add_language(alloc, p, path, *strata)?;
            Ok(None)
        }
        Some(strata) => Ok(Some(*strata)),
    }
}

/// Whether a prefix is a full choice.
fn is_full(p: &Problem, path: &Path) -> bool
    requires { IsPathOf p.now path.now }
    ensures full { result ≡ true → length path.now.classes.items ≡ length p.now.inputs }
    ensures shorter { result ≡ false → length path.now.classes.items < length p.now.inputs }
{
    prove!(path.classes.len() <= p.inputs());
    path.classes.len() == p.inputs()
}

/// The least hierarchy of the conditions of a prefix, if some ranking keeps them.
fn hierarchy_of(p: &Problem, path: &Path) -> Option<Strata>
    requires { IsPathOf p.now path.now }
    ensures { IsJudged p.now (prefix_of path.now) result }
{
    least_hierarchy(p.constraints(), path.asked.conditions.as_slice())
}

/// The same, where this hierarchy satisfies the first conditions and is at most every one that satisfies them all. Where it
/// satisfies the others too, it is the least one.
fn hierarchy_from(p: &Problem, path: &Path, strata: &Strata, first: usize) -> Option<Strata>
    requires path { IsPathOf p.now path.now }
    requires within { first ≤ length path.now.asked.conditions.items }
    requires lower { IsLower p.now (prefix_of path.now) strata.now }
    requires satisfied { list_all (satisfies strata.now) (take first path.now.asked.conditions.items) ≡ true }
    ensures { IsJudged p.now (prefix_of path.now) result }
{
    prove!(strata.width() == p.constraints());
    let conditions = path.asked.conditions.as_slice();
    if satisfies_all(strata, &conditions[first..]) {
        return Some(*strata);
    }
    hierarchy_of(p, path)
}

/// Whether a hierarchy satisfies each of some conditions.
fn satisfies_all(strata: &Strata, conditions: &[Condition]) -> bool
    requires { All (λ marks. length marks ≡ length strata.now) conditions.now }
    ensures { result ≡ list_all (satisfies strata.now) conditions.now }
{
    conditions
        .iter()
        .all(|condition| strata.satisfies(condition))
}

/// Goes on to a class of the next input, unless the prefix with this class is refuted or a full choice: then that is added instead.
/// Answers the least hierarchy of the longer prefix, from that of the prefix.
fn enter(
    alloc: Global,
    p: &Problem,
    class: ClassId,
    strata: &Strata,
    ready: &mut Ready,
    path: &mut Path,
    found: &mut Found,
) -> Result<Option<Strata>, NoMemory>
    requires made { AreMade p.now ready.old }
    requires path { IsPathOf p.now path.old }
    requires held { refuted p.now (prefix_of path.old) ≡ false }
    requires shorter { length path.old.classes.items < length p.now.inputs }
    requires class { class.0 < length (classes_at p.now (length path.old.classes.items)) }
    requires least { IsLeastHierarchy p.now.constraints (conditions_of p.now (prefix_of path.old)) strata.now }
    requires found { IsFoundOf p.now found.old }
    ensures entered { IfOk result (λ entered. IfSome entered (λ lower. IsEntered p.now class.0 path.old path.new found.old found.new)) }
    ensures least { IfOk result (λ entered. IfSome entered (λ lower. IsLeastHierarchy p.now.constraints (conditions_of p.now (prefix_of path.new)) lower)) }
    ensures settled { IfOk result (λ entered. IfNone entered (IsDone p.now class.0 path.old path.new found.old found.new)) }
    ensures made { OnOk result (AreMade p.now ready.new) }
{
    prove!(p.inputs() <= INPUT_LIMIT);
    let input = InId(path.classes.len() as u32);
    go_on(&mut path.classes, class)?;
    if let Some(place) = found.place_of(p, path.classes.as_slice()) {
        found.add_cut(path.classes.as_slice(), place)?;
        path.classes.truncate(input.0 as usize);
        return Ok(None);
    }
    let terms = path.asked.terms.len();
    ready.make(alloc, p, input, class)?;
    ask(p, ready, input, class, false, &mut path.asked)?;
    let hierarchy = hierarchy_from(p, path, strata, terms);
    match holds(alloc, p, path, &hierarchy, found)? {
        Some(lower) => {
            path.asked.forget(terms);
            ask(p, ready, input, class, true, &mut path.asked)?;
            Ok(Some(lower))
        }
        None => {
            leave(path, input, terms);
            Ok(None)
        }
    }
}

/// Adds what a class of an input asks, and where only what is needed is wanted, without what the others imply.
fn ask(
    p: &Problem,
    ready: &Ready,
    input: InId,
    class: ClassId,
    needed: bool,
    asked: &mut Asked,
) -> Result<(), NoMemory>
    requires input { input.0 < length p.now.inputs }
    requires class { class.0 < length (classes_at p.now input.0) }
    requires made { AreMade p.now ready.now }
    ensures asked { OnOk result ((whole : List theory.Term) → AreAsked p.now whole asked.old.terms.items asked.old.conditions.items
        → AreAsked p.now (whole ++ terms_of_class (classes_at p.now input.0) input.0 class.0) asked.new.terms.items asked.new.conditions.items) }
    ensures terms { OnOk result (Begins asked.old.terms.items asked.new.terms.items) }
    ensures conditions { OnOk result (Begins asked.old.conditions.items asked.new.conditions.items) }
{
    match ready.of(input, class) {
        Some(more) => {
            if needed {
                asked.append_needed(more)
            } else {
                asked.append(more)
            }
        }
        None => {
            let from = if needed { 0 } else { asked.terms.len() };
            asked.add(p, input, class, from)
        }
    }
}

fn go_on(classes: &mut Vec<ClassId>, class: ClassId) -> Result<(), NoMemory>
    ensures { OnOk result (classes.new.items ≡ classes.old.items ++ class ∷ []) }
{
    classes.push(class)?;
    Ok(())
}

/// Goes back to the prefix of the inputs before this one, whose classes ask the first terms.
fn leave(path: &mut Path, input: InId, terms: usize)
    ensures classes { path.new.classes.items ≡ take input.0 path.old.classes.items }
    ensures terms { path.new.asked.terms.items ≡ take terms path.old.asked.terms.items }
    ensures conditions { path.new.asked.conditions.items ≡ take terms path.old.asked.conditions.items }
{
    path.classes.truncate(input.0 as usize);
    path.asked.forget(terms);
}

fn copied(alloc: Global, conditions: &[Condition]) -> Result<Vec<Condition>, NoMemory>
    ensures { IfOk result (λ copy. copy.items ≡ conditions.now) }
{
    Ok(Vec::from_slice(alloc, conditions)?)
}

impl Path {
    /// The empty prefix, which asks what the given pairs ask.
    pub(crate) fn start(alloc: Global, p: &Problem) -> Result<Path, NoMemory>
        ensures classes { IfOk result (λ path. path.classes.items ≡ []) }
        ensures asked { IfOk result (λ path. AreAsked p.now (terms_of p.now []) path.asked.terms.items path.asked.conditions.items) }
    {
        Ok(Path {
            classes: Vec::new(alloc),
            asked: asked_of(alloc, p, &[])?,
        })
    }
}

impl Found {
    /// What is found before the first step.
    pub(crate) fn nothing(alloc: Global, p: &Problem) -> Result<Found, NoMemory>
        ensures found { IfOk result (λ found. IsFoundOf p.now found) }
        ensures languages { IfOk result (λ found. found.languages ≡ []) }
        ensures cuts { IfOk result (λ found. found.cuts ≡ []) }
        ensures certificates { IfOk result (λ found. found.certificates ≡ []) }
    {
        Ok(Found {
            languages: List::new(alloc),
            cuts: CutList::new(alloc),
            certificates: List::new(alloc),
            index: Index::new(alloc, p)?,
        })
    }

    /// The place of the first certificate that refutes a prefix.
    fn place_of(&self, p: &Problem, classes: &[ClassId]) -> Option<usize>
        requires reached { IsReached p.now (class_numbers classes.now) }
        requires found { IsFoundOf p.now self.now }
        ensures some { IfSome result (λ place. (place ≡ first_refuting (certificates_of self.now.certificates) (class_numbers classes.now)) × (place < length self.now.certificates)) }
        ensures none { IfNone result (first_refuting (certificates_of self.now.certificates) (class_numbers classes.now) ≡ length self.now.certificates) }
    {
        let (places, blocks) = self.index.bucket_for(p, classes);
        place_of(self.certificates.as_slice(), places, blocks, classes)
    }

    /// Adds a cut that names a certificate.
    fn add_cut(&mut self, classes: &[ClassId], certificate: usize) -> Result<(), NoMemory>
        ensures cuts { OnOk result (self.new.cuts ≡ self.old.cuts ++ (record { prefix = class_numbers classes.now; certificate = certificate }) ∷ []) }
        ensures languages { self.new.languages ≡ self.old.languages }
        ensures certificates { self.new.certificates ≡ self.old.certificates }
        ensures index { self.new.index ≡ self.old.index }
    {
        self.cuts.push(classes, certificate)
    }

    /// Adds a cut beside its own certificate.
    fn add_certificate(&mut self, alloc: Global, p: &Problem, path: &Path) -> Result<(), NoMemory>
        requires path { IsPathOf p.now path.now }
        requires refuted { refuted p.now (prefix_of path.now) ≡ true }
        requires fresh { first_refuting (certificates_of self.old.certificates) (prefix_of path.now) ≡ length self.old.certificates }
        requires found { IsFoundOf p.now self.old }
        ensures found { OnOk result (IsFoundOf p.now self.new) }
        ensures more { OnOk result (AreMore (prefix_of path.now ∷ []) [] self.old self.new) }
    {
        prove!(path.classes.len() <= p.inputs());
        let conditions = copied(alloc, path.asked.conditions.as_slice())?;
        let certificate = core_of_conditions(alloc, p, path.asked.terms.as_slice(), conditions)?;
        let place = self.certificates.len();
        self.index.add(p, certificate.terms.as_slice(), place)?;
        self.certificates.push(certificate)?;
        self.add_cut(path.classes.as_slice(), place)
    }

    /// Adds a language.
    fn add_language(
        &mut self,
        alloc: Global,
        p: &Problem,
        path: &Path,
        strata: Strata,
    ) -> Result<(), NoMemory>
        requires path { IsPathOf p.now path.now }
        requires least { IsLeastHierarchy p.now.constraints (conditions_of p.now (prefix_of path.now)) strata }
        requires found { IsFoundOf p.now self.old }
        ensures found { OnOk result (IsFoundOf p.now self.new) }
        ensures more { OnOk result (AreMore [] (prefix_of path.now ∷ []) self.old self.new) }
    {
        self.languages.push(Language {
            choice: Prefix::of(alloc, path.classes.as_slice())?,
            strata,
        })
    }
}
