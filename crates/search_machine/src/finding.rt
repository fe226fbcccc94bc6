//! What is found of a prefix: that some ranking makes its classes optimal, or a contradiction that refutes it.

ghost use Rattle.std.specs.Prelude.{◌≡◌, IfOk};
ghost use Rattle.ot_theory.specs.Languages.{terms_of};
ghost use Rattle.refutation.specs.Asked.{AreAsked};
ghost use Rattle.refutation.specs.Prefixes.{class_numbers};
ghost use Rattle.search_deeds.specs.Made.{AreMade};
ghost use Rattle.search_machine.specs.Findings.{IsJudged, fate_for};
ghost use Rattle.violation_profiles.specs.WellFormed.{IsPrefix};

use erc_vectors::NoMemory;
use ot_base::ClassId;
use refutation::{Asked, Finding, Prefix, asked_of, judge_terms};
use search_deeds::{Fate, Ready};
use std::alloc::Global;
use violation_profiles::Problem;

/// Judges a prefix of the problem by demotion: the least hierarchy of its conditions, or, where no ranking keeps them, the
/// certificate of its terms.
pub fn judge(alloc: Global, p: &Problem, prefix: &[ClassId]) -> Result<Finding, NoMemory>
    requires { IsPrefix p.now (class_numbers prefix.now) }
    ensures { IfOk result (IsJudged p.now (class_numbers prefix.now)) }
{
    let asked = asked_of(alloc, p, prefix)?;
    judge_asked(alloc, p, prefix, asked)
}

/// The same with what the classes of the inputs ask, as far as it is made. What the prefix needs of it is made.
pub fn judge_with(
    alloc: Global,
    p: &Problem,
    ready: &mut Ready,
    prefix: &[ClassId],
) -> Result<Finding, NoMemory>
    requires prefix { IsPrefix p.now (class_numbers prefix.now) }
    requires made { AreMade p.now ready.old }
    ensures judged { IfOk result (IsJudged p.now (class_numbers prefix.now)) }
    ensures made { AreMade p.now ready.new }
{
    let asked = ready.asked_by(alloc, p, prefix)?;
    judge_asked(alloc, p, prefix, asked)
}

/// The same where this is what its classes ask.
fn judge_asked(
    alloc: Global,
    p: &Problem,
    prefix: &[ClassId],
    asked: Asked,
) -> Result<Finding, NoMemory>
    requires prefix { IsPrefix p.now (class_numbers prefix.now) }
    requires asked { AreAsked p.now (terms_of p.now (class_numbers prefix.now)) asked.terms.items asked.conditions.items }
    ensures { IfOk result (IsJudged p.now (class_numbers prefix.now)) }
{
    prove!(prefix.len() <= p.inputs());
    let Asked { terms, conditions } = asked;
    judge_terms(alloc, p, terms.as_slice(), conditions)
}

/// What becomes of a prefix of which this is found: it is cut off where it is refuted; where it holds it is a language if it is
/// a full choice, and is opened if not.
pub fn fate_for(p: &Problem, prefix: &Prefix, finding: Finding) -> Fate
    ensures { result ≡ fate_for p.now prefix.now finding }
{
    match finding {
        Finding::Holds(strata) if prefix.as_slice().len() == p.inputs() => Fate::Language(strata),
        Finding::Holds(_) => Fate::Opened,
        Finding::Refuted(found) => Fate::Cut(found),
    }
}
