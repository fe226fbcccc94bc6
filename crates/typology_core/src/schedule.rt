//! The search of several workers under the schedule of a number.

ghost use Rattle.std.specs.Prelude.{◌≡◌, ◌≤◌, IfOk, length, map};
ghost use Rattle.ot_theory.specs.Languages.{IsTypology};
ghost use Rattle.ot_theory.specs.Refutations.{certificate_named, certificates, cuts};
ghost use Rattle.refutation.specs.Typologies.{certificates_of, cuts_of, found_of};
ghost use Rattle.search_deeds.specs.Gathered.{AreGenuine, AreNamed};
ghost use Rattle.search_schedule.specs.Schedules.{CountsLearns};
ghost use Rattle.ot_base.specs.declared.limits.TheConstants.{PLACE_LIMIT};
ghost use Rattle.search_machine.specs.declared.machine.TheConstants.{WORKER_LIMIT};

use crate::search::Alone;
use erc_vectors::NoMemory;
use search_deeds::gather;
use search_schedule::finished_machine;
use std::alloc::Global;
use violation_profiles::Problem;

/// The typology of a problem, by the steps that the machine of the search makes under the schedule of a number, with 1 to 64
/// workers and at most 4,096 places for contradictions; and how many of these steps are Learn steps, which stays at 2^64 - 1 once
/// it is there. The number, the workers and the places change nothing else.
pub fn run_schedule(
    alloc: Global,
    p: &Problem,
    workers: usize,
    places: usize,
    number: u64,
) -> Result<Alone, NoMemory>
    requires some { 1 ≤ workers }
    requires few { workers ≤ WORKER_LIMIT }
    requires places { places ≤ PLACE_LIMIT }
    ensures languages { IfOk result (λ alone. IsTypology p.now (found_of alone.typology.languages)) }
    ensures cuts { IfOk result (λ alone. cuts_of alone.typology.cuts ≡ map (λ cut. (cut, certificate_named p.now cut)) (cuts p.now)) }
    ensures certificates { IfOk result (λ alone. certificates_of alone.typology.certificates ≡ certificates p.now) }
    ensures genuine { IfOk result (λ alone. AreGenuine p.now alone.typology.certificates) }
    ensures named { IfOk result (λ alone. AreNamed (length alone.typology.certificates) alone.typology.cuts) }
    ensures learns { IfOk result (λ alone. CountsLearns p.now workers places number alone.learns) }
{
    let machine = finished_machine(alloc, p, workers, places, number)?;
    let typology = gather(alloc, p, machine.deeds())?;
    Ok(Alone {
        typology,
        learns: machine.learns(),
    })
}
