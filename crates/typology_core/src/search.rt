//! The search of one worker.

ghost use Rattle.std.specs.Prelude.{◌≡◌, ◌≤◌, IfOk, length, map};
ghost use Rattle.ot_theory.specs.Languages.{IsTypology};
ghost use Rattle.ot_theory.specs.Refutations.{certificate_named, certificates, cuts};
ghost use Rattle.refutation.specs.Typologies.{certificates_of, cuts_of, found_of};
ghost use Rattle.search_deeds.specs.Gathered.{AreGenuine, AreNamed};
ghost use Rattle.ot_base.specs.declared.limits.TheConstants.{PLACE_LIMIT};
ghost use Rattle.typology_core.specs.Rounds.{CountsLoneLearns};

use crate::learning::learns;
use crate::walk::{Found, Path, walk};
use cut_list::CompactTypology;
use erc_vectors::NoMemory;
use ot_base::INPUT_LIMIT;
use refutation::Typology;
use search_deeds::Ready;
use std::alloc::Global;
use violation_profiles::Problem;

/// What a search comes to: the typology, and how often demotion judges a prefix, which stays at 2^64 - 1 once it is there.
#[derive(Debug, Drop)]
pub struct Alone {
    pub typology: Typology,
    pub learns: u64,
}

/// The typology of a problem, whose cuts are kept by what each does not share with the one before: its languages, each with its least
/// hierarchy (Tesar and Smolensky 2000), and its cuts, each with a certificate (Prince 2002), as `gather` gives them.
pub fn typology_of(alloc: Global, p: &Problem) -> Result<CompactTypology, NoMemory>
    ensures languages { IfOk result (λ typology. IsTypology p.now (found_of typology.languages)) }
    ensures cuts { IfOk result (λ typology. cuts_of typology.cuts ≡ map (λ cut. (cut, certificate_named p.now cut)) (cuts p.now)) }
    ensures certificates { IfOk result (λ typology. certificates_of typology.certificates ≡ certificates p.now) }
    ensures genuine { IfOk result (λ typology. AreGenuine p.now typology.certificates) }
    ensures named { IfOk result (λ typology. AreNamed (length typology.certificates) typology.cuts) }
{
    let mut ready = Ready::new(alloc, p)?;
    let mut path = Path::start(alloc, p)?;
    let mut found = Found::nothing(alloc, p)?;
    walk(alloc, p, &mut ready, &mut path, &mut found)?;
    Ok(CompactTypology {
        languages: found.languages,
        cuts: found.cuts,
        certificates: found.certificates,
    })
}

/// The typology of a problem, found by one worker with at most 4,096 places for contradictions: its languages, each with its least
/// hierarchy (Tesar and Smolensky 2000), and its cuts, each with a certificate (Prince 2002), as `gather` gives them.
///
/// How often demotion judges is told of this search. Prefixes wait in a queue, first in, first out, at first the empty one alone.
/// Each is cut off by the first contradiction among those kept that refutes it. Where there is none it is judged by demotion, and
/// the certificate of a refuted one is kept if there is a place left. The children of a prefix that holds and is no full choice
/// wait behind the others. So one worker makes its steps on the machine, and how often demotion judges is the number of Learn steps
/// among them. The number of places changes that number, and nothing else; so the typology is found by a walk that comes to it
/// in order, and the number by its cuts.
pub fn search_alone(alloc: Global, p: &Problem, places: usize) -> Result<Alone, NoMemory>
    requires { places ≤ PLACE_LIMIT }
    ensures languages { IfOk result (λ alone. IsTypology p.now (found_of alone.typology.languages)) }
    ensures cuts { IfOk result (λ alone. cuts_of alone.typology.cuts ≡ map (λ cut. (cut, certificate_named p.now cut)) (cuts p.now)) }
    ensures certificates { IfOk result (λ alone. certificates_of alone.typology.certificates ≡ certificates p.now) }
    ensures genuine { IfOk result (λ alone. AreGenuine p.now alone.typology.certificates) }
    ensures named { IfOk result (λ alone. AreNamed (length alone.typology.certificates) alone.typology.cuts) }
    ensures learns { IfOk result (λ alone. CountsLoneLearns p.now places alone.learns) }
{
    let found = typology_of(alloc, p)?;
    let cuts = found.cuts.listed(alloc)?;
    prove!(p.inputs() <= INPUT_LIMIT);
    prove!(found.languages.len() <= usize::MAX);
    let learns = learns(alloc, p, cuts.as_slice(), found.certificates.len(), places)?;
    Ok(Alone {
        typology: Typology {
            languages: found.languages,
            cuts,
            certificates: found.certificates,
        },
        learns,
    })
}
