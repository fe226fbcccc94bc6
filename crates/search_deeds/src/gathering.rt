//! The typology that deeds give.

ghost use Rattle.std.specs.Prelude.{◌≡◌, IfOk, length, map};
ghost use Rattle.ot_theory.specs.Languages.{IsTypology};
ghost use Rattle.ot_theory.specs.Refutations.{certificate_named, certificates, cuts};
ghost use Rattle.refutation.specs.Typologies.{certificates_of, cuts_of, found_of};
ghost use Rattle.search_deeds.specs.Deeds.{AreBalanced, AreHonest};
ghost use Rattle.search_deeds.specs.Gathered.{AreGenuine, AreNamed, deeds_of};

use crate::certified::certified;
use crate::collecting::{cut_prefixes, languages};
use crate::deed::Deeds;
use erc_vectors::NoMemory;
use ot_base::INPUT_LIMIT;
use refutation::Typology;
use std::alloc::Global;
use violation_profiles::Problem;

/// The typology of the problem, from deeds that are honest and balanced, in whatever lists and order. Its languages are all
/// choices of one class per input that some ranking makes optimal, in lexicographic order, each with its least hierarchy; its
/// cuts are the refuted prefixes none of whose proper prefixes is refuted, in lexicographic order, each beside the first
/// certificate that refutes it; its certificates are those of the cuts that no certificate before refutes, in order.
pub fn gather(alloc: Global, p: &Problem, all: &[Deeds]) -> Result<Typology, NoMemory>
    requires honest { AreHonest p.now (deeds_of all.now) }
    requires balanced { AreBalanced p.now (deeds_of all.now) }
    ensures languages { IfOk result (λ typology. IsTypology p.now (found_of typology.languages)) }
    ensures cuts { IfOk result (λ typology. cuts_of typology.cuts ≡ map (λ cut. (cut, certificate_named p.now cut)) (cuts p.now)) }
    ensures certificates { IfOk result (λ typology. certificates_of typology.certificates ≡ certificates p.now) }
    ensures genuine { IfOk result (λ typology. AreGenuine p.now typology.certificates) }
    ensures named { IfOk result (λ typology. AreNamed (length typology.certificates) typology.cuts) }
{
    prove!(p.inputs() <= INPUT_LIMIT);
    let languages = languages(alloc, all)?;
    let prefixes = cut_prefixes(alloc, all)?;
    let (cuts, certificates) = certified(alloc, p, prefixes)?;
    Ok(Typology {
        languages,
        cuts,
        certificates,
    })
}
