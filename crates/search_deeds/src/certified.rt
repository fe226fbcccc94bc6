//! Cuts beside the certificates that they name.

ghost use Rattle.std.specs.Prelude.{◌≡◌, ◌<◌, ℕ, IfOk, IfSome, IfNone, OnOk, All, length, take, true, false};
ghost use Rattle.ot_theory.specs.Languages.{refuted};
ghost use Rattle.ot_theory.specs.Refutations.{with_certificate};
ghost use Rattle.violation_profiles.specs.WellFormed.{IsPrefix};
ghost use Rattle.refutation.specs.Typologies.{certificates_of, cuts_of};
ghost use Rattle.refutation.specs.Prefixes.{class_numbers};
ghost use Rattle.search_deeds.specs.Gathered.{AreGenuine, AreNamed, IsCertified, first_refuting};
ghost use Rattle.search_deeds.specs.Indexed.{HoldsRefuting};
ghost use Rattle.search_deeds.specs.Made.{AreMade};
ghost use Rattle.search_deeds.specs.Places.{IsIndexOf};
ghost use Rattle.search_deeds.specs.Admitted.{AreBlocks};

use crate::blocks::{Block, next_admitted};
use crate::index::Index;
use crate::ready::Ready;
use erc_vectors::{List, NoMemory};
use ot_base::ClassId;
use refutation::{Contradiction, Cut, Prefix, refutes};
use std::alloc::Global;
use violation_profiles::Problem;

/// Each of these refuted prefixes beside the first certificate that refutes it, and the certificates, in the order in which
/// they are first named: a prefix that no certificate before refutes adds its own.
pub(crate) fn certified(
    alloc: Global,
    p: &Problem,
    prefixes: Vec<Prefix>,
) -> Result<(List<Cut>, List<Contradiction>), NoMemory>
    requires prefixes { All (IsPrefix p.now) prefixes.items }
    requires refuted { All (λ prefix. refuted p.now prefix ≡ true) prefixes.items }
    requires shortest { All (λ prefix. (k : ℕ) → k < length prefix → refuted p.now (take k prefix) ≡ false) prefixes.items }
    ensures certified { IfOk result (λ named. IsCertified p.now prefixes.items (cuts_of named.0) (certificates_of named.1)) }
    ensures genuine { IfOk result (λ named. AreGenuine p.now named.1) }
    ensures named { IfOk result (λ named. AreNamed (length named.1) named.0) }
{
    let mut cuts = List::new(alloc);
    let mut certificates = List::new(alloc);
    let mut index = Index::new(alloc, p)?;
    let mut ready = Ready::new(alloc, p)?;
    for prefix in prefixes {
        let certificate = name_certificate(
            alloc,
            p,
            &mut ready,
            &prefix,
            &mut certificates,
            &mut index,
        )?;
        cuts.push(Cut {
            prefix,
            certificate,
        })?;
    }
    Ok((cuts, certificates))
}

/// The place of the first certificate that refutes the prefix. Where none does, its own is put behind the others.
fn name_certificate(
    alloc: Global,
    p: &Problem,
    ready: &mut Ready,
    prefix: &Prefix,
    certificates: &mut List<Contradiction>,
    index: &mut Index,
) -> Result<usize, NoMemory>
    requires prefix { IsPrefix p.now prefix.now }
    requires refuted { refuted p.now prefix.now ≡ true }
    requires shortest { (k : ℕ) → k < length prefix.now → refuted p.now (take k prefix.now) ≡ false }
    requires genuine { AreGenuine p.now certificates.old }
    requires made { AreMade p.now ready.old }
    requires indexed { IsIndexOf p.now certificates.old index.old }
    ensures indexed { OnOk result (IsIndexOf p.now certificates.new index.new) }
    ensures genuine { OnOk result (AreGenuine p.now certificates.new) }
    ensures listed { OnOk result (certificates_of certificates.new ≡ with_certificate p.now (certificates_of certificates.old) prefix.now) }
    ensures first { IfOk result (λ place. place ≡ first_refuting (certificates_of certificates.new) prefix.now) }
    ensures within { IfOk result (λ place. place < length certificates.new) }
    ensures made { AreMade p.now ready.new }
{
    let classes = prefix.as_slice();
    let (places, blocks) = index.bucket_for(p, classes);
    if let Some(place) = place_of(certificates.as_slice(), places, blocks, classes) {
        return Ok(place);
    }
    let place = certificates.len();
    let certificate = ready.certificate_of(alloc, p, classes)?;
    index.add(p, certificate.terms.as_slice(), place)?;
    certificates.push(certificate)?;
    Ok(place)
}

/// The place of the first contradiction that refutes a prefix. Those that do are at these places, of which these are the blocks.
pub fn place_of(
    certificates: &[Contradiction],
    places: &[usize],
    blocks: &[Block],
    prefix: &[ClassId],
) -> Option<usize>
    requires refuting { HoldsRefuting (certificates_of certificates.now) (class_numbers prefix.now) places.now }
    requires blocked { AreBlocks (certificates_of certificates.now) places.now blocks.now }
    ensures some { IfSome result (λ place. (place ≡ first_refuting (certificates_of certificates.now) (class_numbers prefix.now)) × (place < length certificates.now)) }
    ensures none { IfNone result (first_refuting (certificates_of certificates.now) (class_numbers prefix.now) ≡ length certificates.now) }
{
    let count = places.len();
    let mut k = next_admitted(blocks, 0, count, prefix);
    while k < count {
        let place = places[k];
        if refutes(&certificates[place], prefix) {
            return Some(place);
        }
        k = next_admitted(blocks, k + 1, count, prefix);
    }
    None
}
