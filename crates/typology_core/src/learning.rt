//! How often demotion judges a prefix in the search that opens the shorter prefixes first.
//!
//! That search judges each prefix that holds, and each refuted one that none of the contradictions refutes which it has kept.
//! It keeps them in the order in which it learns them, as long as there are places. A contradiction refutes cuts of one length
//! alone, that of the cut for which it was found. So the search learns the certificates by length, and among those of a length
//! in the order of the list; one for which there is a place is learnt at the first cut that names it alone, and one for which
//! there is none at each cut that names it. How many prefixes hold is told by the cuts too: the prefixes of a length are the
//! children of those that hold of the length before, and those among them that are no cuts hold.

ghost use Rattle.std.specs.Prelude.{◌≡◌, ◌≤◌, ◌<◌, ◌+◌, ◌^◌, ◌-◌, ◌++◌, [], ◌∷◌, ℕ, List, IfOk, length, map, min};
ghost use Rattle.ot_theory.specs.Languages.{languages};
ghost use Rattle.ot_theory.specs.Refutations as theory;
ghost use Rattle.ot_base.specs.declared.limits.TheConstants.{INPUT_LIMIT};
ghost use Rattle.refutation.specs.Typologies.{cuts_of};
ghost use Rattle.search_deeds.specs.Gathered.{AreNamed};
ghost use Rattle.typology_core.specs.Learned.{all_named, cuts_judged, held_count, named_in, with_one};
ghost use Rattle.typology_core.specs.Judged.{AreTallies, IsCount, IsTally, learns_of, named_of};

use erc_vectors::NoMemory;
use ot_base::InId;
use refutation::Cut;
use std::alloc::Global;
use violation_profiles::Problem;

/// The cuts that name one certificate, all of one length.
#[derive(Clone, Copy)]
struct Named {
    length: usize,
    cuts: u64,
}

impl Named {
    /// With one cut more.
    fn with(self, cut: &Cut) -> Named
        requires { self.cuts < 2 ^ 64 - 1 }
        ensures { (result.length, result.cuts) ≡ with_one (self.length, self.cuts) (length cut.now.prefix) }
    {
        if self.cuts == 0 {
            Named {
                length: cut.prefix.as_slice().len(),
                cuts: 1,
            }
        } else {
            Named {
                length: self.length,
                cuts: self.cuts + 1,
            }
        }
    }
}

/// How often demotion judges a prefix, with so many places for contradictions, where these are the cuts of the problem, which name
/// so many certificates. It stays at 2^64 - 1 once it is there.
pub(crate) fn learns(
    alloc: Global,
    p: &Problem,
    cuts: &[Cut],
    certificates: usize,
    places: usize,
) -> Result<u64, NoMemory>
    requires cuts { cuts_of cuts.now ≡ map (λ cut. (cut, theory.certificate_named p.now cut)) (theory.cuts p.now) }
    requires certificates { certificates ≡ length (theory.certificates p.now) }
    requires named { AreNamed certificates cuts.now }
    requires few { length (languages p.now) < 2 ^ 64 }
    ensures { IfOk result (λ learns. learns ≡ min (held_count p.now + cuts_judged places (length p.now.inputs) (named_in p.now)) (2 ^ 64 - 1)) }
{
    let longest = p.inputs();
    let named = named_by(alloc, cuts, certificates)?;
    let tallies = tallies(alloc, named.as_slice(), longest)?;
    let held = held(p, tallies.as_slice());
    Ok(judged(held, named.as_slice(), tallies.as_slice(), longest, places))
}

/// The cuts that name each certificate.
fn named_by(alloc: Global, cuts: &[Cut], certificates: usize) -> Result<Vec<Named>, NoMemory>
    requires { AreNamed certificates cuts.now }
    ensures { IfOk result (λ named. named_of named.items ≡ all_named (cuts_of cuts.now) certificates) }
{
    prove!(cuts.len() <= usize::MAX);
    let mut named = vec![in alloc; Named { length: 0, cuts: 0 }; certificates]?;
    for cut in cuts {
        named[cut.certificate] = named[cut.certificate].with(cut);
    }
    Ok(named)
}

/// How many certificates refute cuts of one length, and how many cuts name them.
#[derive(Clone, Copy)]
struct Tally {
    certificates: usize,
    cuts: u128,
}

impl Tally {
    /// With a certificate more, which so many cuts name.
    fn with(self, cuts: u64) -> Tally
        requires certificates { self.certificates < 2 ^ 64 - 1 }
        requires cuts { self.cuts + cuts < 2 ^ 128 }
        ensures certificates { result.certificates ≡ self.certificates + 1 }
        ensures cuts { result.cuts ≡ self.cuts + cuts }
        ensures few { result.cuts ≤ self.cuts + (2 ^ 64 - 1) }
    {
        Tally {
            certificates: self.certificates + 1,
            cuts: self.cuts + cuts as u128,
        }
    }
}

/// The tally of each length up to the longest.
#[tactic(auto, using(crate::proofs::Counted::tallies_none))]
fn tallies(alloc: Global, named: &[Named], longest: usize) -> Result<Vec<Tally>, NoMemory>
    requires { longest ≤ INPUT_LIMIT }
    ensures { IfOk result (λ tallies. AreTallies longest (named_of named.now) tallies.items) }
{
    prove!(named.len() <= usize::MAX);
    let mut tallies = vec![in alloc; Tally {
        certificates: 0,
        cuts: 0
    }; longest + 1]?;
    for certificate in named {
        if certificate.length <= longest {
            tallies[certificate.length] = tallies[certificate.length].with(certificate.cuts);
        }
    }
    Ok(tallies)
}

/// How many prefixes hold. It is 2^64 - 1 at most.
fn held(p: &Problem, tallies: &[Tally]) -> u64
    requires tallies { AreTallies (length p.now.inputs) (named_in p.now) tallies.now }
    requires cuts { length (theory.cuts p.now) < 2 ^ 64 }
    requires few { length (languages p.now) < 2 ^ 64 }
    ensures { result ≡ min (held_count p.now) (2 ^ 64 - 1) }
{
    let mut held: u128 = 0;
    let mut reached: u128 = 1;
    for length in 0..p.inputs() {
        let here = reached - tallies[length].cuts;
        held += here;
        reached = here * p.classes(InId(length as u32)) as u128;
    }
    held += reached - tallies[p.inputs()].cuts;
    held.min(u64::MAX as u128) as u64
}

/// How often demotion has judged a prefix, and how many places are left.
#[derive(Clone, Copy)]
struct Count {
    learns: u64,
    left: usize,
}

impl Count {
    /// With the cuts that name one certificate, which takes a place if there is one.
    fn with(self, cuts: u64) -> Count
        ensures { (held places : ℕ) (before : List ℕ) → IsCount held places before self → IsCount held places (before ++ cuts ∷ []) result }
    {
        if self.left == 0 {
            Count {
                learns: self.learns.saturating_add(cuts),
                left: 0,
            }
        } else {
            Count {
                learns: self.learns.saturating_add(1),
                left: self.left - 1,
            }
        }
    }

    /// With the cuts of a length, by its tally, and one certificate after another only where the places run out among them.
    fn with_length(self, named: &[Named], length: usize, tally: Tally) -> Count
        requires { IsTally length (named_of named.now) tally }
        ensures { (held places : ℕ) (before : List ℕ) → IsCount held places before self → IsCount held places (before ++ learns_of length named.now) result }
    {
        if self.left == 0 {
            return Count {
                learns: self
                    .learns
                    .saturating_add(tally.cuts.min(u64::MAX as u128) as u64),
                left: 0,
            };
        }
        if tally.certificates <= self.left {
            return Count {
                learns: self.learns.saturating_add(tally.certificates as u64),
                left: self.left - tally.certificates,
            };
        }
        let mut count = self;
        for certificate in named {
            if certificate.length == length {
                count = count.with(certificate.cuts);
            }
        }
        count
    }
}

/// How often demotion judges the cuts that name these certificates, and so many prefixes besides.
fn judged(held: u64, named: &[Named], tallies: &[Tally], longest: usize, places: usize) -> u64
    requires longest { longest ≤ INPUT_LIMIT }
    requires tallies { AreTallies longest (named_of named.now) tallies.now }
    ensures { result ≡ min (held + cuts_judged places longest (named_of named.now)) (2 ^ 64 - 1) }
{
    let mut count = Count {
        learns: held,
        left: places,
    };
    for length in 0..longest + 1 {
        count = count.with_length(named, length, tallies[length]);
    }
    count.learns
}
