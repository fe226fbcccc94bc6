ghost use Rattle.std.specs.Prelude.{◌≡◌, ℕ, List, false, length, map, All, IfOk, IsTrue};
ghost use Rattle.ot_theory.specs.declared.Mark.{Mark};
ghost use Rattle.ot_theory.specs.Conditions.{width_of, has_both};
ghost use Rattle.ot_theory.specs.Refutations.{no_ranking_keeps};
ghost use Rattle.fusional_reduction.specs.Bases.{AreBases};
ghost use Rattle.fusional_reduction.specs.Visits.{IsGiven, AreFound, AreListed};
ghost use Rattle.fusional_reduction.specs.Laws.{HaveSameRankings, AreIndependent, AreDistinct};

use crate::member::Member;
use crate::order::{is_same, order};
use crate::reduced::Bases;
use crate::visit::visit;
use erc_vectors::{Condition, List, NoMemory};
use std::alloc::Global;

/// The informative and the skeletal basis of conditions of one width, each with both W and L, that some ranking keeps. Repeats
/// are allowed, and of no conditions both bases are empty.
///
/// A node is the whole set, or, below a node whose fusion has W at a constraint, its conditions with e there. The residue of
/// a node is what stands in the nodes just below it. The informative basis has the fusion of each node but those that the
/// fusion of their residue entails; in the skeletal basis each has e for the L's that the fusion of its residue has too. Both are
/// listed in the order of the informative marks, compared from the first constraint on, W before e before L.
///
/// The same rankings keep the set, the informative basis and the skeletal basis. No member of either is entailed by its
/// others, and none stands twice.
pub fn bases(alloc: Global, set: &[Condition]) -> Result<Bases, NoMemory>
    requires widths { All (λ marks. length marks ≡ width_of set.now) set.now }
    requires some { no_ranking_keeps (width_of set.now) set.now ≡ false }
    requires both { All (λ marks. IsTrue (has_both marks)) set.now }
    ensures bases { IfOk result (λ bases. AreBases (width_of set.now) set.now bases.informative bases.skeletal) }
    ensures informative_rankings { IfOk result (λ bases. HaveSameRankings (width_of set.now) set.now bases.informative) }
    ensures skeletal_rankings { IfOk result (λ bases. HaveSameRankings (width_of set.now) set.now bases.skeletal) }
    ensures informative_independent { IfOk result (λ bases. AreIndependent (width_of set.now) bases.informative) }
    ensures skeletal_independent { IfOk result (λ bases. AreIndependent (width_of set.now) bases.skeletal) }
    ensures informative_distinct { IfOk result (λ bases. AreDistinct bases.informative) }
    ensures skeletal_distinct { IfOk result (λ bases. AreDistinct bases.skeletal) }
    ensures informative_widths { IfOk result (λ bases. All (λ marks. length marks ≡ width_of set.now) bases.informative) }
    ensures skeletal_widths { IfOk result (λ bases. All (λ marks. length marks ≡ width_of set.now) bases.skeletal) }
{
    let mut members = found(alloc, set)?;
    put_in_order(&mut members);
    bases_of(alloc, &members)
}

/// The kept fusions of all nodes, with their skeletal forms.
fn found(alloc: Global, set: &[Condition]) -> Result<Vec<Member>, NoMemory>
    requires { IsGiven (width_of set.now) set.now }
    ensures { IfOk result (λ found. AreFound (width_of set.now) set.now found.items) }
{
    let mut members = Vec::new(alloc);
    if !set.is_empty() {
        visit(alloc, set, set, &mut members)?;
    }
    Ok(members)
}

/// Puts members in the order of their informative marks, each once.
fn put_in_order(members: &mut Vec<Member>)
    ensures { (n : ℕ) (set : List (List Mark)) → AreFound n set members.old.items → AreListed n set members.new.items }
{
    members.sort_unstable_by(|a, b| order(&a.informative, &b.informative));
    members.dedup_by(|a, b| is_same(&a.informative, &b.informative));
}

/// The two lists of the members' marks.
fn bases_of(alloc: Global, members: &[Member]) -> Result<Bases, NoMemory>
    ensures informative { IfOk result (λ bases. bases.informative ≡ map (λ member. member.informative) members.now) }
    ensures skeletal { IfOk result (λ bases. bases.skeletal ≡ map (λ member. member.skeletal) members.now) }
{
    let mut informative = List::new(alloc);
    let mut skeletal = List::new(alloc);
    for member in members {
        informative.push(member.informative)?;
        skeletal.push(member.skeletal)?;
    }
    Ok(Bases {
        informative,
        skeletal,
    })
}
