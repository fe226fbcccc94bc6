//! The nodes that members lead to.
//!
//! The fusion of a node is kept only if a condition of the node has W at each constraint at which the fusion has it. So the nodes
//! are looked for from the conditions: a condition goes on below a node as long as it has e where the fusion has W. Conditions
//! that go the same way go together, so each node on the way is made once for all of them.

ghost use Rattle.std.specs.Prelude.{◌≡◌, ◌<◌, ◌++◌, [], ◌∷◌, length, All, OnOk, if◌then◌else◌};
ghost use Rattle.ot_theory.specs.Conditions.{width_of, fusion};
ghost use Rattle.ot_theory.proofs.Sets.{IsPart};
ghost use Rattle.fusional_reduction.specs.Nodes.{is_kept};
ghost use Rattle.fusional_reduction.specs.Visits.{IsGiven, IsVisited, member_of};

use crate::masks::{away_of, losses_lacking, with_wins, without_wins};
use crate::member::Member;
use erc_fusion::fuse;
use erc_vectors::{Condition, NoMemory};
use std::alloc::Global;

/// Adds the kept fusions of the nodes that the conditions of the group, some of the node's, lead to from the node.
pub(crate) fn visit(
    alloc: Global,
    node: &[Condition],
    group: &[Condition],
    members: &mut Vec<Member>,
) -> Result<(), NoMemory>
    requires given { IsGiven (width_of node.now) node.now }
    requires part { IsPart group.now node.now }
    requires some { 0 < length group.now }
    ensures { OnOk result (IsVisited (width_of node.now) node.now group.now members.old.items members.new.items) }
{
    let fused = fuse(node);
    let away = away_of(fused.w_mask(), group);
    if away == 0 {
        return add_member(node, &fused, members);
    }
    let below = without_wins(alloc, node, away)?;
    let even = without_wins(alloc, group, away)?;
    visit(alloc, below.as_slice(), even.as_slice(), members)?;
    let rest = with_wins(alloc, group, away)?;
    if rest.is_empty() {
        return Ok(());
    }
    visit(alloc, node, rest.as_slice(), members)
}

/// Adds the fusion of a node, with its skeletal form, if it is kept: it has an L that the fusion of the residue lacks.
fn add_member(
    node: &[Condition],
    fused: &Condition,
    members: &mut Vec<Member>,
) -> Result<(), NoMemory>
    requires given { IsGiven (width_of node.now) node.now }
    requires some { 0 < length node.now }
    requires fusion { fused.now ≡ fusion (width_of node.now) node.now }
    ensures { OnOk result (members.new.items ≡ members.old.items ++ (if is_kept (width_of node.now) node.now then member_of (width_of node.now) node.now ∷ [] else [])) }
{
    let width = fused.width();
    let wins = fused.w_mask();
    let own = fused.l_mask() & !losses_lacking(node, wins);
    if own != 0 {
        let skeletal = Condition::of_masks(width, wins, own);
        members.push(Member {
            informative: *fused,
            skeletal,
        })?;
    }
    Ok(())
}
