//! The conditions of a set by the masks of their W's.

ghost use Rattle.std.specs.Prelude.{◌≡◌, ◌<◌, ℕ, not, true, length, filter, All, IfOk};
ghost use Rattle.std.specs.Int.{bit_at};
ghost use Rattle.std.specs.List.{list_any};
ghost use Rattle.ot_theory.specs.Conditions.{mark_at, is_win, is_loss};
ghost use Rattle.erc_fusion.specs.Joined.{IsJoined};
ghost use Rattle.fusional_reduction.specs.Chosen.{wins_in, lacks_in, IsShared};

use erc_vectors::{Condition, Mask, NoMemory};
use std::alloc::Global;

/// Whether a condition has W at some constraint of the mask.
fn wins_in(condition: &Condition, mask: Mask) -> bool
    ensures { result ≡ wins_in mask condition.now }
{
    condition.w_mask() & mask != 0
}

/// Whether a condition has no W at some constraint of the mask.
fn lacks_in(condition: &Condition, mask: Mask) -> bool
    ensures { result ≡ lacks_in mask condition.now }
{
    mask & !condition.w_mask() != 0
}

/// The conditions with no W at the constraints of the mask.
pub(crate) fn without_wins(
    alloc: Global,
    set: &[Condition],
    mask: Mask,
) -> Result<Vec<Condition>, NoMemory>
    ensures { IfOk result (λ kept. kept.items ≡ filter (λ marks. not (wins_in mask marks)) set.now) }
{
    let mut kept = Vec::new(alloc);
    for condition in set {
        if !wins_in(condition, mask) {
            kept.push(*condition)?;
        }
    }
    Ok(kept)
}

/// The conditions with W at some constraint of the mask.
pub(crate) fn with_wins(
    alloc: Global,
    set: &[Condition],
    mask: Mask,
) -> Result<Vec<Condition>, NoMemory>
    ensures { IfOk result (λ kept. kept.items ≡ filter (wins_in mask) set.now) }
{
    let mut kept = Vec::new(alloc);
    for condition in set {
        if wins_in(condition, mask) {
            kept.push(*condition)?;
        }
    }
    Ok(kept)
}

/// The L's of the conditions that have no W at some constraint of the mask.
pub(crate) fn losses_lacking(set: &[Condition], mask: Mask) -> Mask
    ensures { IsJoined is_loss (filter (lacks_in mask) set.now) result }
{
    let mut losses = 0;
    for condition in set {
        if lacks_in(condition, mask) {
            losses |= condition.l_mask();
        }
    }
    losses
}

/// The constraints at which some condition has W.
fn joined_wins(set: &[Condition]) -> Mask
    ensures { IsJoined is_win set.now result }
{
    let mut wins = 0;
    for condition in set {
        wins |= condition.w_mask();
    }
    wins
}

/// The constraints at which each condition has W, and the bits that stand for no constraint where there is no condition.
fn shared_wins(set: &[Condition]) -> Mask
    ensures { IsShared set.now result }
{
    let mut wins = Mask::MAX;
    for condition in set {
        wins &= condition.w_mask();
    }
    wins
}

/// Some of the given constraints at which a condition of the group has no W: those at which none of them has it, if there
/// are any, and else the first at which one lacks it. No constraint exactly where each has W at each given constraint.
pub(crate) fn away_of(wins: Mask, group: &[Condition]) -> Mask
    requires { 0 < length group.now }
    ensures within { (c : ℕ) → bit_at result c ≡ 1 → bit_at wins c ≡ 1 }
    ensures none { result ≡ 0 → All (λ marks. (c : ℕ) → bit_at wins c ≡ 1 → is_win (mark_at marks c) ≡ true) group.now }
    ensures some { 0 < result → list_any (λ marks. not (wins_in result marks)) group.now ≡ true }
{
    let lacking = wins & !joined_wins(group);
    if lacking != 0 {
        return lacking;
    }
    let lacked = wins & !shared_wins(group);
    if lacked == 0 {
        return 0;
    }
    1 << lacked.trailing_zeros()
}
