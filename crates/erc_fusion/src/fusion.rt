ghost use Rattle.std.specs.Prelude.{◌≡◌, ◌<◌, ◌^◌, ◌%◌, map, length, All};
ghost use Rattle.ot_theory.specs.Conditions.{mark_at, fused, fusion, width_of, is_contradictory, is_win, is_loss};
ghost use Rattle.erc_fusion.specs.Joined.{IsJoined};

use erc_vectors::{Condition, Mask};
use std::simd::prelude::*;

/// How many conditions are joined at a time.
const LANES: usize = 4;

/// The fusion of conditions, of which there is at least one and which all have the same width: per constraint L if any of
/// them has L, else W if any has W, else e (Prince 2002).
pub fn fuse(set: &[Condition]) -> Condition
    requires some { 0 < length set.now }
    requires widths { All (λ marks. length marks ≡ width_of set.now) set.now }
    ensures fusion { result ≡ fusion (width_of set.now) set.now }
    ensures width { length result ≡ width_of set.now }
{
    let width = set[0].width();
    let (wins, losses) = joined(width, set);
    Condition::of_masks(width, wins & !losses, losses)
}

/// The constraints at which some condition has W, and those at which some has L.
fn joined(width: usize, set: &[Condition]) -> (Mask, Mask)
    requires { All (λ marks. length marks ≡ width) set.now }
    ensures wins { IsJoined is_win set.now result.0 }
    ensures losses { IsJoined is_loss set.now result.1 }
    ensures wins_below { result.0 < 2 ^ width }
    ensures losses_below { result.1 < 2 ^ width }
{
    let whole = set.len() - set.len() % LANES;
    let (mut wins, mut losses) = joined_in_lanes(&set[..whole]);
    for condition in &set[whole..] {
        wins |= condition.w_mask();
        losses |= condition.l_mask();
    }
    (wins, losses)
}

/// The same of a number of conditions that the lanes divide, as many at a time as there are lanes.
fn joined_in_lanes(set: &[Condition]) -> (Mask, Mask)
    requires { length set.now % LANES ≡ 0 }
    ensures wins { IsJoined is_win set.now result.0 }
    ensures losses { IsJoined is_loss set.now result.1 }
{
    let mut wins = u64x4::splat(0);
    let mut losses = u64x4::splat(0);
    for k in 0..set.len() / LANES {
        let four = &set[LANES * k..];
        wins |= u64x4::from_array([
            four[0].w_mask(),
            four[1].w_mask(),
            four[2].w_mask(),
            four[3].w_mask(),
        ]);
        losses |= u64x4::from_array([
            four[0].l_mask(),
            four[1].l_mask(),
            four[2].l_mask(),
            four[3].l_mask(),
        ]);
    }
    (wins.reduce_or(), losses.reduce_or())
}

/// Whether a condition has an L and no W, so that no ranking keeps it.
pub fn is_contradiction(c: &Condition) -> bool
    ensures { result ≡ is_contradictory c.now }
{
    c.l_mask() != 0 && c.w_mask() == 0
}
