//! The masks of the condition of one profile over another, many violations at a time.

ghost use Rattle.std.specs.Prelude.{◌≡◌, ◌+◌, ◌*◌, ◌^◌, ◌≤◌, length, nat_lt};
ghost use Rattle.std.specs.Simd.Lanes.{chunk, mask_l, zip2};
ghost use Rattle.erc_vectors.specs.declared.condition.TheConstants.{LIMIT};
ghost use Rattle.erc_vectors.specs.Masks.{IsMask};
ghost use Rattle.ot_theory.specs.Conditions.{condition, is_win, is_loss};

use erc_vectors::{LIMIT, Mask};
use std::simd::prelude::*;

/// How many violations are compared at a time.
const LANES: usize = 4;

/// The constraints at which the winner has fewer violations than the loser, and those at which it has more.
pub(crate) fn masks_of(winner: &[u32], loser: &[u32]) -> (Mask, Mask)
    requires same { length loser.now ≡ length winner.now }
    requires small { length winner.now ≤ LIMIT }
    ensures wins { IsMask is_win (condition winner.now loser.now) result.0 }
    ensures losses { IsMask is_loss (condition winner.now loser.now) result.1 }
{
    let mut wins: Mask = 0;
    let mut losses: Mask = 0;
    for k in 0..winner.len() / LANES {
        wins |= fewer_in_lanes(winner, loser, LANES * k);
        losses |= fewer_in_lanes(loser, winner, LANES * k);
    }
    for c in winner.len() - winner.len() % LANES..winner.len() {
        wins |= Mask::from(winner[c] < loser[c]) << c;
        losses |= Mask::from(loser[c] < winner[c]) << c;
    }
    (wins, losses)
}

/// Of the constraints from `start` on, as many as there are lanes, those at which the one profile has fewer violations than
/// the other.
#[inline]
fn fewer_in_lanes(fewer: &[u32], more: &[u32], start: usize) -> Mask
    requires fewer { start + LANES ≤ length fewer.now }
    requires more { start + LANES ≤ length more.now }
    requires small { start + LANES ≤ LIMIT }
    ensures { result ≡ mask_l (zip2 nat_lt (chunk start LANES fewer.now) (chunk start LANES more.now)) * 2 ^ start }
{
    let fewer = u32x4::from_slice(&fewer[start..]);
    let more = u32x4::from_slice(&more[start..]);
    fewer.simd_lt(more).to_bitmask() << start
}
