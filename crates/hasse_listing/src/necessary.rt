//! Which constraints stand below one in every ranking that keeps a set of conditions.

ghost use Rattle.std.specs.Prelude.{◌≡◌, ◌<◌, ◌≤◌, false, All, length};
ghost use Rattle.ot_theory.specs.Refutations.{no_ranking_keeps};
ghost use Rattle.hasse_listing.specs.Masks.{AreBelow};

use demotion::blocked_by;
use erc_vectors::{Condition, LIMIT, Mask};

/// The constraints that stand below constraint c in every ranking that keeps the conditions, as bits. They are those that
/// demotion never places as long as it holds c back: one that it places can stand above c, by a ranking along its rounds.
pub(crate) fn necessarily_below(n: usize, c: usize, set: &[Condition]) -> Mask
    requires within { n ≤ LIMIT }
    requires constraint { c < n }
    requires widths { All (λ marks. length marks ≡ n) set.now }
    requires kept { no_ranking_keeps n set.now ≡ false }
    ensures { AreBelow n set.now c result }
{
    let held: Mask = 1 << c;
    let mut placed: Mask = 0;
    loop {
        let more = placed | !(blocked_by(placed, set) | held);
        if more == placed {
            return !(placed | held);
        }
        placed = more;
    }
}
