//! The condition of a given pair.

ghost use Rattle.std.specs.Prelude.{◌≡◌, ◌≤◌, length};
ghost use Rattle.erc_vectors.specs.declared.condition.TheConstants.{LIMIT};
ghost use Rattle.ot_base.specs.Tableaus.{pair_of};
ghost use Rattle.ot_theory.specs.Conditions.{over};
ghost use Rattle.ot_theory.specs.Problems.{IsPair};

use erc_vectors::{Condition, Mask};
use ot_base::Pair;

/// The condition with W at the upper constraint of a pair, L at the lower one and e elsewhere.
pub(crate) fn over(width: usize, pair: Pair) -> Condition
    requires few { width ≤ LIMIT }
    requires pair { IsPair width (pair_of pair) }
    ensures marks { result ≡ over width pair.above.0 pair.below.0 }
    ensures width { length result ≡ width }
{
    let above: Mask = 1 << pair.above.0;
    let below: Mask = 1 << pair.below.0;
    Condition::of_masks(width, above, below)
}
