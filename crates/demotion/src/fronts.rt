//! The shortest front of a list of conditions that no ranking keeps.

ghost use Rattle.std.specs.Prelude.{◌≡◌, ◌≢◌, ℕ, ◌+◌, ◌++◌, ◌<◌, ◌≤◌, true, false, length, take, max, bit_or, All, IfNone, IfSome, if◌then◌else◌};
ghost use Rattle.std.specs.Int.{bit_at};
ghost use Rattle.ot_theory.specs.Demotion.{is_blocked};
ghost use Rattle.ot_theory.specs.Refutations.{no_ranking_keeps};
ghost use Rattle.demotion.specs.Placed.{levels_of};

use crate::rounds::{blocked_by, losses_if_open};
use erc_vectors::{Condition, LIMIT};

/// Of conditions that no ranking keeps beside some others, the place of the last one that is needed for that: it ends the
/// shortest front of them that no ranking keeps beside the others. None where no ranking keeps the others alone. It takes no
/// memory.
///
/// No ranking keeps a front that blocks each constraint that is left. So each round goes on with the longest front that leaves
/// some free, and places these: what longer fronts let be placed, the shorter ones do.
pub fn last_needed(n: usize, others: &[Condition], conditions: &[Condition]) -> Option<usize>
    requires within { n ≤ LIMIT }
    requires others { All (λ marks. length marks ≡ n) others.now }
    requires widths { All (λ marks. length marks ≡ n) conditions.now }
    requires hopeless { no_ranking_keeps n (others.now ++ conditions.now) ≡ true }
    ensures alone { IfNone result (no_ranking_keeps n others.now ≡ true) }
    ensures short { IfSome result (λ last. last < length conditions.now) }
    ensures some { IfSome result (λ last. no_ranking_keeps n (others.now ++ take last conditions.now) ≡ false) }
    ensures none { IfSome result (λ last. no_ranking_keeps n (others.now ++ take (last + 1) conditions.now) ≡ true) }
{
    let mut placed = 0;
    let mut last = conditions.len();
    while placed != u64::MAX {
        let blocked = blocked_by(placed, others);
        if placed | blocked == u64::MAX {
            return None;
        }
        let (front, blocked) = free_front(placed, blocked, &conditions[..last]);
        placed |= !blocked;
        last = front;
    }
    Some(last)
}

/// How many conditions, from the first on, leave a constraint free beside those that are blocked before, and what is blocked
/// with these.
fn free_front(placed: u64, before: u64, conditions: &[Condition]) -> (usize, u64)
    requires widths { All (λ marks. length marks ≤ LIMIT) conditions.now }
    requires free { bit_or placed before ≢ 18446744073709551615 }
    ensures short { result.0 ≤ length conditions.now }
    ensures free { bit_or placed result.1 ≢ 18446744073709551615 }
    ensures blocked { (c : ℕ) → bit_at result.1 c ≡ max (bit_at before c) (if is_blocked (levels_of placed) (take result.0 conditions.now) c then 1 else 0) }
    ensures full { result.0 < length conditions.now → (c : ℕ) → c < LIMIT → bit_at placed c ≡ 0 → max (bit_at before c) (if is_blocked (levels_of placed) (take (result.0 + 1) conditions.now) c then 1 else 0) ≡ 1 }
{
    let mut blocked = before;
    for (k, condition) in conditions.iter().enumerate() {
        let more = blocked | losses_if_open(placed, condition);
        if placed | more == u64::MAX {
            return (k, blocked);
        }
        blocked = more;
    }
    (conditions.len(), blocked)
}
