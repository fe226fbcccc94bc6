//! The next stratum over the constraints that are placed: the first of four rules that gives something.

ghost use Rattle.std.specs.Prelude.{◌≡◌, ℕ, ◌<◌, ◌≤◌, ◌^◌, ◌==◌, true, false, length, slice_index, filter, All, IfSome, IfNone};
ghost use Rattle.ot_theory.specs.Rankings.{numbers_below};
ghost use Rattle.ot_theory.specs.Demotion.{is_blocked, is_open};
ghost use Rattle.demotion.specs.Placed.{levels_of, has_bit};
ghost use Rattle.biased_demotion.specs.Biased.{is_free, has_open_win, IsNext};
ghost use Rattle.biased_demotion.specs.Shown.{Shows, freed_in, IsFirstGreatest};

use crate::kinds::{bit_of, has_bit, kinds_of, placed_in};
use erc_vectors::{Condition, LIMIT, Mask};

/// What the open conditions say: the constraints at which one of them has L, and those at which one has W.
#[derive(Clone, Copy)]
struct OpenMarks {
    losses: Mask,
    wins: Mask,
}

/// The next stratum over the constraints that have a number, and no constraint where none is free.
pub(crate) fn next_stratum(faith: &[bool], levels: &[u8], set: &[Condition]) -> Mask
    requires small { length faith.now ≤ LIMIT }
    requires same { length levels.now ≡ length faith.now }
    requires widths { All (λ marks. length marks ≡ length faith.now) set.now }
    ensures next { 0 < result → IsNext faith.now levels.now set.now (filter (has_bit result) (numbers_below (length faith.now))) }
    ensures free { (c : ℕ) → has_bit result c ≡ true → (c < length faith.now) × (is_free levels.now set.now c ≡ true) }
    ensures none { result ≡ 0 → (c : ℕ) → c < length faith.now → is_free levels.now set.now c ≡ false }
{
    let kinds = kinds_of(faith);
    let placed = placed_in(levels);
    let open = open_marks(placed, set);
    let free = !(placed | open.losses);
    let free_markedness = kinds.markedness & free;
    if free_markedness != 0 {
        return free_markedness;
    }
    let free_faithfulness = kinds.faithfulness & free;
    let active = free_faithfulness & open.wins;
    if active == 0 {
        return free_faithfulness;
    }
    match most_freeing(active, placed, kinds.markedness, set) {
        Some(c) => bit_of(c),
        None => active,
    }
}

/// Of these constraints the one that, placed alone, makes the greatest number of markedness constraints free, and the first
/// of those that make as many free. None where none makes any free.
fn most_freeing(
    candidates: Mask,
    placed: Mask,
    markedness: Mask,
    set: &[Condition],
) -> Option<usize>
    requires { All (λ marks. length marks ≤ LIMIT) set.now }
    ensures some { IfSome result (λ c. IsFirstGreatest 64 (has_bit candidates) (freed_in markedness placed set.now) c) }
    ensures none { IfNone result ((c : ℕ) → c < 64 → has_bit candidates c ≡ true → freed_in markedness placed set.now c ≡ 0) }
{
    let mut best = None;
    let mut most = 0;
    for c in 0..LIMIT {
        if has_bit(candidates, c) {
            let freed = freed_by(c, placed, markedness, set);
            if freed > most {
                best = Some(c);
                most = freed;
            }
        }
    }
    best
}

/// The number of markedness constraints that are not placed and are free once this constraint is placed alone.
fn freed_by(c: usize, placed: Mask, markedness: Mask, set: &[Condition]) -> u32
    requires within { c < LIMIT }
    requires widths { All (λ marks. length marks ≤ LIMIT) set.now }
    ensures { result ≡ freed_in markedness placed set.now c }
{
    let placed = placed | bit_of(c);
    let open = open_marks(placed, set);
    (markedness & !(placed | open.losses)).count_ones()
}

/// What the conditions say that are open where these constraints are placed.
fn open_marks(placed: Mask, set: &[Condition]) -> OpenMarks
    requires { All (λ marks. length marks ≤ LIMIT) set.now }
    ensures losses { Shows result.losses (is_blocked (levels_of placed) set.now) }
    ensures wins { Shows result.wins (has_open_win (levels_of placed) set.now) }
{
    let mut losses = 0;
    let mut wins = 0;
    for condition in set {
        if opens(placed, condition) {
            losses |= condition.l_mask();
            wins |= condition.w_mask();
        }
    }
    OpenMarks { losses, wins }
}

/// Whether a condition is open where these constraints are placed: it has an L, and none of its W's is placed.
fn opens(placed: Mask, condition: &Condition) -> bool
    requires { length condition.now ≤ LIMIT }
    ensures { result ≡ is_open (levels_of placed) condition.now }
{
    condition.l_mask() != 0 && condition.w_mask() & placed == 0
}
