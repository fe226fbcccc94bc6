//! Demotion in rounds, with the stratum numbers as its state, 0 for a constraint that is not placed yet, and the placed
//! constraints as the bits of a mask. So a condition is closed where it has a W in common with that mask.

ghost use Rattle.std.specs.Prelude.{◌≡◌, ℕ, ◌+◌, ◌<◌, ◌≤◌, true, false, not, ◌&&◌, length, slice_index, nat_lt, EachIndex, All, Contains, if◌then◌else◌};
ghost use Rattle.std.specs.Int.{bit_at, trailing_zeros, w64};
ghost use Rattle.ot_theory.specs.Rankings.{count_of};
ghost use Rattle.ot_theory.specs.Conditions.{is_loss, mark_at};
ghost use Rattle.ot_theory.specs.Hierarchies.{IsLeastHierarchy};
ghost use Rattle.ot_theory.specs.Demotion.{is_closed, is_blocked, open_positions, AreLeftOpen};
ghost use Rattle.ot_theory.specs.Refutations.{no_ranking_keeps};
ghost use Rattle.demotion.specs.Placed.{levels_of, has_bit};

use erc_vectors::{ConId, Condition, LIMIT, Mark};

/// Places the constraints in rounds, the free ones of each round in the next stratum, until none that is left is free.
pub(crate) fn place_in_rounds(levels: &mut [u8], set: &[Condition])
    requires small { length levels.old ≤ LIMIT }
    requires unplaced { All (λ level. level ≡ 0) levels.old }
    requires widths { All (λ marks. length marks ≡ length levels.old) set.now }
    ensures ranked { All (λ level. 1 ≤ level) levels.new → (no_ranking_keeps (length levels.old) set.now ≡ false) × IsLeastHierarchy (length levels.old) set.now levels.new }
    ensures stuck { Contains levels.new 0 → no_ranking_keeps (length levels.old) set.now ≡ true }
    ensures left_open { Contains levels.new 0 → AreLeftOpen (length levels.old) set.now (open_positions levels.new set.now) }
{
    let mut placed = 0;
    for round in 0..levels.len() {
        if placed == u64::MAX {
            return;
        }
        let blocked = blocked_by(placed, set);
        let free = !(placed | blocked);
        if free.trailing_zeros() as usize >= levels.len() {
            return;
        }
        place(levels, free, round as u8 + 1);
        placed |= !blocked;
    }
}

/// Whether no ranking keeps conditions that are each of n constraints. It takes no memory, and builds no hierarchy: the placed
/// constraints, as bits, are its only state. The bits that stand for no constraint are set in the first round.
pub fn is_hopeless(n: usize, set: &[Condition]) -> bool
    requires within { n ≤ LIMIT }
    requires widths { All (λ marks. length marks ≡ n) set.now }
    ensures { result ≡ no_ranking_keeps n set.now }
{
    prove!(n <= LIMIT);
    let mut placed = 0;
    while placed != u64::MAX {
        let more = placed | !blocked_by(placed, set);
        if more == placed {
            return true;
        }
        placed = more;
    }
    false
}

/// The constraints at which a condition has L of whose W's none is placed, as bits. The placed constraints are the bits of a mask.
pub fn blocked_by(placed: u64, set: &[Condition]) -> u64
    requires { All (λ marks. length marks ≤ LIMIT) set.now }
    ensures { (c : ℕ) → bit_at result c ≡ (if is_blocked (levels_of placed) set.now c then 1 else 0) }
{
    let mut blocked = 0;
    for condition in set {
        blocked |= losses_if_open(placed, condition);
    }
    blocked
}

/// The constraints at which a condition has L where none of its W's is placed, and else none, as bits. Whether it is closed is
/// hard to foresee. So its L's are read first, which lets the compiler choose without a branch.
pub(crate) fn losses_if_open(placed: u64, condition: &Condition) -> u64
    requires { length condition.now ≤ LIMIT }
    ensures { (c : ℕ) → bit_at result c ≡ (if not (is_closed (levels_of placed) condition.now) && is_loss (mark_at condition.now c) then 1 else 0) }
{
    let losses = condition.l_mask();
    if losses == 0 {
        return 0;
    }
    if condition.w_mask() & placed == 0 {
        losses
    } else {
        0
    }
}

/// Whether a constraint with W is placed.
#[tactic(auto, using(ot_theory::proofs::Enumeration::range_step))]
pub(crate) fn is_closed(levels: &[u8], condition: &Condition) -> bool
    requires { length condition.now ≡ length levels.now }
    ensures { result ≡ is_closed levels.now condition.now }
{
    for k in 0..condition.width() {
        if condition.mark(ConId(k as u16)) == Mark::W && levels[k] > 0 {
            return true;
        }
    }
    false
}

/// Gives the constraints of these bits, which are not placed, this number. Bits that stand for no constraint are passed over.
fn place(levels: &mut [u8], bits: u64, given: u8)
    requires small { length levels.old ≤ LIMIT }
    requires some { 0 < given }
    requires free { EachIndex levels.old (λ c. has_bit bits c ≡ true → slice_index levels.old c ≡ 0) }
    ensures fewer { trailing_zeros w64 bits < length levels.old → count_of 0 levels.new < count_of 0 levels.old }
    ensures each { EachIndex levels.new (λ c. slice_index levels.new c ≡ (if has_bit bits c then given else slice_index levels.old c)) }
{
    let mut left = bits;
    loop {
        let c = left.trailing_zeros() as usize;
        if c >= levels.len() {
            return;
        }
        levels[c] = given;
        left &= !(1 << c);
    }
}
