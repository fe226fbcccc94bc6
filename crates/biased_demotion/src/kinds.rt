//! The constraints of each kind, and those that are placed, as bits of a mask.

ghost use Rattle.std.specs.Prelude.{◌≡◌, ◌≤◌, ◌<◌, ◌^◌, ◌==◌, length, slice_index, nat_lt};
ghost use Rattle.demotion.specs.Placed.{has_bit};
ghost use Rattle.biased_demotion.specs.Biased.{is_faithfulness, is_markedness};
ghost use Rattle.biased_demotion.specs.Shown.{Shows};

use erc_vectors::{LIMIT, Mask};

/// The constraints of each kind.
#[derive(Clone, Copy)]
pub(crate) struct Kinds {
    pub(crate) faithfulness: Mask,
    pub(crate) markedness: Mask,
}

/// The constraints of each kind, from a flag for each that says whether it is a faithfulness constraint.
pub(crate) fn kinds_of(faith: &[bool]) -> Kinds
    requires { length faith.now ≤ LIMIT }
    ensures faithfulness { Shows result.faithfulness (is_faithfulness faith.now) }
    ensures markedness { Shows result.markedness (is_markedness faith.now) }
{
    let mut faithfulness = 0;
    let mut markedness = 0;
    for c in 0..faith.len() {
        if faith[c] {
            faithfulness |= bit_of(c);
        } else {
            markedness |= bit_of(c);
        }
    }
    Kinds {
        faithfulness,
        markedness,
    }
}

/// The constraints that have a number.
pub(crate) fn placed_in(levels: &[u8]) -> Mask
    requires { length levels.now ≤ LIMIT }
    ensures { Shows result (λ c. nat_lt 0 (slice_index levels.now c)) }
{
    let mut placed = 0;
    for c in 0..levels.len() {
        if levels[c] > 0 {
            placed |= bit_of(c);
        }
    }
    placed
}

/// The constraint alone.
pub(crate) fn bit_of(c: usize) -> Mask
    requires { c < LIMIT }
    ensures { result ≡ 2 ^ c }
{
    1 << c
}

/// Whether the bit of a constraint is set.
pub(crate) fn has_bit(mask: Mask, c: usize) -> bool
    requires { c < LIMIT }
    ensures { result ≡ has_bit mask c }
{
    (mask >> c) & 1 == 1
}
