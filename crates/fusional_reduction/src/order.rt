//! The order of the members of a basis.

ghost use Rattle.std.specs.Prelude.{◌≡◌, map};
ghost use Rattle.std.specs.Ordering.{nat_cmp, eq_by_cmp};
ghost use Rattle.std.specs.Cmp.Lexicographic.{slice_cmp};
ghost use Rattle.fusional_reduction.specs.Bases.{place_of};

use erc_vectors::{ConId, Condition, Mark};
use std::cmp::Ordering;

/// The place of a mark in the order: W comes before e, and e before L.
fn place(mark: Mark) -> u8
    ensures { result ≡ place_of mark }
{
    match mark {
        Mark::W => 0,
        Mark::E => 1,
        Mark::L => 2,
    }
}

/// Which of two conditions comes first: the one with the earlier mark at the first constraint on which they differ.
pub(crate) fn order(a: &Condition, b: &Condition) -> Ordering
    ensures { result ≡ slice_cmp nat_cmp (map place_of a.now) (map place_of b.now) }
{
    for k in 0..a.width().min(b.width()) {
        let c = ConId(k as u16);
        let (mark, other) = (place(a.mark(c)), place(b.mark(c)));
        if mark != other {
            return mark.cmp(&other);
        }
    }
    a.width().cmp(&b.width())
}

/// Whether two conditions are equal.
pub(crate) fn is_same(a: &Condition, b: &Condition) -> bool
    ensures { result ≡ eq_by_cmp (slice_cmp nat_cmp) (map place_of a.now) (map place_of b.now) }
{
    matches!(order(a, b), Ordering::Equal)
}
