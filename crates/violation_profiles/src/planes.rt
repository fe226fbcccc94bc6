//! The bit planes of a profile, by which two small profiles are compared at all constraints at once.

ghost use Rattle.std.specs.Prelude.{◌≡◌, ◌+◌, ◌<◌, ◌≤◌, ℕ, List, ◌++◌, length, replicate, IfSome, ◌-◌, nat_lt};
ghost use Rattle.erc_vectors.specs.declared.condition.TheConstants.{LIMIT};
ghost use Rattle.erc_vectors.specs.Masks.{IsMask};
ghost use Rattle.ot_theory.specs.Conditions.{condition, is_win, is_loss};
ghost use Rattle.violation_profiles.specs.declared.planes.TheConstants.{LANES};
ghost use Rattle.violation_profiles.specs.Planes.{plane, planes_of, has_bit, is_large, key_in, AreFewer};

use erc_vectors::{LIMIT, Mask};
use std::simd::prelude::*;

/// How many violations are looked at at a time.
const LANES: usize = 16;

/// The constraints whose violations have the lowest bit set, those that have the next, and those that have the third, and
/// those with more violations than three bits tell.
#[derive(Clone, Copy, Debug)]
pub(crate) struct Planes {
    ones: Mask,
    twos: Mask,
    fours: Mask,
    large: Mask,
}

impl Planes {
    /// The planes of a profile.
    pub(crate) fn of(profile: &[u32]) -> Planes
        requires { length profile.now ≤ LIMIT }
        ensures { result ≡ planes_of profile.now }
    {
        let mut planes = Planes {
            ones: 0,
            twos: 0,
            fours: 0,
            large: 0,
        };
        for k in 0..profile.len() / LANES {
            planes.put(u32x16::from_slice(&profile[LANES * k..]), LANES * k);
        }
        let start = profile.len() - profile.len() % LANES;
        if start < profile.len() {
            planes.put(padded(&profile[start..]), start);
        }
        planes
    }

    /// Puts down the next violations, which stand from the constraint `start` on.
    #[inline]
    fn put(&mut self, violations: u32x16, start: usize)
        requires lanes { length violations ≡ LANES }
        requires small { start + LANES ≤ LIMIT }
        ensures { (front : List ℕ) → length front ≡ start → self.old ≡ planes_of front → self.new ≡ planes_of (front ++ violations) }
    {
        self.ones |= with_bit(violations, 0) << start;
        self.twos |= with_bit(violations, 1) << start;
        self.fours |= with_bit(violations, 2) << start;
        self.large |= are_large(violations) << start;
    }

    /// A number, by which most planes that differ are told apart.
    pub(crate) fn key(&self) -> u64
        ensures { result ≡ key_in self.now }
    {
        let twos = self.twos.wrapping_mul(0x9E37_79B9_7F4A_7C15);
        let fours = self.fours.wrapping_mul(0xD6E8_FEB8_6659_FD93);
        self.ones.wrapping_add(twos).wrapping_add(fours)
    }

    /// The constraints at which the winner has fewer violations than the loser, and those at which it has more. None where
    /// the planes do not tell.
    #[inline]
    pub(crate) fn masks_over(&self, loser: &Planes) -> Option<(Mask, Mask)>
        ensures { IfSome result (λ masks. (a b : List ℕ) → length b ≡ length a → self.now ≡ planes_of a → loser.now ≡ planes_of b
            → IsMask is_win (condition a b) masks.0 × IsMask is_loss (condition a b) masks.1) }
    {
        if self.large != 0 || loser.large != 0 {
            return None;
        }
        Some((fewer(self, loser), fewer(loser, self)))
    }
}

/// The constraints at which the one profile has fewer violations than the other, by the bits that the planes have.
#[inline]
fn fewer(a: &Planes, b: &Planes) -> Mask
    ensures { (xs ys : List ℕ) → a.now ≡ planes_of xs → b.now ≡ planes_of ys → AreFewer 3 xs ys result }
{
    let by_one = refined(0, a.ones, b.ones);
    let by_two = refined(by_one, a.twos, b.twos);
    refined(by_two, a.fours, b.fours)
}

/// With one more bit, above the others: where the two differ in it, it decides.
#[inline]
fn refined(fewer: Mask, a: Mask, b: Mask) -> Mask
    ensures { (k : ℕ) (xs ys : List ℕ) → a ≡ plane (has_bit k) xs → b ≡ plane (has_bit k) ys → AreFewer k xs ys fewer → AreFewer (k + 1) xs ys result }
{
    fewer ^ (fewer ^ b) & (a ^ b)
}

/// The lanes in which bit k is set.
#[inline]
fn with_bit(violations: u32x16, k: u32) -> Mask
    requires lanes { length violations ≡ LANES }
    requires bit { k < 32 }
    ensures { result ≡ plane (has_bit k) violations }
{
    let bits = violations & u32x16::splat(1 << k);
    bits.simd_ne(u32x16::splat(0)).to_bitmask()
}

/// The lanes with more bits than there are planes.
#[inline]
fn are_large(violations: u32x16) -> Mask
    requires { length violations ≡ LANES }
    ensures { result ≡ plane is_large violations }
{
    violations.simd_gt(u32x16::splat(7)).to_bitmask()
}

/// Fewer violations than there are lanes, with zeros behind them.
fn padded(violations: &[u32]) -> u32x16
    requires { length violations.now < LANES }
    ensures { result ≡ violations.now ++ replicate (LANES - length violations.now) 0 }
{
    let mut lanes = [0; LANES];
    lanes[..violations.len()].copy_from_slice(violations);
    u32x16::from_array(lanes)
}
