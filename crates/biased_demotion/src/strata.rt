//! Biased demotion in rounds, with the stratum numbers as its state, 0 for a constraint that is not placed yet.

ghost use Rattle.std.specs.Prelude.{◌≡◌, ◌+◌, ◌<◌, ◌≤◌, true, false, not, length, slice_index, EachIndex, All, Contains, IfSome, IfNone};
ghost use Rattle.ot_theory.specs.Rankings.{count_of};
ghost use Rattle.ot_theory.specs.Hierarchies.{Satisfies};
ghost use Rattle.ot_theory.specs.Demotion.{level_after};
ghost use Rattle.ot_theory.specs.Refutations.{no_ranking_keeps};
ghost use Rattle.demotion.specs.Placed.{has_bit};
ghost use Rattle.biased_demotion.specs.Biased.{IsBiased};

use crate::kinds::has_bit;
use crate::next::next_stratum;
use erc_vectors::{Condition, LIMIT, Mask, Strata};

/// The hierarchy of biased demotion, and None exactly where no ranking keeps the conditions. It takes no memory.
pub(crate) fn biased_strata(faith: &[bool], set: &[Condition]) -> Option<Strata>
    requires within { length faith.now ≤ LIMIT }
    requires widths { All (λ marks. length marks ≡ length faith.now) set.now }
    ensures strata { IfSome result (λ levels. IsBiased faith.now set.now levels) }
    ensures satisfied { IfSome result (λ levels. Satisfies (length faith.now) set.now levels) }
    ensures kept { IfSome result (λ levels. no_ranking_keeps (length faith.now) set.now ≡ false) }
    ensures stuck { IfNone result (no_ranking_keeps (length faith.now) set.now ≡ true) }
{
    let mut levels = [0; LIMIT];
    strata_in(&mut levels[..faith.len()], faith, set)
}

fn strata_in(levels: &mut [u8], faith: &[bool], set: &[Condition]) -> Option<Strata>
    requires within { length faith.now ≤ LIMIT }
    requires same { length levels.old ≡ length faith.now }
    requires unplaced { All (λ level. level ≡ 0) levels.old }
    requires widths { All (λ marks. length marks ≡ length faith.now) set.now }
    ensures strata { IfSome result (λ levels. IsBiased faith.now set.now levels) }
    ensures satisfied { IfSome result (λ levels. Satisfies (length faith.now) set.now levels) }
    ensures kept { IfSome result (λ levels. no_ranking_keeps (length faith.now) set.now ≡ false) }
    ensures stuck { IfNone result (no_ranking_keeps (length faith.now) set.now ≡ true) }
{
    place_in_rounds(levels, faith, set);
    Strata::of(levels)
}

/// Places the constraints in rounds, those of the next stratum each time, until none that is left is free.
fn place_in_rounds(levels: &mut [u8], faith: &[bool], set: &[Condition])
    requires small { length faith.now ≤ LIMIT }
    requires same { length levels.old ≡ length faith.now }
    requires unplaced { All (λ level. level ≡ 0) levels.old }
    requires widths { All (λ marks. length marks ≡ length faith.now) set.now }
    ensures strata { All (λ level. 1 ≤ level) levels.new → IsBiased faith.now set.now levels.new }
    ensures satisfied { All (λ level. 1 ≤ level) levels.new → Satisfies (length faith.now) set.now levels.new }
    ensures kept { All (λ level. 1 ≤ level) levels.new → no_ranking_keeps (length faith.now) set.now ≡ false }
    ensures stuck { Contains levels.new 0 → no_ranking_keeps (length faith.now) set.now ≡ true }
{
    for round in 0..levels.len() {
        let stratum = next_stratum(faith, levels, set);
        if stratum == 0 {
            return;
        }
        place(levels, stratum, round as u8 + 1);
    }
}

/// Gives the constraints of a stratum this number, if they have none yet, and answers how many there were.
fn place(levels: &mut [u8], stratum: Mask, given: u8) -> usize
    requires within { length levels.old ≤ LIMIT }
    requires some { 0 < given }
    ensures each { EachIndex levels.new (λ c. slice_index levels.new c ≡ level_after (slice_index levels.old c) (not (has_bit stratum c)) given) }
    ensures counted { count_of 0 levels.new + result ≡ count_of 0 levels.old }
    ensures idle { result ≡ 0 → levels.new ≡ levels.old }
{
    let mut placed = 0;
    for c in 0..levels.len() {
        if levels[c] == 0 && has_bit(stratum, c) {
            levels[c] = given;
            placed += 1;
        }
    }
    placed
}
