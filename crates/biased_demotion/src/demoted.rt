ghost use Rattle.std.specs.Prelude.{◌≡◌, ◌≤◌, true, false, length, All, IfOk, OnErr};
ghost use Rattle.ot_theory.specs.Hierarchies.{Satisfies};
ghost use Rattle.ot_theory.specs.Demotion.{AreLeftOpen};
ghost use Rattle.ot_theory.specs.Refutations.{no_ranking_keeps};
ghost use Rattle.demotion.specs.Outcomes.{IfRanked, IfStuck};
ghost use Rattle.biased_demotion.specs.Biased.{IsBiased};

use crate::strata::biased_strata;
use demotion::{Demoted, demote};
use erc_vectors::{Condition, LIMIT, NoMemory};
use std::alloc::Global;

/// Biased demotion of conditions that are each of as many constraints as there are flags. A flag says of a constraint whether
/// it is a faithfulness constraint; the others are markedness constraints. The set may be empty and may have repeats.
///
/// A constraint is free where it is not placed and no open condition has L at it, and open are the conditions with an L none of
/// whose W's is placed. Each stratum is what the first of these gives that gives something: all free markedness constraints;
/// of the free faithfulness constraints with a W in an open condition the one that, placed alone, makes the greatest number of
/// unplaced markedness constraints free, if it makes any free, and the first in order of those that make as many free; all
/// free faithfulness constraints with a W in an open condition; all free constraints.
///
/// Ranked comes exactly where some ranking keeps the conditions, with the strata of these rules, which satisfy them. Stuck
/// comes where none does, with the positions of the conditions that plain demotion leaves open too: ascending, the greatest
/// part of the set whose conditions each have an L and whose fusion has no W. Only these positions take memory, so NoMemory
/// comes only where no ranking keeps the conditions.
pub fn biased(alloc: Global, set: &[Condition], faith: &[bool]) -> Result<Demoted, NoMemory>
    requires within { length faith.now ≤ LIMIT }
    requires widths { All (λ marks. length marks ≡ length faith.now) set.now }
    ensures kept { IfOk result (λ demoted. IfRanked demoted (λ levels. no_ranking_keeps (length faith.now) set.now ≡ false)) }
    ensures strata { IfOk result (λ demoted. IfRanked demoted (λ levels. IsBiased faith.now set.now levels)) }
    ensures satisfied { IfOk result (λ demoted. IfRanked demoted (λ levels. Satisfies (length faith.now) set.now levels)) }
    ensures stuck { IfOk result (λ demoted. IfStuck demoted (λ positions. (no_ranking_keeps (length faith.now) set.now ≡ true) × AreLeftOpen (length faith.now) set.now positions)) }
    ensures no_memory { OnErr result (no_ranking_keeps (length faith.now) set.now ≡ true) }
{
    match biased_strata(faith, set) {
        Some(strata) => Ok(Demoted::Ranked(strata)),
        None => demote(alloc, faith.len(), set),
    }
}
