ghost use Rattle.std.specs.Prelude.{◌≡◌, ◌≤◌, true, false, length, map, All, IfOk, IfSome, IfNone, OnErr};
ghost use Rattle.std.specs.List.{list_any};
ghost use Rattle.ot_theory.specs.Conditions.{is_loss};
ghost use Rattle.ot_theory.specs.Hierarchies.{IsLeastHierarchy};
ghost use Rattle.ot_theory.specs.Demotion.{is_open, open_positions, AreLeftOpen};
ghost use Rattle.ot_theory.specs.Refutations.{no_ranking_keeps};
ghost use Rattle.demotion.specs.Outcomes.{IfRanked, IfStuck};

use crate::rounds::{is_closed, place_in_rounds};
use erc_vectors::{ConId, Condition, LIMIT, List, Mark, NoMemory, Strata};
use std::alloc::Global;

/// What demotion of a set of conditions comes to.
#[derive(Debug, Drop)]
pub enum Demoted {
    /// The least hierarchy that satisfies the conditions.
    Ranked(Strata),
    /// The positions of the conditions that are left open, ascending.
    Stuck(List<usize>),
}

/// Demotion of conditions that are each of n constraints (Tesar and Smolensky 2000). The set may be empty and may have
/// repeats.
///
/// Ranked comes exactly where some ranking keeps the conditions. Stuck comes where none does, with the positions of the
/// conditions that are left open: those with an L none of whose W's is placed in the end. They fuse to an L and no W, and
/// every part of the set whose conditions each have an L and whose fusion has no W is among them. Only these positions take
/// memory, so NoMemory comes only where no ranking keeps the conditions.
pub fn demote(alloc: Global, n: usize, set: &[Condition]) -> Result<Demoted, NoMemory>
    requires within { n ≤ LIMIT }
    requires widths { All (λ marks. length marks ≡ n) set.now }
    ensures ranked { IfOk result (λ demoted. IfRanked demoted (λ levels. (no_ranking_keeps n set.now ≡ false) × IsLeastHierarchy n set.now levels)) }
    ensures stuck { IfOk result (λ demoted. IfStuck demoted (λ positions. (no_ranking_keeps n set.now ≡ true) × AreLeftOpen n set.now positions)) }
    ensures no_memory { OnErr result (no_ranking_keeps n set.now ≡ true) }
{
    let mut levels = [0; LIMIT];
    match hierarchy_of(&mut levels[..n], set) {
        Some(strata) => Ok(Demoted::Ranked(strata)),
        None => Ok(Demoted::Stuck(open_positions(alloc, &levels[..n], set)?)),
    }
}

/// The least hierarchy of conditions that are each of n constraints, and None exactly where no ranking keeps them. It takes
/// no memory.
pub fn least_hierarchy(n: usize, set: &[Condition]) -> Option<Strata>
    requires within { n ≤ LIMIT }
    requires widths { All (λ marks. length marks ≡ n) set.now }
    ensures ranked { IfSome result (λ levels. (no_ranking_keeps n set.now ≡ false) × IsLeastHierarchy n set.now levels) }
    ensures stuck { IfNone result (no_ranking_keeps n set.now ≡ true) }
{
    let mut levels = [0; LIMIT];
    hierarchy_of(&mut levels[..n], set)
}

/// The hierarchy that demotion builds from no placed constraint, if it places all.
fn hierarchy_of(levels: &mut [u8], set: &[Condition]) -> Option<Strata>
    requires small { length levels.old ≤ LIMIT }
    requires unplaced { All (λ level. level ≡ 0) levels.old }
    requires widths { All (λ marks. length marks ≡ length levels.old) set.now }
    ensures ranked { IfSome result (λ strata. (no_ranking_keeps (length levels.old) set.now ≡ false) × IsLeastHierarchy (length levels.old) set.now strata) }
    ensures stuck { IfNone result (no_ranking_keeps (length levels.old) set.now ≡ true) }
    ensures left_open { IfNone result (AreLeftOpen (length levels.old) set.now (open_positions levels.new set.now)) }
{
    place_in_rounds(levels, set);
    Strata::of(levels)
}

/// The positions of the open conditions, ascending.
fn open_positions(alloc: Global, levels: &[u8], set: &[Condition]) -> Result<List<usize>, NoMemory>
    requires { All (λ marks. length marks ≡ length levels.now) set.now }
    ensures { IfOk result (λ positions. positions ≡ open_positions levels.now set.now) }
{
    let mut positions = List::new(alloc);
    for (k, condition) in set.iter().enumerate() {
        if is_open(levels, condition) {
            positions.push(k)?;
        }
    }
    Ok(positions)
}

fn is_open(levels: &[u8], condition: &Condition) -> bool
    requires { length condition.now ≡ length levels.now }
    ensures { result ≡ is_open levels.now condition.now }
{
    has_loss(condition) && !is_closed(levels, condition)
}

fn has_loss(condition: &Condition) -> bool
    ensures { result ≡ list_any is_loss condition.now }
{
    for k in 0..condition.width() {
        if condition.mark(ConId(k as u16)) == Mark::L {
            return true;
        }
    }
    false
}
