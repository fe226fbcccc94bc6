//! Biased demotion, and the r-measure.

ghost use Rattle.std.specs.Prelude.{◌≡◌, ◌≤◌, length, All};
ghost use Rattle.erc_vectors.specs.declared.condition.TheConstants.{LIMIT};

use crate::marks::{condition, levels_of, strata};
use Mark::{E, L, W};
use biased_demotion::{biased, r_measure};
use demotion::{Demoted, demote};
use erc_vectors::{Condition, Mark, NoMemory};
use std::alloc::Global;
use std::process::Abort;

/// Biased demotion of the conditions gives these stratum numbers, and the hierarchy has this r-measure.
fn check<const N: usize>(
    rt: &impl Abort,
    alloc: Global,
    set: &[Condition],
    faith: [bool; N],
    levels: [u8; N],
    measure: u32,
) -> Result<(), NoMemory>
    requires within { N ≤ LIMIT }
    requires widths { All (λ marks. length marks ≡ N) set.now }
{
    let found = biased(alloc, set, &faith)?;
    assert!(rt; matches!(&found, Demoted::Ranked(_)));
    if let Demoted::Ranked(strata) = &found {
        assert_eq!(rt; levels_of(strata), levels);
        assert_eq!(rt; r_measure(strata, &faith), measure);
    }
    Ok(())
}

/// Biased demotion of the conditions leaves these open, as plain demotion does.
fn check_stuck(
    rt: &impl Abort,
    alloc: Global,
    set: &[Condition],
    faith: [bool; 5],
    left_open: &[usize],
) -> Result<(), NoMemory>
    requires { All (λ marks. length marks ≡ 5) set.now }
{
    for found in [biased(alloc, set, &faith)?, demote(alloc, 5, set)?] {
        assert!(rt; matches!(&found, Demoted::Stuck(_)));
        if let Demoted::Stuck(positions) = &found {
            assert_eq!(rt; positions.as_slice(), left_open);
        }
    }
    Ok(())
}

/// Plain demotion of the conditions gives these stratum numbers.
fn check_plain(
    rt: &impl Abort,
    alloc: Global,
    set: &[Condition],
    levels: [u8; 5],
) -> Result<(), NoMemory>
    requires { All (λ marks. length marks ≡ 5) set.now }
{
    let found = demote(alloc, 5, set)?;
    assert!(rt; matches!(&found, Demoted::Ranked(_)));
    if let Demoted::Ranked(strata) = &found {
        assert_eq!(rt; levels_of(strata), levels);
    }
    Ok(())
}

#[test]
fn free_markedness_goes_first(rt: HostRuntime) -> Result<(), NoMemory> {
    let faith = [false, false, true, true, true];
    let set = [condition(&rt, [W, E, L, E, E])];
    check(&rt, rt.alloc(), &set[..0], faith, [1, 1, 2, 2, 2], 6)?;
    check(&rt, rt.alloc(), &set, faith, [1, 1, 2, 2, 2], 6)
}

#[test]
fn one_faithfulness_constraint_that_frees_most(rt: HostRuntime) -> Result<(), NoMemory> {
    let faith = [false, false, true, true, true];
    let both = [
        condition(&rt, [L, E, W, E, E]),
        condition(&rt, [E, L, W, W, E]),
    ];
    check(&rt, rt.alloc(), &both, faith, [2, 2, 1, 3, 3], 4)?;
    check_plain(&rt, rt.alloc(), &both, [2, 2, 1, 1, 1])?;
    let later = [
        condition(&rt, [L, E, E, W, E]),
        condition(&rt, [E, L, E, E, W]),
        condition(&rt, [E, E, L, E, W]),
    ];
    let faith = [false, false, false, true, true];
    check(&rt, rt.alloc(), &later, faith, [4, 2, 2, 3, 1], 2)
}

#[test]
fn one_of_two_that_would_do(rt: HostRuntime) -> Result<(), NoMemory> {
    let set = [condition(&rt, [L, E, W, E]), condition(&rt, [E, L, W, W])];
    let faith = [false, false, true, true];
    check(&rt, rt.alloc(), &set, faith, [2, 2, 1, 3], 2)
}

#[test]
fn the_first_of_those_that_free_as_many(rt: HostRuntime) -> Result<(), NoMemory> {
    let set = [
        condition(&rt, [L, E, W, E, E]),
        condition(&rt, [E, L, E, W, E]),
    ];
    let faith = [false, false, true, true, true];
    check(&rt, rt.alloc(), &set, faith, [2, 4, 1, 3, 5], 3)
}

#[test]
fn all_that_are_active_where_none_frees_alone(rt: HostRuntime) -> Result<(), NoMemory> {
    let set = [
        condition(&rt, [L, L, W, E, E]),
        condition(&rt, [L, L, E, W, E]),
    ];
    let faith = [false, false, true, true, true];
    check(&rt, rt.alloc(), &set, faith, [2, 2, 1, 1, 3], 2)
}

/// A placed markedness constraint is no reason to place a faithfulness constraint alone: after the first, the fourth and the
/// fifth have been placed the third is still blocked.
#[test]
fn what_is_placed_is_not_made_free(rt: HostRuntime) -> Result<(), NoMemory> {
    let set = [
        condition(&rt, [E, L, W, E, E]),
        condition(&rt, [E, E, L, E, W]),
        condition(&rt, [L, E, E, W, E]),
    ];
    let faith = [false, false, true, true, true];
    check(&rt, rt.alloc(), &set, faith, [2, 5, 4, 1, 3], 2)
}

#[test]
fn all_that_are_left(rt: HostRuntime) -> Result<(), NoMemory> {
    let set = [condition(&rt, [E, E, L, W, E])];
    let faith = [true, false, false, true, true];
    check(&rt, rt.alloc(), &set, faith, [4, 1, 3, 2, 4], 5)
}

#[test]
fn no_stratum_as_in_plain_demotion(rt: HostRuntime) -> Result<(), NoMemory> {
    let set = [
        condition(&rt, [W, L, L, E, E]),
        condition(&rt, [L, W, E, E, W]),
        condition(&rt, [W, W, W, E, W]),
    ];
    let faith = [false, true, true, false, true];
    check(&rt, rt.alloc(), &set, faith, [3, 4, 4, 1, 2], 5)?;
    check_plain(&rt, rt.alloc(), &set, [2, 3, 3, 1, 1])
}

#[test]
fn open_conditions_are_named(rt: HostRuntime) -> Result<(), NoMemory> {
    let set = [
        condition(&rt, [E, E, L, W, E]),
        condition(&rt, [W, L, E, E, E]),
        condition(&rt, [L, W, E, E, E]),
        condition(&rt, [W, E, E, E, E]),
    ];
    let faith = [false, true, false, true, false];
    check_stuck(&rt, rt.alloc(), &set, faith, &[1, 2])
}

#[test]
fn hierarchies_without_conditions(rt: HostRuntime) -> Result<(), NoMemory> {
    for (faith, levels, measure) in [
        ([false, true, true], [1, 2, 2], 2),
        ([true, true, true], [1, 1, 1], 0),
        ([false, false, false], [1, 1, 1], 0),
        ([false, false, true], [1, 1, 2], 2),
    ] {
        check(&rt, rt.alloc(), &[], faith, levels, measure)?;
    }
    Ok(())
}

/// Equal strata count for nothing.
#[test]
fn only_strictly_higher_strata_are_counted(rt: HostRuntime) {
    let strata = strata(&rt, [1, 2, 2, 3, 2]);
    assert_eq!(rt; r_measure(&strata, &[false, false, true, true, false]), 4);
    assert_eq!(rt; r_measure(&strata, &[true, true, false, false, false]), 0);
}
