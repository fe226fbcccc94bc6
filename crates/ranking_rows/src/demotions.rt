//! Demotion, and the ranking along a hierarchy.

ghost use Rattle.std.specs.Prelude.{◌≡◌, length, All};

use crate::marks::{condition, levels_of, strata};
use Mark::{E, L, W};
use demotion::{Demoted, demote, least_hierarchy, order_of};
use erc_fusion::{fuse, is_contradiction};
use erc_vectors::{Condition, Mark, NoMemory};
use std::alloc::Global;
use std::process::Abort;

/// Demotes the conditions. Where a hierarchy is found it has these levels, and else these positions are left open.
fn check(
    rt: &impl Abort,
    alloc: Global,
    set: &[Condition],
    levels: [u8; 4],
    left_open: &[usize],
) -> Result<(), NoMemory>
    requires { All (λ marks. length marks ≡ 4) set.now }
{
    match demote(alloc, 4, set)? {
        Demoted::Ranked(strata) => assert_eq!(rt; levels_of(&strata), levels),
        Demoted::Stuck(positions) => assert_eq!(rt; positions.as_slice(), left_open),
    }
    assert_eq!(rt; least_hierarchy(4, set).is_some(), left_open.is_empty());
    Ok(())
}

#[test]
fn free_constraints_go_first(rt: HostRuntime) -> Result<(), NoMemory> {
    let set = [
        condition(&rt, [L, E, W, E]),
        condition(&rt, [E, L, W, W]),
        condition(&rt, [E, W, E, L]),
    ];
    check(&rt, rt.alloc(), &set[..0], [1, 1, 1, 1], &[])?;
    check(&rt, rt.alloc(), &set[..2], [2, 2, 1, 1], &[])?;
    check(&rt, rt.alloc(), &set, [2, 2, 1, 3], &[])
}

#[test]
fn open_conditions_are_named(rt: HostRuntime) -> Result<(), NoMemory> {
    let set = [
        condition(&rt, [W, L, E, E]),
        condition(&rt, [L, W, E, E]),
        condition(&rt, [E, L, W, E]),
        condition(&rt, [E, E, L, W]),
        condition(&rt, [E, E, L, L]),
        condition(&rt, [W, E, E, E]),
    ];
    check(&rt, rt.alloc(), &set[..2], [0; 4], &[0, 1])?;
    check(&rt, rt.alloc(), &set[..4], [0; 4], &[0, 1])?;
    let all = &set[..];
    check(&rt, rt.alloc(), &all[2..], [0; 4], &[0, 1, 2])?;
    let turned = [set[3], set[0], set[1]];
    check(&rt, rt.alloc(), &turned, [0; 4], &[1, 2])?;
    check(&rt, rt.alloc(), &set, [0; 4], &[0, 1, 2, 3, 4])?;
    assert!(rt; is_contradiction(&fuse(&set[..2])));
    Ok(())
}

#[test]
fn a_ranking_goes_along_the_strata(rt: HostRuntime) {
    let order = order_of(&strata(&rt, [2, 1, 2, 1]));
    for (marks, kept) in [
        ([E, W, E, L], true),
        ([E, L, E, W], false),
        ([L, E, E, W], true),
        ([W, E, L, E], true),
        ([L, E, W, E], false),
    ] {
        assert_eq!(rt; condition(&rt, marks).satisfied_by(&order), kept);
    }
    let order = order_of(&strata(&rt, [255, 1, 254, 254]));
    assert!(rt; condition(&rt, [L, E, E, W]).satisfied_by(&order));
    assert!(rt; condition(&rt, [L, E, W, E]).satisfied_by(&order));
}
