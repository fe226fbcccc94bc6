//! The covers of a set of conditions.

ghost use Rattle.std.specs.Prelude.{◌≡◌, false, length, All};
ghost use Rattle.ot_theory.specs.Refutations.{no_ranking_keeps};

use crate::marks::condition;
use Mark::{E, L, W};
use demotion::is_hopeless;
use erc_vectors::{ConId, Condition, Cover, Mark, NoMemory};
use hasse_listing::covers;
use std::alloc::Global;
use std::process::Abort;

fn cover(above: u16, below: u16) -> Cover {
    Cover {
        above: ConId(above),
        below: ConId(below),
    }
}

/// Some ranking keeps the conditions, and these are their covers.
fn check(
    rt: &impl Abort,
    alloc: Global,
    set: &[Condition],
    expected: &[Cover],
) -> Result<(), NoMemory>
    requires { All (λ marks. length marks ≡ 4) set.now }
{
    assert!(rt; !is_hopeless(4, set));
    assert_eq!(rt; covers(alloc, 4, set)?.as_slice(), expected);
    Ok(())
}

#[test]
fn chains_forks_and_joins(rt: HostRuntime) -> Result<(), NoMemory> {
    let chain = [
        condition(&rt, [E, E, W, L]),
        condition(&rt, [W, E, E, L]),
        condition(&rt, [W, L, E, E]),
        condition(&rt, [E, W, L, E]),
        condition(&rt, [W, L, E, E]),
    ];
    let all = &chain[..];
    check(&rt, rt.alloc(), &all[..0], &[])?;
    check(&rt, rt.alloc(), &all[2..4], &[cover(0, 1), cover(1, 2)])?;
    check(
        &rt,
        rt.alloc(),
        all,
        &[cover(0, 1), cover(1, 2), cover(2, 3)],
    )?;
    let fork = [condition(&rt, [E, L, W, L]), condition(&rt, [W, E, W, W])];
    check(&rt, rt.alloc(), &fork, &[cover(2, 1), cover(2, 3)])?;
    let join = [condition(&rt, [W, E, L, E]), condition(&rt, [E, W, L, E])];
    check(&rt, rt.alloc(), &join, &[cover(0, 2), cover(1, 2)])
}

#[test]
fn what_several_conditions_force(rt: HostRuntime) -> Result<(), NoMemory> {
    let two = [condition(&rt, [W, W, L, E]), condition(&rt, [W, L, E, E])];
    let all = &two[..];
    check(&rt, rt.alloc(), &all[..1], &[])?;
    check(&rt, rt.alloc(), &all[1..], &[cover(0, 1)])?;
    check(&rt, rt.alloc(), all, &[cover(0, 1), cover(0, 2)])?;
    let cycle = [
        condition(&rt, [W, W, L, E]),
        condition(&rt, [E, W, E, L]),
        condition(&rt, [L, E, E, W]),
    ];
    check(
        &rt,
        rt.alloc(),
        &cycle,
        &[cover(1, 2), cover(1, 3), cover(3, 0)],
    )?;
    let last = [
        condition(&rt, [L, W, W, E]),
        condition(&rt, [E, L, E, W]),
        condition(&rt, [E, E, L, W]),
    ];
    check(
        &rt,
        rt.alloc(),
        &last,
        &[cover(3, 0), cover(3, 1), cover(3, 2)],
    )
}
