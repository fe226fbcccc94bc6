//! Conditions, rankings and hierarchies, and the list that grows.

ghost use Rattle.std.specs.Prelude.{◌≡◌, length};

use crate::marks::{condition, strata};
use Mark::{E, L, W};
use erc_vectors::{ConId, Condition, LIMIT, List, Mark, Mask, NoMemory, Order, Strata};
use std::process::Abort;

fn order(rt: &impl Abort, places: [u16; 3]) -> Order
    ensures { length result ≡ 3 }
{
    Order::of(&places.map(ConId)).expect(rt, "a ranking")
}

#[test]
fn a_ranking_keeps_by_its_first_mark_that_is_not_even(rt: HostRuntime) {
    for (name, marks, places, kept) in [
        ("W is first", [W, L, E], [0, 1, 2], true),
        ("L is first", [W, L, E], [2, 1, 0], false),
        ("all are even", [E, E, E], [1, 2, 0], true),
        ("W is last", [E, E, W], [0, 1, 2], true),
    ] {
        let condition = condition(&rt, marks);
        let order = order(&rt, places);
        assert_eq!(rt; condition.satisfied_by(&order), kept, "{name}");
    }
}

#[test]
fn the_masks_have_a_bit_for_each_win_and_loss(rt: HostRuntime) {
    for (name, marks, wins, losses) in [
        ("even", [E, E, E], 0, 0),
        ("one of each", [W, L, E], 0b001, 0b010),
        ("last wins", [L, E, W], 0b100, 0b001),
        ("all lose", [L, L, L], 0, 0b111),
    ] {
        let condition = condition(&rt, marks);
        assert_eq!(rt;
            (condition.w_mask(), condition.l_mask()),
            (wins, losses),
            "{name}"
        );
        assert_eq!(rt; condition.has_both(), wins != 0 && losses != 0, "{name}");
        let negated = condition.negated();
        assert_eq!(rt;
            (negated.w_mask(), negated.l_mask()),
            (losses, wins),
            "{name}, negated"
        );
    }
    let full = Condition::of_masks(LIMIT, Mask::MAX, 0);
    assert_eq!(rt;
        full.mark(ConId(LIMIT as u16 - 1)),
        W,
        "of as many constraints as the limit"
    );
}

#[test]
fn a_hierarchy_satisfies_by_strict_strata(rt: HostRuntime) {
    for (name, marks, levels, satisfied, lowest) in [
        ("W above L", [W, L, E], [1, 2, 1], true, 2),
        ("W beside L", [W, L, E], [1, 1, 1], false, 1),
        ("W below one L", [W, L, L], [2, 3, 1], false, 3),
        ("one of two W's above L", [W, W, L], [3, 1, 2], true, 3),
        ("no W", [L, E, E], [2, 1, 1], false, 2),
        ("no L", [W, E, E], [2, 1, 1], true, 2),
    ] {
        let condition = condition(&rt, marks);
        let strata = strata(&rt, levels);
        assert_eq!(rt; strata.satisfies(&condition), satisfied, "{name}");
        assert_eq!(rt; strata.lowest(), lowest, "{name}");
    }
    let condition = Condition::of_masks(LIMIT, 1, 1 << (LIMIT - 1));
    for (name, last, satisfied) in [
        ("the last of as many as the limit beside", 1, false),
        ("the last of as many as the limit below", 2, true),
    ] {
        let mut levels = [1; LIMIT];
        levels[LIMIT - 1] = last;
        let strata = Strata::of(&levels).expect(&rt, "as many levels as the limit");
        assert_eq!(rt; strata.satisfies(&condition), satisfied, "{name}");
    }
}

#[test]
fn malformed_lists_are_refused(rt: HostRuntime) {
    assert!(rt;
        Condition::of(&[E; LIMIT]).is_some(),
        "as many marks as the limit"
    );
    assert!(rt; Condition::of(&[E; LIMIT + 1]).is_none(), "a mark more");
    for (name, list) in [
        ("a constraint twice", [0, 0, 2]),
        ("one that is none", [1, 2, 3]),
    ] {
        assert!(rt; Order::of(&list.map(ConId)).is_none(), "{name}");
    }
    assert!(rt;
        Strata::of(&[1; LIMIT + 1]).is_none(),
        "more numbers than the limit"
    );
    assert!(rt; Strata::of(&[1, 0]).is_none(), "a stratum 0");
}

#[test]
fn a_list_gives_back_its_last_item(rt: HostRuntime) -> Result<(), NoMemory> {
    let mut list = List::of(rt.alloc(), &[3, 5])?;
    list.reserve(1)?;
    list.push(7)?;
    assert_eq!(rt; list.as_slice(), [3, 5, 7].as_slice());
    for (name, last) in [
        ("pushed", Some(7)),
        ("second", Some(5)),
        ("first", Some(3)),
        ("none", None),
    ] {
        assert_eq!(rt; list.pop(), last, "{name}");
    }
    let filled = List::from_vec(vec![in rt.alloc(); 1; 4]?);
    assert_eq!(rt; filled.len(), 4);
    Ok(())
}
