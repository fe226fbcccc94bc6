//! Fusion, and which conditions are contradictions.

ghost use Rattle.std.specs.Prelude.{◌≡◌, ◌<◌, length, All};

use crate::marks::condition;
use Mark::{E, L, W};
use erc_fusion::{fuse, is_contradiction};
use erc_vectors::{ConId, Condition, Mark};

fn marks_of(c: &Condition) -> [Mark; 3]
    requires { length c.now ≡ 3 }
{
    [c.mark(ConId(0)), c.mark(ConId(1)), c.mark(ConId(2))]
}

#[test]
fn the_stronger_mark_stays(rt: HostRuntime) {
    for (name, first, second, fused) in [
        ("with itself", [W, L, E], [W, L, E], [W, L, E]),
        ("L over W", [W, W, E], [L, E, E], [L, W, E]),
        ("L over W in the second", [E, L, W], [E, W, L], [E, L, L]),
        ("W over e", [W, E, L], [E, W, W], [W, W, L]),
    ] {
        let set = [condition(&rt, first), condition(&rt, second)];
        assert_eq!(rt; marks_of(&fuse(&set)), fused, "{name}");
        assert_eq!(rt;
            marks_of(&fuse(&set[..1])),
            first,
            "{name}, the first alone"
        );
    }
}

/// 1,001 times the one condition, but the other in one place.
fn all_but_one(most: Condition, one: Condition, place: usize) -> [Condition; 1001]
    requires within { place < 1001 }
    requires most_width { length most ≡ 3 }
    requires one_width { length one ≡ 3 }
    ensures { All (λ marks. length marks ≡ 3) result }
{
    let mut set = [most; 1001];
    set[place] = one;
    set
}

#[test]
fn one_loss_among_many_wins_stays(rt: HostRuntime) {
    let wins = condition(&rt, [W, E, E]);
    let loss = condition(&rt, [L, E, E]);
    for (name, place) in [
        ("in the first lane", 0),
        ("in the second lane", 1),
        ("in the third lane", 502),
        ("in the last lane", 999),
        ("behind the lanes", 1000),
    ] {
        let set = all_but_one(wins, loss, place);
        assert_eq!(rt; marks_of(&fuse(&set)), [L, E, E], "{name}");
    }
}

#[test]
fn a_contradiction_has_a_loss_and_no_win(rt: HostRuntime) {
    for (name, marks, holds) in [
        ("two L", [L, L, E], true),
        ("W before L", [W, L, E], false),
        ("W behind L", [L, E, W], false),
        ("W alone", [W, E, E], false),
        ("even", [E, E, E], false),
        ("L at last", [E, E, L], true),
    ] {
        assert_eq!(rt; is_contradiction(&condition(&rt, marks)), holds, "{name}");
    }
}
