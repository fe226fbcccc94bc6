//! The classes of inputs, their winners, and the conditions between classes.

ghost use Rattle.std.specs.Prelude.{◌<◌, length};

use crate::problems::problem;
use crate::shown::push_marks;
use ot_base::{ClassId, InId};
use std::alloc::Global;
use std::test::Fail;
use violation_profiles::Problem;

/// A candidate's count and its violations of four constraints.
type Row = (u64, [u8; 4]);

/// The marks of the conditions of each class of an input over each other one.
fn push_conditions(text: &mut String, problem: &Problem, i: InId) -> Result<(), Fail>
    requires { i.0 < length problem.now.inputs }
{
    for a in 0..problem.classes(i) {
        for b in 0..problem.classes(i) {
            if a != b {
                let condition = problem.condition(i, ClassId(a as u16), ClassId(b as u16));
                push_marks(text, &condition)?;
            }
        }
    }
    Ok(())
}

/// Of each input the classes, with profile and members, then its winner, then the conditions between its classes.
fn shown(alloc: Global, problem: &Problem) -> Result<String, Fail> {
    let mut text = String::new(alloc);
    for k in 0..problem.inputs() {
        let i = InId(k as u32);
        for a in 0..problem.classes(i) {
            let class = ClassId(a as u16);
            let profile = problem.profile(i, class);
            let members = problem.members(i, class);
            write!(text, "{profile:?} {members:?} ")?;
        }
        let winner = problem.winner(i).map(|a| a.0);
        write!(text, "{winner:?} ")?;
        push_conditions(&mut text, problem, i)?;
    }
    Ok(text)
}

/// What a tableau of these rows poses.
fn posed(alloc: Global, rows: &[[Row; 3]; 2]) -> Result<String, Fail> {
    shown(alloc, &problem(alloc, rows)?)
}

#[test]
fn basic_syllable_structure(rt: HostRuntime) -> Result<(), Fail> {
    let rows = [
        [(1, [1, 0, 0, 0]), (0, [0, 0, 0, 1]), (0, [0, 0, 1, 0])],
        [(1, [0, 1, 0, 0]), (0, [0, 0, 0, 1]), (0, [0, 0, 1, 0])],
    ];
    assert_eq!(rt;
        posed(rt.alloc(), &rows)?.as_str(),
        "[1, 0, 0, 0] [0] [0, 0, 0, 1] [1] [0, 0, 1, 0] [2] Some(0) LEEW LEWE WEEL EEWL WELE EELW \
         [0, 1, 0, 0] [0] [0, 0, 0, 1] [1] [0, 0, 1, 0] [2] Some(0) ELEW ELWE EWEL EEWL EWLE EELW "
    );
    Ok(())
}

#[test]
fn equal_profiles_and_the_first_of_equal_counts(rt: HostRuntime) -> Result<(), Fail> {
    let rows = [
        [(1, [2, 0, 1, 0]), (3, [1, 0, 1, 3]), (3, [2, 0, 1, 0])],
        [(1, [0, 0, 0, 0]), (0, [0, 0, 0, 0]), (2, [0, 0, 0, 9])],
    ];
    assert_eq!(rt;
        posed(rt.alloc(), &rows)?.as_str(),
        "[2, 0, 1, 0] [0, 2] [1, 0, 1, 3] [1] Some(1) LEEW WEEL \
         [0, 0, 0, 0] [0, 1] [0, 0, 0, 9] [2] Some(1) EEEW EEEL "
    );
    Ok(())
}

#[test]
fn no_count_and_one_class(rt: HostRuntime) -> Result<(), Fail> {
    let rows = [
        [(0, [0, 0, 1, 0]), (0, [0, 0, 0, 1]), (0, [0, 0, 0, 1])],
        [(0, [1, 1, 1, 1]), (1, [1, 1, 1, 1]), (0, [1, 1, 1, 1])],
    ];
    assert_eq!(rt;
        posed(rt.alloc(), &rows)?.as_str(),
        "[0, 0, 1, 0] [0] [0, 0, 0, 1] [1, 2] None EELW EEWL \
         [1, 1, 1, 1] [0, 1, 2] Some(0) "
    );
    Ok(())
}

#[test]
fn violations_of_more_bits_than_planes(rt: HostRuntime) -> Result<(), Fail> {
    let rows = [
        [(1, [8, 0, 200, 3]), (0, [7, 1, 200, 4]), (0, [9, 0, 16, 3])],
        [(0, [7, 6, 5, 4]), (2, [6, 7, 5, 0]), (0, [0, 0, 8, 1])],
    ];
    assert_eq!(rt;
        posed(rt.alloc(), &rows)?.as_str(),
        "[8, 0, 200, 3] [0] [7, 1, 200, 4] [1] [9, 0, 16, 3] [2] Some(0) LWEW WELE WLEL WLLL LEWE LWWW \
         [7, 6, 5, 4] [0] [6, 7, 5, 0] [1] [0, 0, 8, 1] [2] Some(1) LWEL LLWL WLEW LLWW WWLW WWLL "
    );
    Ok(())
}
