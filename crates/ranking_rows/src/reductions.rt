//! The informative and the skeletal basis.

use crate::marks::{condition, spelled};
use Mark::{E, L, W};
use demotion::is_hopeless;
use erc_vectors::{Condition, Mark, Mask, NoMemory};
use fusional_reduction::bases;
use std::alloc::Global;
use std::process::Abort;

/// The conditions of these texts.
fn conditions(rt: &impl Abort, alloc: Global, texts: &[&str]) -> Result<Vec<Condition>, NoMemory> {
    let mut set = Vec::new(alloc);
    for text in texts {
        set.push(spelled(rt, alloc, text)?)?;
    }
    Ok(set)
}

/// What a condition is to be compared by.
fn masks(condition: &Condition) -> (usize, Mask, Mask) {
    (condition.width(), condition.w_mask(), condition.l_mask())
}

fn check_members(rt: &impl Abort, found: &[Condition], expected: &[Condition]) {
    assert_eq!(rt; found.len(), expected.len());
    for (member, wanted) in found.iter().zip(expected) {
        assert_eq!(rt; masks(member), masks(wanted));
    }
}

/// The conditions are ones that bases are told of, and these are their bases.
fn check(
    rt: &impl Abort,
    alloc: Global,
    set: &[Condition],
    informative: &[Condition],
    skeletal: &[Condition],
) -> Result<(), NoMemory> {
    let width = if set.is_empty() { 0 } else { set[0].width() };
    assert!(rt; set.iter().all(|condition| condition.width() == width));
    assert!(rt; set.iter().all(|condition| condition.has_both()));
    assert!(rt; !is_hopeless(width, set));
    let bases = bases(alloc, set)?;
    check_members(rt, bases.informative.as_slice(), informative);
    check_members(rt, bases.skeletal.as_slice(), skeletal);
    Ok(())
}

/// The set of the first texts has the bases of the others.
fn check_texts(rt: &impl Abort, alloc: Global, texts: [&[&str]; 3]) -> Result<(), NoMemory> {
    let set = conditions(rt, alloc, texts[0])?;
    let informative = conditions(rt, alloc, texts[1])?;
    let skeletal = conditions(rt, alloc, texts[2])?;
    check(
        rt,
        alloc,
        set.as_slice(),
        informative.as_slice(),
        skeletal.as_slice(),
    )
}

#[test]
fn small_sets_have_these_bases(rt: HostRuntime) -> Result<(), NoMemory> {
    check_texts(&rt, rt.alloc(), [&[], &[], &[]])?;
    let apart: &[&str] = &["WeL", "eWL"];
    check_texts(&rt, rt.alloc(), [apart, apart, apart])?;
    check_texts(&rt, rt.alloc(), [&["eWL", "WeL"], apart, apart])?;
    check_texts(&rt, rt.alloc(), [&["WWL", "WLW"], &["WLL"], &["WLL"]])?;
    check_texts(
        &rt,
        rt.alloc(),
        [&["WLe", "eWL"], &["WLL", "eWL"], &["WLe", "eWL"]],
    )?;
    check_texts(
        &rt,
        rt.alloc(),
        [&["eWL", "WLe", "eWL"], &["WLL", "eWL"], &["WLe", "eWL"]],
    )
}

#[test]
fn nodes_below_nodes_are_looked_at(rt: HostRuntime) -> Result<(), NoMemory> {
    check_texts(
        &rt,
        rt.alloc(),
        [
            &["WWLe", "eeLW", "eLWe"],
            &["WLLe", "eLWe", "eLLW"],
            &["WeLe", "eLWe", "eeLW"],
        ],
    )?;
    check_texts(
        &rt,
        rt.alloc(),
        [
            &["WWWL", "WeeL", "LWeL"],
            &["WeeL", "LWeL"],
            &["WeeL", "LWee"],
        ],
    )?;
    check_texts(
        &rt,
        rt.alloc(),
        [
            &["LWeee", "WeeLe", "eeeLW", "WeeLe", "LWWeW"],
            &["WeeLe", "eeeLW", "LWeLe"],
            &["WeeLe", "eeeLW", "LWeee"],
        ],
    )?;
    check_texts(
        &rt,
        rt.alloc(),
        [
            &["LLWLW", "LLeWe", "WLeeW", "LWWee"],
            &["WLeeW", "LWWee", "LLWLW", "LLeWe"],
            &["WLeeW", "LWWee", "eeWLW", "LLeWe"],
        ],
    )
}

#[test]
fn each_of_many_is_a_member(rt: HostRuntime) -> Result<(), NoMemory> {
    let mut set = Vec::new(rt.alloc());
    for k in 0..30 {
        let mut marks = [E; 31];
        marks[k] = W;
        marks[30] = L;
        set.push(condition(&rt, marks))?;
    }
    let all = set.as_slice();
    check(&rt, rt.alloc(), all, all, all)
}
