//! The implications between outputs, read off the languages of a search.

use crate::problems::{CODA, problem, with_given};
use std::alloc::Global;
use std::test::Fail;
use t_orders::implications;
use typology_core::typology_of;
use violation_profiles::Problem;

/// The violations of four constraints by the three candidates of an input.
type Marks = [[u8; 4]; 3];

/// Each candidate violates another constraint.
const CODAS: Marks = [[1, 0, 0, 0], [0, 1, 0, 0], [0, 0, 1, 0]];

/// The last two candidates are one class.
const TWO_CLASSES: Marks = [[1, 0, 0, 0], [0, 1, 1, 0], [0, 1, 1, 0]];

/// No ranking makes the last class optimal.
const COMPROMISE: Marks = [[2, 0, 0, 0], [0, 2, 0, 0], [1, 1, 0, 0]];

/// Syllables that begin with a vowel: the constraints are onset, no coda, no deletion and no insertion.
const VOWEL_FIRST: Marks = [[1, 0, 0, 0], [0, 0, 0, 1], [0, 0, 1, 0]];

/// Syllables that end in a consonant, under the same constraints.
const CONSONANT_LAST: Marks = [[0, 1, 0, 0], [0, 0, 0, 1], [0, 0, 1, 0]];

/// The implications, each as the numbers of two outputs, counted from 1.
fn shown(alloc: Global, p: &Problem) -> Result<String, Fail> {
    let found = typology_of(alloc, p)?;
    let listed = implications(alloc, p, found.languages.as_slice())?;
    let mut text = String::new(alloc);
    for implication in listed.as_slice() {
        let i = implication.from_input.0.saturating_add(1);
        let a = implication.from_class.0.saturating_add(1);
        let j = implication.to_input.0.saturating_add(1);
        let b = implication.to_class.0.saturating_add(1);
        write!(text, "{i}.{a} to {j}.{b}, ")?;
    }
    Ok(text)
}

#[test]
fn equal_inputs_imply_each_other(rt: HostRuntime) -> Result<(), Fail> {
    let text = shown(rt.alloc(), &problem(rt.alloc(), &[CODAS, CODAS])?)?;
    let want = "1.1 to 2.1, 1.2 to 2.2, 1.3 to 2.3, 2.1 to 1.1, 2.2 to 1.2, 2.3 to 1.3, ";
    assert_eq!(rt; text.as_str(), want);
    Ok(())
}

#[test]
fn syllables_imply_nothing(rt: HostRuntime) -> Result<(), Fail> {
    let text = shown(
        rt.alloc(),
        &problem(rt.alloc(), &[VOWEL_FIRST, CONSONANT_LAST])?,
    )?;
    assert_eq!(rt; text.as_str(), "");
    Ok(())
}

#[test]
fn one_input_implies_nothing(rt: HostRuntime) -> Result<(), Fail> {
    let text = shown(rt.alloc(), &problem(rt.alloc(), &[CODAS])?)?;
    assert_eq!(rt; text.as_str(), "");
    Ok(())
}

#[test]
fn an_impossible_class_is_left_out(rt: HostRuntime) -> Result<(), Fail> {
    let text = shown(rt.alloc(), &problem(rt.alloc(), &[COMPROMISE, CODAS])?)?;
    assert_eq!(rt; text.as_str(), "2.1 to 1.1, 2.2 to 1.2, ");
    Ok(())
}

#[test]
fn implications_go_one_way(rt: HostRuntime) -> Result<(), Fail> {
    let text = shown(
        rt.alloc(),
        &problem(rt.alloc(), &[CODAS, TWO_CLASSES, COMPROMISE])?,
    )?;
    let want = "1.1 to 2.1, 1.1 to 3.1, 1.2 to 3.2, 2.2 to 3.2, 3.1 to 2.1, ";
    assert_eq!(rt; text.as_str(), want);
    Ok(())
}

/// The third constraint above the second.
#[test]
fn a_given_pair_rules_implications_out(rt: HostRuntime) -> Result<(), Fail> {
    let alloc = rt.alloc();
    let given = with_given(&rt, alloc, problem(alloc, &[CODA, CODA])?, &[(2, 1)])?;
    let text = shown(alloc, &given)?;
    assert_eq!(rt;
        text.as_str(),
        "1.1 to 2.1, 1.2 to 2.2, 2.1 to 1.1, 2.2 to 1.2, "
    );
    let cycle = with_given(
        &rt,
        alloc,
        problem(alloc, &[CODA, CODA])?,
        &[(0, 1), (1, 0)],
    )?;
    let text = shown(alloc, &cycle)?;
    assert_eq!(rt; text.as_str(), "", "under a cycle");
    Ok(())
}
