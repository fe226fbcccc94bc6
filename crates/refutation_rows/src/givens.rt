//! Given pairs: their conditions, and the terms, contradictions and certificates that they stand in.

use crate::certificates::{certificate, certificate_of_prefix, judged, stops, terms, winners};
use crate::problems::{problem, with_given};
use crate::shown::push_marks;
use erc_vectors::{List, NoMemory};
use ot_base::{ClassId, InId};
use refutation::{Contradiction, Term, is_genuine, refutes};
use std::alloc::Global;
use std::process::Abort;
use std::test::Fail;
use violation_profiles::Problem;

/// Two given pairs that no ranking keeps together: the first constraint above the second, and this above the first.
const CYCLE: &[(u16, u16)] = &[(0, 1), (1, 0)];

/// A stop after a vowel that is kept, and one of which nothing is known, with given pairs.
fn stop(rt: &impl Abort, alloc: Global, pairs: &[(u16, u16)]) -> Result<Problem, NoMemory> {
    let problem = problem(alloc, &stops([1, 0, 0], [0, 0, 0]))?;
    with_given(rt, alloc, problem, pairs)
}

/// Whether pairs were given, and the conditions of the given pairs.
fn conditions(alloc: Global, problem: &Problem) -> Result<(bool, String), Fail> {
    let mut text = String::new(alloc);
    for k in 0..problem.givens().len() {
        push_marks(&mut text, &problem.given_condition(k as u32))?;
    }
    Ok((problem.has_givens(), text))
}

#[test]
fn conditions_of_given_pairs(rt: HostRuntime) -> Result<(), Fail> {
    let alloc = rt.alloc();
    let none = problem(alloc, &stops([1, 0, 0], [0, 0, 0]))?;
    for (name, problem, given, want) in [
        ("none were given", none, false, ""),
        ("an empty list", stop(&rt, alloc, &[])?, true, ""),
        ("a cycle", stop(&rt, alloc, CYCLE)?, true, "WLE LWE "),
        (
            "last above",
            stop(&rt, alloc, &[(2, 1), (0, 2)])?,
            true,
            "ELW WEL ",
        ),
    ] {
        let (has_givens, text) = conditions(alloc, &problem)?;
        assert_eq!(rt; has_givens, given, "{name}");
        assert_eq!(rt; text.as_str(), want, "{name}");
    }
    Ok(())
}

#[test]
fn terms_begin_with_the_given_pairs(rt: HostRuntime) -> Result<(), Fail> {
    let alloc = rt.alloc();
    let cycle = stop(&rt, alloc, CYCLE)?;
    let text = winners(alloc, &cycle)?;
    assert_eq!(rt; text.as_str(), "g1 g2 1:1>2 1:1>3 ");
    let cases: [(&[ClassId], &str); 3] = [
        (&[], "g1 g2 "),
        (&[ClassId(0)], "g1 g2 1:1>2 1:1>3 "),
        (&[ClassId(2), ClassId(1)], "g1 g2 1:3>1 1:3>2 2:2>1 2:2>3 "),
    ];
    for (prefix, want) in cases {
        let text = terms(&rt, alloc, &cycle, prefix)?;
        assert_eq!(rt; text.as_str(), want);
    }
    Ok(())
}

#[test]
fn certificates_with_given_pairs(rt: HostRuntime) -> Result<(), Fail> {
    let alloc = rt.alloc();
    let cycle = stop(&rt, alloc, CYCLE)?;
    let text = certificate(&rt, alloc, &cycle)?;
    assert_eq!(rt; text.as_str(), "g1 g2 ", "of winners under a cycle");
    let text = judged(alloc, &cycle)?;
    assert_eq!(rt; text.as_str(), "g1 g2 ", "judged under a cycle");
    let text = certificate_of_prefix(&rt, alloc, &cycle, &[])?;
    assert_eq!(rt; text.as_str(), "g1 g2 ", "of no class under a cycle");
    let one = stop(&rt, alloc, &[(2, 1)])?;
    let text = certificate_of_prefix(&rt, alloc, &one, &[ClassId(2)])?;
    assert_eq!(rt;
        text.as_str(),
        "g1 1:3>2 ",
        "of a class that a pair rules out"
    );
    let text = judged(alloc, &one)?;
    assert_eq!(rt; text.as_str(), "3 2 1 ", "judged under one pair");
    Ok(())
}

/// The contradiction of given pairs and of terms of the first input, all numbered from 0.
fn contradiction(
    alloc: Global,
    pairs: &[u32],
    losers: &[(u16, u16)],
) -> Result<Contradiction, NoMemory> {
    let mut terms = List::new(alloc);
    for k in pairs {
        terms.push(Term::Given(*k))?;
    }
    for (winner, loser) in losers {
        terms.push(Term::Loser {
            input: InId(0),
            winner: ClassId(*winner),
            loser: ClassId(*loser),
        })?;
    }
    Ok(Contradiction { terms })
}

#[test]
fn genuine_contradictions_of_given_pairs(rt: HostRuntime) -> Result<(), Fail> {
    let problem = stop(&rt, rt.alloc(), &[(0, 1), (1, 0), (2, 1)])?;
    let cases: [(&[u32], &[(u16, u16)], bool); 7] = [
        (&[0, 1], &[], true),
        (&[1, 0, 1], &[], true),
        (&[0], &[], false),
        (&[0, 2], &[], false),
        (&[0, 1, 3], &[], false),
        (&[2], &[(2, 1)], true),
        (&[2], &[(2, 1), (1, 2)], false),
    ];
    for (pairs, losers, want) in cases {
        let found = contradiction(rt.alloc(), pairs, losers)?;
        assert_eq!(rt; is_genuine(&problem, &found), want);
    }
    Ok(())
}

#[test]
fn given_pairs_ask_nothing_of_a_prefix(rt: HostRuntime) -> Result<(), Fail> {
    let cases: [(&[(u16, u16)], &[ClassId], bool); 4] = [
        (&[], &[], true),
        (&[(2, 1)], &[], false),
        (&[(2, 1)], &[ClassId(2)], true),
        (&[(2, 1)], &[ClassId(1)], false),
    ];
    for (losers, prefix, want) in cases {
        let found = contradiction(rt.alloc(), &[0, 1], losers)?;
        assert_eq!(rt; refutes(&found, prefix), want);
    }
    Ok(())
}
