//! Terms, contradictions, certificates and prefixes.

ghost use Rattle.std.specs.Prelude.{◌≡◌, IfOk};
ghost use Rattle.ot_theory.specs.Languages.{refuted};
ghost use Rattle.refutation.specs.Prefixes.{class_numbers};
ghost use Rattle.violation_profiles.specs.WellFormed.{IsPrefix};

use crate::problems::problem;
use crate::shown::{push_marks, shown};
use demotion::is_hopeless;
use erc_vectors::{ConId, List, NoMemory};
use ot_base::{ClassId, InId};
use refutation::{
    Contradiction, Finding, Prefix, Term, condition_of, conditions_of, core_of, deletion_core,
    is_genuine, is_prefix, judge_terms, refutes, terms_of, winner_terms,
};
use std::alloc::Global;
use std::process::Abort;
use std::test::Fail;
use violation_profiles::Problem;

/// A candidate's count and its violations of three constraints.
pub(crate) type Row = (u64, [u8; 3]);

/// The candidates of two inputs.
pub(crate) type Rows = [[Row; 3]; 2];

/// A stop after a vowel: kept, dropped, or made an onset.
pub(crate) fn stops(first: [u64; 3], second: [u64; 3]) -> Rows {
    [first, second].map(|counts| {
        [
            (counts[0], [1, 0, 0]),
            (counts[1], [0, 1, 0]),
            (counts[2], [0, 0, 1]),
        ]
    })
}

/// Two inputs of two classes each, of which the second has two candidates.
const PAIRS: Rows = [
    [(1, [0, 1, 0]), (0, [1, 0, 0]), (0, [1, 0, 0])],
    [(1, [0, 0, 1]), (0, [0, 1, 0]), (0, [0, 1, 0])],
];

/// An input with a compromise between two classes, and one of a single class.
const COMPROMISE: Rows = [
    [(0, [2, 0, 0]), (0, [0, 2, 0]), (1, [1, 1, 0])],
    [(1, [0, 0, 0]), (1, [0, 0, 0]), (1, [0, 0, 0])],
];

/// A contradiction of terms whose numbers are counted from 0.
fn contradiction(alloc: Global, terms: &[(u32, u16, u16)]) -> Result<Contradiction, NoMemory> {
    let mut list = List::new(alloc);
    for (input, winner, loser) in terms {
        list.push(Term::Loser {
            input: InId(*input),
            winner: ClassId(*winner),
            loser: ClassId(*loser),
        })?;
    }
    Ok(Contradiction { terms: list })
}

/// The terms of the winners of a problem.
pub(crate) fn winners(alloc: Global, problem: &Problem) -> Result<String, Fail> {
    let terms = winner_terms(alloc, problem)?;
    shown(alloc, terms.as_slice())
}

#[test]
fn winners_stand_against_all_other_classes(rt: HostRuntime) -> Result<(), Fail> {
    let cases: [(&Rows, &str); 3] = [
        (&stops([1, 0, 0], [0, 1, 0]), "1:1>2 1:1>3 2:2>1 2:2>3 "),
        (&stops([0, 0, 0], [0, 0, 4]), "2:3>1 2:3>2 "),
        (&PAIRS, "1:1>2 2:1>2 "),
    ];
    for (rows, want) in cases {
        let text = winners(rt.alloc(), &problem(rt.alloc(), rows)?)?;
        assert_eq!(rt; text.as_str(), want);
    }
    Ok(())
}

/// The certificate of the winners of a problem, which no ranking makes optimal.
pub(crate) fn certificate(
    rt: &impl Abort,
    alloc: Global,
    problem: &Problem,
) -> Result<String, Fail> {
    let terms = winner_terms(alloc, problem)?;
    let conditions = conditions_of(alloc, problem, terms.as_slice())?;
    assert!(rt; is_hopeless(problem.constraints(), &conditions));
    let core = core_of(alloc, problem, terms.as_slice())?;
    assert!(rt; is_genuine(problem, &core));
    let copy = core.copy()?;
    shown(alloc, copy.terms.as_slice())
}

/// What the terms of the winners of a problem come to: the stratum of each constraint, or the certificate.
pub(crate) fn judged(alloc: Global, problem: &Problem) -> Result<String, Fail> {
    let terms = winner_terms(alloc, problem)?;
    let conditions = conditions_of(alloc, problem, terms.as_slice())?;
    match judge_terms(alloc, problem, terms.as_slice(), conditions)? {
        Finding::Holds(strata) => {
            let mut text = String::new(alloc);
            for c in 0..strata.width() {
                let level = strata.level(ConId(c as u16));
                write!(text, "{level} ")?;
            }
            Ok(text)
        }
        Finding::Refuted(core) => shown(alloc, core.terms.as_slice()),
    }
}

#[test]
fn winners_are_judged(rt: HostRuntime) -> Result<(), Fail> {
    let cases: [(&str, &Rows, &str); 5] = [
        ("no winner", &stops([0, 0, 0], [0, 0, 0]), "1 1 1 "),
        ("repaired alike", &stops([1, 0, 0], [1, 0, 0]), "2 1 1 "),
        ("three strata", &PAIRS, "1 2 3 "),
        (
            "repaired otherwise",
            &stops([1, 0, 0], [0, 1, 0]),
            "1:1>2 2:2>1 ",
        ),
        ("a compromise", &COMPROMISE, "1:3>1 1:3>2 "),
    ];
    for (name, rows, want) in cases {
        let text = judged(rt.alloc(), &problem(rt.alloc(), rows)?)?;
        assert_eq!(rt; text.as_str(), want, "{name}");
    }
    Ok(())
}

#[test]
fn certificates_of_winners(rt: HostRuntime) -> Result<(), Fail> {
    let cases: [(&Rows, &str); 3] = [
        (&stops([1, 0, 0], [0, 1, 0]), "1:1>2 2:2>1 "),
        (&stops([0, 1, 0], [0, 0, 1]), "1:2>3 2:3>2 "),
        (&COMPROMISE, "1:3>1 1:3>2 "),
    ];
    for (rows, want) in cases {
        let text = certificate(&rt, rt.alloc(), &problem(rt.alloc(), rows)?)?;
        assert_eq!(rt; text.as_str(), want);
    }
    Ok(())
}

#[test]
fn genuine_contradictions(rt: HostRuntime) -> Result<(), Fail> {
    let problem = problem(rt.alloc(), &stops([0, 0, 0], [0, 0, 0]))?;
    let cases: [(&[(u32, u16, u16)], bool); 8] = [
        (&[(0, 0, 1), (1, 1, 0)], true),
        (&[(1, 1, 0), (0, 0, 1), (1, 1, 0)], true),
        (&[(0, 0, 1)], false),
        (&[], false),
        (&[(0, 0, 1), (0, 1, 0)], false),
        (&[(0, 0, 1), (1, 1, 0), (2, 0, 1)], false),
        (&[(0, 0, 1), (1, 1, 0), (1, 1, 3)], false),
        (&[(0, 0, 1), (1, 1, 0), (1, 1, 1)], false),
    ];
    for (terms, want) in cases {
        let contradiction = contradiction(rt.alloc(), terms)?;
        assert_eq!(rt; is_genuine(&problem, &contradiction), want);
    }
    Ok(())
}

#[test]
fn condition_of_a_term(rt: HostRuntime) -> Result<(), Fail> {
    let problem = problem(rt.alloc(), &PAIRS)?;
    let terms = winner_terms(rt.alloc(), &problem)?;
    let mut text = String::new(rt.alloc());
    for term in terms.as_slice() {
        let condition = condition_of(&problem, term);
        push_marks(&mut text, &condition)?;
    }
    assert_eq!(rt; text.as_str(), "WLE EWL ");
    Ok(())
}

/// Whether no ranking keeps the conditions of a prefix.
fn is_refuted(alloc: Global, problem: &Problem, prefix: &[ClassId]) -> Result<bool, NoMemory>
    requires { IsPrefix problem.now (class_numbers prefix.now) }
    ensures { IfOk result (λ answer. answer ≡ refuted problem.now (class_numbers prefix.now)) }
{
    let terms = terms_of(alloc, problem, prefix)?;
    let conditions = conditions_of(alloc, problem, terms.as_slice())?;
    Ok(is_hopeless(problem.constraints(), &conditions))
}

/// The terms of a prefix of a problem.
pub(crate) fn terms(
    rt: &impl Abort,
    alloc: Global,
    problem: &Problem,
    prefix: &[ClassId],
) -> Result<String, Fail> {
    assert!(rt; is_prefix(problem, prefix));
    let terms = terms_of(alloc, problem, prefix)?;
    shown(alloc, terms.as_slice())
}

#[test]
fn terms_of_prefixes(rt: HostRuntime) -> Result<(), Fail> {
    let cases: [(&[ClassId], &str); 4] = [
        (&[], ""),
        (&[ClassId(0)], "1:1>2 1:1>3 "),
        (&[ClassId(0), ClassId(1)], "1:1>2 1:1>3 2:2>1 2:2>3 "),
        (&[ClassId(2), ClassId(2)], "1:3>1 1:3>2 2:3>1 2:3>2 "),
    ];
    let problem = problem(rt.alloc(), &stops([0, 0, 0], [0, 0, 0]))?;
    for (prefix, want) in cases {
        let text = terms(&rt, rt.alloc(), &problem, prefix)?;
        assert_eq!(rt; text.as_str(), want);
    }
    Ok(())
}

/// The certificate of a prefix of a problem, which no ranking makes optimal.
pub(crate) fn certificate_of_prefix(
    rt: &impl Abort,
    alloc: Global,
    problem: &Problem,
    prefix: &[ClassId],
) -> Result<String, Fail> {
    assert!(rt; is_prefix(problem, prefix));
    let hopeless = is_refuted(alloc, problem, prefix)?;
    assert!(rt; hopeless);
    let core = deletion_core(alloc, problem, prefix)?;
    assert!(rt; is_genuine(problem, &core));
    assert!(rt; refutes(&core, prefix));
    shown(alloc, core.terms.as_slice())
}

#[test]
fn certificates_of_prefixes(rt: HostRuntime) -> Result<(), Fail> {
    let stops = stops([0, 0, 0], [0, 0, 0]);
    let cases: [(&Rows, &[ClassId], &str); 3] = [
        (&stops, &[ClassId(0), ClassId(1)], "1:1>2 2:2>1 "),
        (&stops, &[ClassId(1), ClassId(2)], "1:2>3 2:3>2 "),
        (&COMPROMISE, &[ClassId(2)], "1:3>1 1:3>2 "),
    ];
    for (rows, prefix, want) in cases {
        let problem = problem(rt.alloc(), rows)?;
        let text = certificate_of_prefix(&rt, rt.alloc(), &problem, prefix)?;
        assert_eq!(rt; text.as_str(), want);
    }
    Ok(())
}

#[test]
fn refuted_prefixes(rt: HostRuntime) -> Result<(), Fail> {
    let both = contradiction(rt.alloc(), &[(0, 0, 1), (1, 1, 0)])?;
    let cases: [(&[ClassId], bool); 6] = [
        (&[], false),
        (&[ClassId(0)], false),
        (&[ClassId(0), ClassId(1)], true),
        (&[ClassId(0), ClassId(1), ClassId(7)], true),
        (&[ClassId(0), ClassId(0)], false),
        (&[ClassId(1), ClassId(1)], false),
    ];
    for (prefix, want) in cases {
        assert_eq!(rt; refutes(&both, prefix), want);
    }
    let none = contradiction(rt.alloc(), &[])?;
    assert!(rt; refutes(&none, &[]));
    Ok(())
}

#[test]
fn children_and_copies(rt: HostRuntime) -> Result<(), Fail> {
    let alloc = rt.alloc();
    let first = Prefix::empty(alloc).child(ClassId(4))?;
    let both = first.child(ClassId(2))?.copy()?;
    assert_eq!(rt; first.as_slice(), [ClassId(4)].as_slice());
    assert_eq!(rt; both.as_slice(), [ClassId(4), ClassId(2)].as_slice());
    Ok(())
}
