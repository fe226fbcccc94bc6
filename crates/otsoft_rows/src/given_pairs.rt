//! Runs under given pairs of constraints: whole reports, which were worked out from all rankings that keep the pairs, and the faults of
//! the files.

use erc_vectors::NoMemory;
use memory_runs::{Outside, Part, run_on};
use otsoft_run::Status;
use std::alloc::Global;
use std::test::Fail;
use std::thread::Threads;

/// A coda that stays, or is repaired in one of two ways.
const CODA: &str = "\t\t\tNoCoda\tMax\tDep\n\
    \t\t\tNoCoda\tMax\tDep\n\
    pat\tpat\t1\t1\t0\t0\n\
    \tpa\t0\t0\t1\t0\n\
    \tpa.ti\t0\t0\t0\t1\n";

const CODA_HEAD: &str = "constraints\t3\n\
    constraint\t1\tNoCoda\tNoCoda\n\
    constraint\t2\tMax\tMax\n\
    constraint\t3\tDep\tDep\n\
    inputs\t1\n\
    input\t1\tpat\t3\n\
    class\t1.1\t1 0 0\tpat\n\
    class\t1.2\t0 1 0\tpa\n\
    class\t1.3\t0 0 1\tpa.ti\n";

/// Each constraint decides for one input.
const CHAIN: &str = "\t\t\tA\tB\tC\n\
    \t\t\tA\tB\tC\n\
    x\tp\t1\t\t1\t\n\
    \tq\t\t1\t\t\n\
    y\tr\t1\t\t\t1\n\
    \ts\t\t\t1\t\n";

const CHAIN_HEAD: &str = "constraints\t3\n\
    constraint\t1\tA\tA\n\
    constraint\t2\tB\tB\n\
    constraint\t3\tC\tC\n\
    inputs\t2\n\
    input\t1\tx\t2\n\
    class\t1.1\t0 1 0\tp\n\
    class\t1.2\t1 0 0\tq\n\
    input\t2\ty\t2\n\
    class\t2.1\t0 0 1\tr\n\
    class\t2.2\t0 1 0\ts\n";

const CYCLE: &str = "NoCoda\tMax\nMax\tNoCoda\n";

/// What a typology has behind the head where the pairs are a cycle.
const NO_LANGUAGE: &str = "givens\t2\n\
    given\t1\t1\t2\n\
    given\t2\t2\t1\n\
    languages\t0\n\
    certificates\t1\n\
    certificate\t1\tLLe\tg1 g2\n\
    cuts\t1\n\
    cut\t1\t-\t1\n\
    end\n";

/// What it has where a vowel is worse than a loss.
const NO_VOWEL: &str = "givens\t1\n\
    given\t1\t3\t2\n\
    languages\t2\n\
    language\t1\t1\t3 | 2 | 1\n\
    language\t2\t2\t1 3 | 2\n\
    certificates\t1\n\
    certificate\t1\teLL\tg1 1:3>2\n\
    cuts\t1\n\
    cut\t1\t3\t1\n\
    end\n";

/// A report under the pairs of the file `g.txt`.
struct Case {
    name: &'static str,
    command: &'static str,
    file: &'static str,
    head: &'static str,
    pairs: &'static str,
    tail: &'static str,
    status: Status,
}

const CASES: [Case; 9] = [
    Case {
        name: "a cycle leaves no language",
        command: "typology",
        file: CODA,
        head: CODA_HEAD,
        pairs: CYCLE,
        tail: NO_LANGUAGE,
        status: Status::Done,
    },
    Case {
        name: "a pair takes a language away",
        command: "typology",
        file: CODA,
        head: CODA_HEAD,
        pairs: "Dep\tMax\n",
        tail: NO_VOWEL,
        status: Status::Done,
    },
    Case {
        name: "no pair is told as none",
        command: "typology",
        file: CODA,
        head: CODA_HEAD,
        pairs: "",
        tail: "givens\t0\n\
            languages\t3\n\
            language\t1\t1\t2 3 | 1\n\
            language\t2\t2\t1 3 | 2\n\
            language\t3\t3\t1 2 | 3\n\
            certificates\t0\n\
            cuts\t0\n\
            end\n",
        status: Status::Done,
    },
    Case {
        name: "a pair among the conditions of the bases",
        command: "bases",
        file: CHAIN,
        head: CHAIN_HEAD,
        pairs: "A\tC\n",
        tail: "givens\t1\n\
            given\t1\t1\t3\n\
            winner\t1\t1\n\
            winner\t2\t1\n\
            conditions\t3\n\
            condition\t1\tWeL\tg1\n\
            condition\t2\tWLe\t1:1>2\n\
            condition\t3\teWL\t2:1>2\n\
            members\t2\n\
            member\t1\tWLL\tWLe\n\
            member\t2\teWL\teWL\n\
            end\n",
        status: Status::Done,
    },
    Case {
        name: "no ranking keeps a cycle",
        command: "rank",
        file: CODA,
        head: CODA_HEAD,
        pairs: CYCLE,
        tail: "givens\t2\n\
            given\t1\t1\t2\n\
            given\t2\t2\t1\n\
            winner\t1\t1\n\
            contradiction\tLLe\tg1 g2\n\
            end\n",
        status: Status::Contradictory,
    },
    Case {
        name: "a pair against the winner",
        command: "hasse",
        file: CODA,
        head: CODA_HEAD,
        pairs: "NoCoda\tMax\n",
        tail: "givens\t1\n\
            given\t1\t1\t2\n\
            winner\t1\t1\n\
            contradiction\tLLe\tg1 1:1>2\n\
            end\n",
        status: Status::Contradictory,
    },
    Case {
        name: "a cycle implies nothing",
        command: "torder",
        file: CHAIN,
        head: CHAIN_HEAD,
        pairs: "A\tB\nB\tA\n",
        tail: "givens\t2\n\
            given\t1\t1\t2\n\
            given\t2\t2\t1\n\
            implications\t0\n\
            end\n",
        status: Status::Done,
    },
    Case {
        name: "implications under a pair",
        command: "torder",
        file: CHAIN,
        head: CHAIN_HEAD,
        pairs: "A\tC\n",
        tail: "givens\t1\n\
            given\t1\t1\t3\n\
            implications\t2\n\
            implication\t1.2\t2.1\n\
            implication\t2.2\t1.1\n\
            end\n",
        status: Status::Done,
    },
    Case {
        name: "a ranking of all constraints",
        command: "rank",
        file: CODA,
        head: CODA_HEAD,
        pairs: "Dep\tMax\n",
        tail: "givens\t1\n\
            given\t1\t3\t2\n\
            winner\t1\t1\n\
            strata\t3\n\
            stratum\t1\t3\tDep\n\
            stratum\t2\t2\tMax\n\
            stratum\t3\t1\tNoCoda\n\
            tableau\t1\tpat\n\
            order\t3\t2\t1\n\
            row\t1\t>\t0\t0\t1\n\
            row\t2\t-\t0\t1!\t0\n\
            row\t3\t-\t1!\t0\t0\n\
            end\n",
        status: Status::Done,
    },
];

/// Two files: the tableau and the pairs.
fn outside(file: &'static str, pairs: &'static str) -> Outside<'static> {
    Outside {
        other_name: "g.txt",
        other_bytes: pairs.as_bytes(),
        ..Outside::sound("a.txt", file.as_bytes())
    }
}

/// The part in which a run is not as it has to be.
fn difference<R: Threads + Sync>(
    threads: &R,
    alloc: Global,
    case: &Case,
    options: &str,
) -> Result<Option<Part>, Fail> {
    let command = case.command;
    let words = format!(in alloc; "{command} a.txt --given=g.txt{options}")?;
    let outside = outside(case.file, case.pairs);
    let left = run_on(threads, alloc, words.as_str(), &outside)?;
    let report = [
        b"otsoft report 1\t".as_slice(),
        command.as_bytes(),
        b"\n",
        case.head.as_bytes(),
        case.tail.as_bytes(),
    ];
    Ok(left.difference(case.status, &report, b""))
}

#[test]
fn reports_speak_of_the_rankings_that_keep_the_pairs(rt: HostRuntime) -> Result<(), Fail> {
    for case in &CASES {
        let name = case.name;
        assert_eq!(rt; difference(&rt, rt.alloc(), case, "")?, None, "{name}");
    }
    Ok(())
}

#[test]
fn each_search_keeps_the_pairs(rt: HostRuntime) -> Result<(), Fail> {
    let sizes = [
        " --workers 1",
        " --workers 2",
        " --workers 8",
        " --store 0",
        " --workers 2 --store 0",
        " --workers 8 --store 1",
    ];
    for case in &CASES[..3] {
        for options in &sizes {
            assert_eq!(rt;
                difference(&rt, rt.alloc(), case, options)?,
                None,
                "{options}"
            );
        }
        for number in 0..10 {
            let options = format!(in rt.alloc(); " --workers 3 --schedule {number}")?;
            assert_eq!(rt;
                difference(&rt, rt.alloc(), case, options.as_str())?,
                None,
                "{options}"
            );
        }
    }
    Ok(())
}

/// Words, the pairs, and the line on the fault output.
const FAULTS: [(&str, &str, Status, &str); 9] = [
    (
        "typology a.txt --given g.txt",
        "\nFoo\tMax\n",
        Status::Refused,
        "g.txt:2: G4 UnknownName\n",
    ),
    (
        "rank a.txt --given g.txt",
        "Max\n",
        Status::Refused,
        "g.txt:1: G3 MissingName\n",
    ),
    (
        "hasse --given g.txt a.txt",
        "Max\tMax\n",
        Status::Refused,
        "g.txt:1: G5 SameConstraint\n",
    ),
    (
        "bases a.txt --given a.txt",
        "",
        Status::Refused,
        "a.txt:1: G3 MissingName\n",
    ),
    (
        "torder g.txt --given a.txt",
        "\t\t\n",
        Status::Refused,
        "g.txt:1: F2 NoConstraints\n",
    ),
    (
        "torder g.txt --given missing",
        "\t\t\n",
        Status::Refused,
        "g.txt:1: F2 NoConstraints\n",
    ),
    (
        "rank a.txt --given missing",
        "",
        Status::ReadFault,
        "otsoft: missing could not be read\n",
    ),
    (
        "rank missing --given g.txt",
        "",
        Status::ReadFault,
        "otsoft: missing could not be read\n",
    ),
    (
        "demo 1 --given g.txt",
        "",
        Status::BadWords,
        "usage: otsoft COMMAND FILE [OPTIONS]\n",
    ),
];

#[test]
fn faults_of_either_file_are_told(rt: HostRuntime) -> Result<(), Fail> {
    for (words, pairs, status, line) in &FAULTS {
        let left = run_on(&rt, rt.alloc(), words, &outside(CODA, *pairs))?;
        assert_eq!(rt;
            left.difference(*status, &[], line.as_bytes()),
            None,
            "{words}"
        );
    }
    Ok(())
}

/// Each call of the files fails in turn: one opens the tableau, eleven read its 79 bytes to their end, and then one opens the pairs and
/// two read these.
#[test]
fn the_file_that_could_not_be_read_is_named(rt: HostRuntime) -> Result<(), NoMemory> {
    for call in 1..=16 {
        let outside = Outside {
            read_piece: 8,
            read_fails: &[call],
            ..outside(CODA, "Dep\tMax\n")
        };
        let left = run_on(&rt, rt.alloc(), "typology a.txt --given g.txt", &outside)?;
        let report = [
            b"otsoft report 1\ttypology\n".as_slice(),
            CODA_HEAD.as_bytes(),
            NO_VOWEL.as_bytes(),
        ];
        let found = if call <= 12 {
            left.difference(Status::ReadFault, &[], b"otsoft: a.txt could not be read\n")
        } else if call <= 15 {
            left.difference(Status::ReadFault, &[], b"otsoft: g.txt could not be read\n")
        } else {
            left.difference(Status::Done, &report, b"")
        };
        assert_eq!(rt; found, None, "{call}");
    }
    Ok(())
}
