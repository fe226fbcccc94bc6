//! The search of one worker, and that of several under a schedule.

use crate::problems::{CODA, OTHER_CERTIFICATE, SYLLABLES, TWO_CODAS, problem, with_given};
use crate::shown::shown;
use std::alloc::Global;
use std::process::Abort;
use std::test::Fail;
use typology_core::{PLACE_LIMIT, run_schedule, search_alone};
use violation_profiles::Problem;

/// One class of the second input violates more than the other, and nothing less.
const BOUNDED: [[[u8; 3]; 3]; 2] = [
    [[1, 0, 0], [0, 1, 0], [0, 0, 1]],
    [[0, 0, 0], [1, 0, 0], [1, 0, 0]],
];

/// Whether a search with some number of places comes to this typology, and judges by demotion so often.
fn finds(
    rt: &impl Abort,
    alloc: Global,
    name: &str,
    problem: &Problem,
    typology: &str,
    learns: &[(usize, u64)],
) -> Result<(), Fail> {
    for (places, times) in learns {
        let alone = search_alone(alloc, problem, (*places).min(PLACE_LIMIT))?;
        let text = shown(alloc, &alone.typology)?;
        assert_eq!(rt; text.as_str(), typology, "{name}");
        assert_eq!(rt; alone.learns, *times, "{name}, {places} places");
    }
    Ok(())
}

#[test]
fn typologies_with_any_number_of_places(rt: HostRuntime) -> Result<(), Fail> {
    let alloc = rt.alloc();
    finds(
        &rt,
        alloc,
        "two codas",
        &problem(alloc, &TWO_CODAS)?,
        "1 1 211\n2 2 121\n3 3 112\n1 2 #1\n1 3 #2\n2 1 #3\n2 3 #4\n3 1 #5\n3 2 #6\n1:1>2 2:2>1 \n1:1>3 2:3>1 \n1:2>1 2:1>2 \n1:2>3 2:3>2 \n1:3>1 2:1>3 \n1:3>2 2:2>3 \n",
        &[(0, 13), (1, 13), (16, 13)],
    )?;
    finds(
        &rt,
        alloc,
        "bounded",
        &problem(alloc, &BOUNDED)?,
        "1 1 211\n2 1 121\n3 1 112\n1 2 #1\n2 2 #1\n3 2 #1\n2:2>1 \n",
        &[(0, 10), (1, 8), (16, 8)],
    )?;
    finds(
        &rt,
        alloc,
        "syllables",
        &problem(alloc, &SYLLABLES)?,
        "1 1 2211\n1 2 3112\n1 3 3121\n2 1 1312\n2 2 1112\n3 1 1321\n3 3 1121\n2 3 #1\n3 2 #2\n1:2>3 2:3>2 \n1:3>2 2:2>3 \n",
        &[(0, 13), (1, 13), (16, 13)],
    )?;
    finds(
        &rt,
        alloc,
        "another certificate",
        &problem(alloc, &OTHER_CERTIFICATE)?,
        "1 2 2121\n2 2 1211\n3 2 2112\n1 1 #1\n1 3 #2\n2 1 #1\n2 3 #3\n3 1 #1\n3 3 #3\n2:1>2 \n1:1>2 2:3>1 \n2:3>2 \n",
        &[(0, 13), (1, 11), (16, 10)],
    )
}

/// Whether the schedules of the numbers from 0 on, with three workers and 1,024 places, come to this typology, and judge by
/// demotion so often.
fn schedules(
    rt: &impl Abort,
    alloc: Global,
    name: &str,
    problem: &Problem,
    typology: &str,
    learns: &[u64],
) -> Result<(), Fail> {
    let mut number = 0u64;
    for times in learns {
        let alone = run_schedule(alloc, problem, 3, 1024, number)?;
        let text = shown(alloc, &alone.typology)?;
        assert_eq!(rt; text.as_str(), typology, "{name}, {number}");
        assert_eq!(rt; alone.learns, *times, "{name}, {number}");
        number = number.saturating_add(1);
    }
    Ok(())
}

#[test]
fn schedules_find_the_typology(rt: HostRuntime) -> Result<(), Fail> {
    let alloc = rt.alloc();
    schedules(
        &rt,
        alloc,
        "two codas",
        &problem(alloc, &TWO_CODAS)?,
        "1 1 211\n2 2 121\n3 3 112\n1 2 #1\n1 3 #2\n2 1 #3\n2 3 #4\n3 1 #5\n3 2 #6\n1:1>2 2:2>1 \n1:1>3 2:3>1 \n1:2>1 2:1>2 \n1:2>3 2:3>2 \n1:3>1 2:1>3 \n1:3>2 2:2>3 \n",
        &[13, 13, 13, 13],
    )?;
    schedules(
        &rt,
        alloc,
        "bounded",
        &problem(alloc, &BOUNDED)?,
        "1 1 211\n2 1 121\n3 1 112\n1 2 #1\n2 2 #1\n3 2 #1\n2:2>1 \n",
        &[8, 9, 9, 10],
    )
}

/// The first constraint above the second and the second above the first: no ranking keeps both.
#[test]
fn a_cycle_of_given_pairs_leaves_no_language(rt: HostRuntime) -> Result<(), Fail> {
    let alloc = rt.alloc();
    let cycle = with_given(&rt, alloc, problem(alloc, &[CODA])?, &[(0, 1), (1, 0)])?;
    let typology = "#1\ng1 g2 \n";
    let learns = [(0, 1), (1, 1), (16, 1)];
    finds(&rt, alloc, "a cycle", &cycle, typology, &learns)?;
    schedules(&rt, alloc, "a cycle", &cycle, typology, &[1, 1, 1])
}

/// The third constraint above the second: no ranking that keeps it makes the third class optimal.
#[test]
fn a_given_pair_rules_a_class_out(rt: HostRuntime) -> Result<(), Fail> {
    let alloc = rt.alloc();
    let given = with_given(&rt, alloc, problem(alloc, &[CODA])?, &[(2, 1)])?;
    let typology = "1 321\n2 121\n3 #1\ng1 1:3>2 \n";
    let learns = [(0, 4), (1, 4), (16, 4)];
    finds(&rt, alloc, "one pair", &given, typology, &learns)?;
    schedules(&rt, alloc, "one pair", &given, typology, &[4, 4, 4])
}
