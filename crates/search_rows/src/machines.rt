//! The machine of the search.

ghost use Rattle.std.specs.Prelude.{◌≡◌};

use crate::problems::{OTHER_CERTIFICATE, SYLLABLES, TWO_CODAS, problem};
use crate::shown::shown;
use search_deeds::gather;
use search_machine::{Machine, Step, StepRefused};
use std::alloc::Global;
use std::process::Abort;
use std::test::Fail;
use violation_profiles::Problem;

/// An input with a compromise between two classes, and one whose second class no ranking makes optimal.
const COMPROMISE: [[[u8; 3]; 3]; 2] = [
    [[2, 0, 0], [0, 2, 0], [1, 1, 0]],
    [[0, 0, 0], [1, 0, 0], [1, 0, 0]],
];

#[test]
fn steps_that_are_not_enabled_are_refused(rt: HostRuntime) -> Result<(), Fail> {
    let p = problem(rt.alloc(), &TWO_CODAS)?;
    let mut machine = Machine::new(rt.alloc(), &p, 3, 16)?;
    assert_eq!(rt; machine.step(Step::Settle(0)), Err(StepRefused::NotEnabled));
    assert_eq!(rt; machine.step(Step::Take(1)), Err(StepRefused::NotEnabled));
    assert_eq!(rt; machine.step(Step::Steal(1, 0)), Ok(()));
    assert_eq!(rt; machine.step(Step::Take(0)), Err(StepRefused::NotEnabled));
    Ok(())
}

/// Tries each step of a worker, a steal from the next one first.
fn turn(machine: &mut Machine, w: usize, next: usize)
    ensures { machine.new.problem ≡ machine.old.problem }
{
    let _ = machine.step(Step::Steal(w, next));
    let _ = machine.step(Step::Take(w));
    let _ = machine.step(Step::Consult(w));
    let _ = machine.step(Step::Learn(w));
    let _ = machine.step(Step::Settle(w));
    let _ = machine.step(Step::Put(w));
}

/// Gives each of three workers so many turns.
fn take_turns(machine: &mut Machine, turns: usize)
    ensures { machine.new.problem ≡ machine.old.problem }
{
    for _ in 0..turns {
        turn(machine, 0, 1);
        turn(machine, 1, 2);
        turn(machine, 2, 0);
    }
}

/// Whether turns of three workers with one place come to this typology.
fn finds(
    rt: &impl Abort,
    alloc: Global,
    name: &str,
    problem: &Problem,
    typology: &str,
) -> Result<(), Fail> {
    let mut machine = Machine::new(alloc, problem, 3, 1)?;
    take_turns(&mut machine, 100);
    assert!(rt; machine.finished(), "{name}");
    let found = gather(alloc, problem, machine.deeds())?;
    let text = shown(alloc, &found)?;
    assert_eq!(rt; text.as_str(), typology, "{name}");
    Ok(())
}

#[test]
fn turns_of_three_workers_find_the_typology(rt: HostRuntime) -> Result<(), Fail> {
    let alloc = rt.alloc();
    finds(
        &rt,
        alloc,
        "two codas",
        &problem(alloc, &TWO_CODAS)?,
        "1 1 211\n2 2 121\n3 3 112\n1 2 #1\n1 3 #2\n2 1 #3\n2 3 #4\n3 1 #5\n3 2 #6\n1:1>2 2:2>1 \n1:1>3 2:3>1 \n1:2>1 2:1>2 \n1:2>3 2:3>2 \n1:3>1 2:1>3 \n1:3>2 2:2>3 \n",
    )?;
    finds(
        &rt,
        alloc,
        "a compromise",
        &problem(alloc, &COMPROMISE)?,
        "1 1 211\n2 1 121\n1 2 #1\n2 2 #1\n3 #2\n2:2>1 \n1:3>1 1:3>2 \n",
    )?;
    finds(
        &rt,
        alloc,
        "syllables",
        &problem(alloc, &SYLLABLES)?,
        "1 1 2211\n1 2 3112\n1 3 3121\n2 1 1312\n2 2 1112\n3 1 1321\n3 3 1121\n2 3 #1\n3 2 #2\n1:2>3 2:3>2 \n1:3>2 2:2>3 \n",
    )?;
    finds(
        &rt,
        alloc,
        "another certificate",
        &problem(alloc, &OTHER_CERTIFICATE)?,
        "1 2 2121\n2 2 1211\n3 2 2112\n1 1 #1\n1 3 #2\n2 1 #1\n2 3 #3\n3 1 #1\n3 3 #3\n2:1>2 \n1:1>2 2:3>1 \n2:3>2 \n",
    )
}
