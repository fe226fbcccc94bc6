//! Problems from rows of violations, and from given pairs.

ghost use Rattle.std.specs.Prelude.{◌≡◌, ◌≤◌, All, IfOk, IsTrue, length};
ghost use Rattle.ot_theory.specs.Problems.{IsPair};
ghost use Rattle.ot_base.specs.Acceptable.{AreRows};
ghost use Rattle.ot_base.specs.Tableaus.{pair_of, pairs_in};

use erc_vectors::{ConId, List, NoMemory};
use ot_base::{GIVEN_LIMIT, InputRows, Pair, input_of, tableau_of};
use std::alloc::Global;
use std::process::Abort;
use violation_profiles::Problem;

/// Each candidate violates another constraint.
pub(crate) const CODA: [[u8; 3]; 3] = [[1, 0, 0], [0, 1, 0], [0, 0, 1]];

/// Two inputs that are repaired alike.
pub(crate) const TWO_CODAS: [[[u8; 3]; 3]; 2] = [CODA, CODA];

/// Basic syllable structure.
pub(crate) const SYLLABLES: [[[u8; 4]; 3]; 2] = [
    [[1, 0, 0, 0], [0, 0, 0, 1], [0, 0, 1, 0]],
    [[0, 1, 0, 0], [0, 0, 0, 1], [0, 0, 1, 0]],
];

/// The last choice is refuted by what an earlier one teaches, and has another certificate of its own.
pub(crate) const OTHER_CERTIFICATE: [[[u8; 4]; 3]; 2] = [
    [[1, 0, 1, 0], [0, 1, 0, 0], [1, 0, 0, 1]],
    [[1, 0, 0, 0], [0, 0, 0, 0], [0, 1, 0, 0]],
];

/// The problem of inputs of three candidates each, of which stand here the violations.
pub(crate) fn problem<const N: usize>(
    alloc: Global,
    inputs: &[[[u8; N]; 3]],
) -> Result<Problem, NoMemory>
    requires constraints { (1 ≤ N) × (N ≤ 4) }
    requires some { 1 ≤ length inputs.now }
    requires few { length inputs.now ≤ 3 }
{
    let mut list = List::new(alloc);
    for rows in inputs {
        list.push(input(alloc, rows)?)?;
    }
    let names = &["A", "B", "C", "D"][..N];
    Problem::of(alloc, &tableau_of(alloc, names, names, list)?)
}

fn input<const N: usize>(alloc: Global, rows: &[[u8; N]; 3]) -> Result<InputRows, NoMemory>
    requires { N ≤ 4 }
    ensures rows { IfOk result (AreRows N) }
    ensures candidates { IfOk result (λ input. length input.candidates ≡ 3) }
{
    input_of(alloc, "", &rows.map(|marks| ("", 0, marks)))
}

/// The same problem with these given pairs, of each its upper and its lower constraint, numbered from 0.
pub(crate) fn with_given(
    rt: &impl Abort,
    alloc: Global,
    problem: Problem,
    pairs: &[(u16, u16)],
) -> Result<Problem, NoMemory> {
    let mut list = List::new(alloc);
    for (above, below) in pairs {
        list.push(Pair {
            above: ConId(*above),
            below: ConId(*below),
        })?;
    }
    assert!(rt; list.len() <= GIVEN_LIMIT);
    assert!(rt; are_pairs(problem.constraints(), list.as_slice()));
    Ok(problem.with_given(list))
}

/// Whether these are pairs of two different constraints of so many.
fn are_pairs(width: usize, pairs: &[Pair]) -> bool
    ensures { IsTrue result → All (IsPair width) (pairs_in pairs.now) }
{
    pairs.iter().all(|pair| is_pair(width, pair))
}

/// Whether a pair is one of two different constraints of so many.
fn is_pair(width: usize, pair: &Pair) -> bool
    ensures { IsTrue result → IsPair width (pair_of pair.now) }
{
    let above = usize::from(pair.above.0);
    let below = usize::from(pair.below.0);
    above < width && below < width && above != below
}
