//! Problems from rows of violations, and from given pairs.

ghost use Rattle.std.specs.Prelude.{◌≡◌, ◌≤◌, All, IfOk, IsTrue, length};
ghost use Rattle.ot_theory.specs.Problems.{IsPair};
ghost use Rattle.ot_base.specs.Acceptable.{AreRows};
ghost use Rattle.ot_base.specs.Tableaus.{pair_of, pairs_in};

use erc_vectors::{ConId, List, NoMemory};
use ot_base::{GIVEN_LIMIT, InputRows, Pair, input_of, tableau_of};
use std::alloc::Global;
use std::process::Abort;
use violation_profiles::Problem;

/// The problem of two inputs of three candidates, of which stand here the counts and the violations.
pub(crate) fn problem<const N: usize>(
    alloc: Global,
    inputs: &[[(u64, [u8; N]); 3]; 2],
) -> Result<Problem, NoMemory>
    requires { (1 ≤ N) × (N ≤ 4) }
{
    let mut list = List::new(alloc);
    list.push(input(alloc, &inputs[0])?)?;
    list.push(input(alloc, &inputs[1])?)?;
    let names = &["A", "B", "C", "D"][..N];
    Problem::of(alloc, &tableau_of(alloc, names, names, list)?)
}

fn input<const N: usize>(alloc: Global, rows: &[(u64, [u8; N]); 3]) -> Result<InputRows, NoMemory>
    requires { N ≤ 4 }
    ensures rows { IfOk result (AreRows N) }
    ensures candidates { IfOk result (λ input. length input.candidates ≡ 3) }
{
    let [first, second, third] = rows;
    let rows = [
        ("", first.0, first.1),
        ("", second.0, second.1),
        ("", third.0, third.1),
    ];
    input_of(alloc, "", &rows)
}

/// The same problem with these given pairs, of each its upper and its lower constraint, numbered from 0.
pub(crate) fn with_given(
    rt: &impl Abort,
    alloc: Global,
    problem: Problem,
    pairs: &[(u16, u16)],
) -> Result<Problem, NoMemory> {
    let mut list = List::new(alloc);
    for (above, below) in pairs {
        list.push(Pair {
            above: ConId(*above),
            below: ConId(*below),
        })?;
    }
    assert!(rt; list.len() <= GIVEN_LIMIT);
    assert!(rt; are_pairs(problem.constraints(), list.as_slice()));
    Ok(problem.with_given(list))
}

/// Whether these are pairs of two different constraints of so many.
fn are_pairs(width: usize, pairs: &[Pair]) -> bool
    ensures { IsTrue result → All (IsPair width) (pairs_in pairs.now) }
{
    pairs.iter().all(|pair| is_pair(width, pair))
}

/// Whether a pair is one of two different constraints of so many.
fn is_pair(width: usize, pair: &Pair) -> bool
    ensures { IsTrue result → IsPair width (pair_of pair.now) }
{
    let above = usize::from(pair.above.0);
    let below = usize::from(pair.below.0);
    above < width && below < width && above != below
}
