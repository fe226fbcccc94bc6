//! The winner of an input, by the counts of its candidates.

ghost use Rattle.std.specs.Prelude.{◌≡◌, ◌<◌, ◌≤◌, length, map, find, IfSome};
ghost use Rattle.ot_base.specs.declared.limits.TheConstants.{CANDIDATE_LIMIT};
ghost use Rattle.ot_theory.specs.Rankings.{numbers_below};
ghost use Rattle.ot_theory.specs.Problems.{classes_of, is_winning, winner_of};

use crate::classes::{Class, class_of};
use ot_base::CandidateRow;

/// The class of the winning candidate, and None where no count is positive.
pub(crate) fn winner_of(candidates: &[CandidateRow], classes: &[Class]) -> Option<u16>
    requires few { length classes.now ≤ CANDIDATE_LIMIT }
    requires classes { map (λ class. class.profile) classes.now ≡ classes_of (map (λ row. row.violations) candidates.now) }
    ensures { result ≡ winner_of (map (λ row. row.violations) candidates.now) (map (λ row. row.count) candidates.now) }
{
    let k = winning_candidate(candidates)?;
    let class = class_of(classes, candidates[k].violations.as_slice())?;
    Some(class as u16)
}

/// The first candidate with the greatest positive count, if there is one.
fn winning_candidate(candidates: &[CandidateRow]) -> Option<usize>
    ensures winner { let counts = map (λ row. row.count) candidates.now in result ≡ find (is_winning counts) (numbers_below (length counts)) }
    ensures within { IfSome result (λ k. k < length candidates.now) }
{
    let mut winner = None;
    let mut greatest = 0;
    for (k, row) in candidates.iter().enumerate() {
        if row.count > greatest {
            greatest = row.count;
            winner = Some(k);
        }
    }
    winner
}
