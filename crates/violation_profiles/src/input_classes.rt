//! One input: its classes, and the class of its winner.

ghost use Rattle.std.specs.Prelude.{All, ◌≡◌, ◌<◌, ◌≤◌, [], length, slice_index_or, IfOk};
ghost use Rattle.ot_base.specs.declared.limits.TheConstants.{CANDIDATE_LIMIT};
ghost use Rattle.ot_base.specs.Tableaus.{input_of_rows};
ghost use Rattle.ot_theory.specs.Conditions.{condition, is_win, is_loss};
ghost use Rattle.erc_vectors.specs.declared.condition.TheConstants.{LIMIT};
ghost use Rattle.erc_vectors.specs.Masks.{IsMask};

use crate::classes::{Class, classes_of};
use crate::winner::winner_of;
use erc_vectors::{LIMIT, Mask, NoMemory};
use ot_base::InputRows;
use std::alloc::Global;
use std::marker::Model;

/// The classes of an input's candidates in order of first candidate, and the class of its winner.
#[derive(Debug, Drop)]
pub(crate) struct InputClasses {
    classes: Vec<Class>,
    winner: Option<u16>,
}

impl Model for InputClasses {
    ghost use Rattle.std.specs.Prelude.{map, All};
    ghost use Rattle.ot_theory.specs.Problems.{Input};
    ghost use Rattle.violation_profiles.specs.Planes.{HasPlanes};

    ghost Value = { Input };

    ghost view = { λ input. record { classes = map (λ class. class.profile) input.classes.items; members = map (λ class. class.members) input.classes.items; winner = input.winner } };

    ghost invariant = { λ input. All HasPlanes input.classes.items };
}

impl InputClasses {
    /// The classes and the winner of an input's candidates.
    pub(crate) fn of(alloc: Global, rows: &InputRows) -> Result<InputClasses, NoMemory>
        requires few { length rows.now.candidates ≤ CANDIDATE_LIMIT }
        requires narrow { All (λ row. length row.violations ≤ LIMIT) rows.now.candidates }
        ensures { IfOk result (λ input. input ≡ input_of_rows rows.now) }
    {
        let candidates = rows.candidates.as_slice();
        let classes = classes_of(alloc, candidates)?;
        let winner = winner_of(candidates, classes.as_slice());
        Ok(InputClasses { classes, winner })
    }

    /// The number of classes.
    pub(crate) fn len(&self) -> usize
        ensures { result ≡ length self.now.classes }
    {
        self.classes.len()
    }

    /// The profile of a class.
    pub(crate) fn profile(&self, a: usize) -> &[u32]
        requires { a < length self.now.classes }
        ensures { result.now ≡ slice_index_or self.now.classes a [] }
    {
        self.classes[a].profile.as_slice()
    }

    /// The constraints at which the one class has fewer violations than the other, and those at which it has more.
    pub(crate) fn masks(&self, a: usize, b: usize) -> (Mask, Mask)
        requires winner { a < length self.now.classes }
        requires loser { b < length self.now.classes }
        requires same { length (slice_index_or self.now.classes b []) ≡ length (slice_index_or self.now.classes a []) }
        requires small { length (slice_index_or self.now.classes a []) ≤ LIMIT }
        ensures wins { IsMask is_win (condition (slice_index_or self.now.classes a []) (slice_index_or self.now.classes b [])) result.0 }
        ensures losses { IsMask is_loss (condition (slice_index_or self.now.classes a []) (slice_index_or self.now.classes b [])) result.1 }
    {
        self.classes[a].masks_over(&self.classes[b])
    }

    /// The positions of a class's candidates, in order.
    pub(crate) fn members(&self, a: usize) -> &[u32]
        requires { a < length self.now.members }
        ensures { result.now ≡ slice_index_or self.now.members a [] }
    {
        self.classes[a].members.as_slice()
    }

    /// The class of the winner.
    pub(crate) fn winner(&self) -> Option<u16>
        ensures { result ≡ self.now.winner }
    {
        self.winner
    }
}
