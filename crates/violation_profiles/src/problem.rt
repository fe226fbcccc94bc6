//! The problem that a tableau poses: the classes of each input, and the conditions between them.

ghost use Rattle.std.specs.Prelude.{◌≡◌, ◌≢◌, ◌+◌, ◌*◌, ◌^◌, ◌<◌, ◌≤◌, All, length, nat_lt, is_some, IfOk, IfSome, option_map};
ghost use Rattle.erc_vectors.specs.declared.condition.TheConstants.{LIMIT};
ghost use Rattle.ot_base.specs.declared.limits.TheConstants.{INPUT_LIMIT, CANDIDATE_LIMIT, GIVEN_LIMIT};
ghost use Rattle.ot_base.specs.Acceptable.{IsAcceptable};
ghost use Rattle.ot_theory.specs.Conditions.{condition, is_win, is_loss};
ghost use Rattle.erc_vectors.specs.Masks.{IsMask};
ghost use Rattle.ot_theory.specs.Problems.{IsPair, givens, with_given};
ghost use Rattle.ot_theory.specs.Languages.{Given, condition_of, classes_at, members_at, profile_at, winner_at};
ghost use Rattle.ot_base.specs.Tableaus.{pair_of, pairs_in, problem_of};
ghost use Rattle.violation_profiles.specs.WellFormed.{IsWellFormed};

use crate::given::over;
use crate::input_classes::InputClasses;
use erc_vectors::{Condition, List, Mask, NoMemory};
use ot_base::{ClassId, InId, Pair, Tableau};
use std::alloc::Global;
use std::marker::Model;

/// A problem of optimality: a number of constraints, and inputs whose candidates fall into classes of equal profiles, which
/// are numbered in order of their first candidate. A contract sees it as the problem of the theory. It has at most 64
/// constraints and 1,000 inputs, and each input has 1 to 200 classes. Pairs of constraints may be given, at most 4,096, which a
/// ranking is to keep.
#[derive(Debug, Drop)]
pub struct Problem {
    constraints: usize,
    inputs: List<InputClasses>,
    given: Option<List<Pair>>,
}

impl Model for Problem {
    ghost use Rattle.std.specs.Prelude.{option_map};
    ghost use Rattle.ot_base.specs.Tableaus.{pairs_in};
    ghost use Rattle.ot_theory.specs.Problems as theory;
    ghost use Rattle.violation_profiles.specs.WellFormed.{IsWellFormed};

    ghost Value = { theory.Problem };

    ghost view = { λ problem. record { constraints = problem.constraints; inputs = problem.inputs; given = option_map pairs_in problem.given } };

    ghost invariant = { λ problem. IsWellFormed (record { constraints = problem.constraints; inputs = problem.inputs; given = option_map pairs_in problem.given }) };
}

impl Problem {
    /// The problem that a tableau poses, which is within the limits and not empty.
    pub fn of(alloc: Global, tableau: &Tableau) -> Result<Problem, NoMemory>
        requires { IsAcceptable tableau.now }
        ensures { IfOk result (λ problem. problem ≡ problem_of tableau.now) }
    {
        let mut inputs = List::new(alloc);
        for rows in tableau.inputs.as_slice() {
            inputs.push(InputClasses::of(alloc, rows)?)?;
        }
        Ok(Problem {
            constraints: tableau.names.len(),
            inputs,
            given: None,
        })
    }

    /// The same problem with these given pairs, each of two different constraints. There may be none.
    pub fn with_given(self, pairs: List<Pair>) -> Problem
        requires few { length pairs ≤ GIVEN_LIMIT }
        requires pairs { All (IsPair self.constraints) (pairs_in pairs) }
        ensures { result ≡ with_given self (pairs_in pairs) }
    {
        Problem {
            constraints: self.constraints,
            inputs: self.inputs,
            given: Some(pairs),
        }
    }

    /// The given pairs, in order: at most 4,096, and none where none were given.
    pub fn givens(&self) -> &[Pair]
        ensures value { pairs_in result.now ≡ givens self.now }
        ensures small { length result.now ≤ GIVEN_LIMIT }
    {
        match &self.given {
            Some(pairs) => pairs.as_slice(),
            None => &[],
        }
    }

    /// Whether pairs were given, be it none.
    pub fn has_givens(&self) -> bool
        ensures { result ≡ is_some self.now.given }
    {
        self.given.is_some()
    }

    /// The condition of a given pair, by its number from 0 on: W at the upper constraint, L at the lower one, and e elsewhere. It
    /// takes no memory.
    pub fn given_condition(&self, k: u32) -> Condition
        requires { k < length (givens self.now) }
        ensures marks { result ≡ condition_of self.now (Given k) }
        ensures width { length result ≡ self.now.constraints }
    {
        let pair = self.givens()[k as usize];
        over(self.constraints(), pair)
    }

    /// The number of constraints, at most 64.
    pub fn constraints(&self) -> usize
        ensures value { result ≡ self.now.constraints }
        ensures well_formed { IsWellFormed self.now }
    {
        self.constraints
    }

    /// The number of inputs, at most 1,000.
    pub fn inputs(&self) -> usize
        ensures value { result ≡ length self.now.inputs }
        ensures small { result ≤ INPUT_LIMIT }
        ensures well_formed { IsWellFormed self.now }
    {
        self.inputs.len()
    }

    /// The number of classes of an input, from 1 to 200.
    pub fn classes(&self, i: InId) -> usize
        requires { i.0 < length self.now.inputs }
        ensures value { result ≡ length (classes_at self.now i.0) }
        ensures some { 1 ≤ result }
        ensures small { result ≤ CANDIDATE_LIMIT }
    {
        self.inputs.as_slice()[i.0 as usize].len()
    }

    /// The profile of a class: a list of as many violations as there are constraints.
    pub fn profile(&self, i: InId, a: ClassId) -> &[u32]
        requires input { i.0 < length self.now.inputs }
        requires class { a.0 < length (classes_at self.now i.0) }
        ensures value { result.now ≡ profile_at self.now i.0 a.0 }
        ensures width { length result.now ≡ self.now.constraints }
    {
        self.inputs.as_slice()[i.0 as usize].profile(a.0 as usize)
    }

    /// The positions of the candidates of a class in their input, from 0 on and in order.
    pub fn members(&self, i: InId, a: ClassId) -> &[u32]
        requires input { i.0 < length self.now.inputs }
        requires class { a.0 < length (classes_at self.now i.0) }
        ensures { result.now ≡ members_at self.now i.0 a.0 }
    {
        self.inputs.as_slice()[i.0 as usize].members(a.0 as usize)
    }

    /// The class of an input's winner, the first candidate with the greatest count. None where no count of the input is
    /// positive.
    pub fn winner(&self, i: InId) -> Option<ClassId>
        requires { i.0 < length self.now.inputs }
        ensures value { option_map (λ a. a.0) result ≡ winner_at self.now i.0 }
        ensures class { IfSome result (λ a. a.0 < length (classes_at self.now i.0)) }
    {
        self.inputs.as_slice()[i.0 as usize].winner().map(ClassId)
    }

    /// The condition of one class of an input over another: an elementary ranking condition (Prince 2002), with W at each
    /// constraint that the winner violates less, L where it violates it more, and e elsewhere. It takes no memory.
    pub fn condition(&self, i: InId, a: ClassId, b: ClassId) -> Condition
        requires input { i.0 < length self.now.inputs }
        requires winner { a.0 < length (classes_at self.now i.0) }
        requires loser { b.0 < length (classes_at self.now i.0) }
        requires other { b.0 ≢ a.0 }
        ensures marks { result ≡ condition (profile_at self.now i.0 a.0) (profile_at self.now i.0 b.0) }
        ensures width { length result ≡ self.now.constraints }
    {
        let width = self.constraints();
        let (wins, losses) = self.masks(i, a, b);
        Condition::of_masks(width, wins, losses)
    }

    /// The constraints at which one class of an input has fewer violations than another, and those at which it has more.
    fn masks(&self, i: InId, a: ClassId, b: ClassId) -> (Mask, Mask)
        requires input { i.0 < length self.now.inputs }
        requires winner { a.0 < length (classes_at self.now i.0) }
        requires loser { b.0 < length (classes_at self.now i.0) }
        ensures wins { IsMask is_win (condition (profile_at self.now i.0 a.0) (profile_at self.now i.0 b.0)) result.0 }
        ensures losses { IsMask is_loss (condition (profile_at self.now i.0 a.0) (profile_at self.now i.0 b.0)) result.1 }
    {
        self.inputs.as_slice()[i.0 as usize].masks(a.0 as usize, b.0 as usize)
    }
}
