//! The classes of one input's candidates: each distinct profile, in order of first candidate, and its members.

ghost use Rattle.std.specs.Prelude.{All, ◌≡◌, ◌<◌, ◌≤◌, List, ℕ, [], ◌∷◌, ◌++◌, length, map, position, true, IfOk, IfSome, OnOk};
ghost use Rattle.ot_base.specs.declared.limits.TheConstants.{CANDIDATE_LIMIT};
ghost use Rattle.erc_vectors.specs.declared.condition.TheConstants.{LIMIT};
ghost use Rattle.erc_vectors.specs.Masks.{IsMask};
ghost use Rattle.ot_theory.specs.Conditions.{condition, is_win, is_loss};
ghost use Rattle.ot_theory.specs.Problems.{same_profile};
ghost use Rattle.violation_profiles.specs.Classes.{AreClassesOf, key_of, keys_of};
ghost use Rattle.violation_profiles.specs.Planes.{HasPlanes, planes_of};

use crate::masks::masks_of;
use crate::planes::Planes;
use erc_vectors::{LIMIT, List, Mask, NoMemory};
use ot_base::CandidateRow;
use std::alloc::Global;

/// A class: the profile of its candidates, with its bit planes, and their positions in the input, from 0 on and in order.
#[derive(Debug, Drop)]
pub(crate) struct Class {
    pub(crate) profile: List<u32>,
    pub(crate) planes: Planes,
    pub(crate) members: List<u32>,
}

impl Class {
    /// The class of one candidate alone.
    fn of(alloc: Global, profile: &[u32], planes: Planes, candidate: u32) -> Result<Class, NoMemory>
        ensures { IfOk result (λ class. (class.profile ≡ profile.now) × (class.planes ≡ planes) × (class.members ≡ candidate ∷ [])) }
    {
        Ok(Class {
            profile: List::of(alloc, profile)?,
            planes,
            members: List::of(alloc, &[candidate])?,
        })
    }

    /// The constraints at which the class has fewer violations than the other, and those at which it has more.
    pub(crate) fn masks_over(&self, loser: &Class) -> (Mask, Mask)
        requires same { length loser.now.profile ≡ length self.now.profile }
        requires small { length self.now.profile ≤ LIMIT }
        requires winner { HasPlanes self.now }
        requires loser { HasPlanes loser.now }
        ensures wins { IsMask is_win (condition self.now.profile loser.now.profile) result.0 }
        ensures losses { IsMask is_loss (condition self.now.profile loser.now.profile) result.1 }
    {
        match self.planes.masks_over(&loser.planes) {
            Some(masks) => masks,
            None => masks_of(self.profile.as_slice(), loser.profile.as_slice()),
        }
    }
}

/// The classes of an input's candidates.
pub(crate) fn classes_of(alloc: Global, candidates: &[CandidateRow]) -> Result<Vec<Class>, NoMemory>
    requires few { length candidates.now ≤ CANDIDATE_LIMIT }
    requires narrow { All (λ row. length row.violations ≤ LIMIT) candidates.now }
    ensures classes { IfOk result (λ classes. AreClassesOf (map (λ row. row.violations) candidates.now) classes.items) }
    ensures planes { IfOk result (λ classes. All HasPlanes classes.items) }
{
    let mut classes = Vec::with_capacity(alloc, candidates.len())?;
    let mut keys = List::from_vec(Vec::with_capacity(alloc, candidates.len())?);
    for (k, row) in candidates.iter().enumerate() {
        let profile = row.violations.as_slice();
        add_candidate(alloc, &mut classes, &mut keys, profile, k as u32)?;
    }
    Ok(classes)
}

/// Adds a candidate to the class of its profile, or as a new class. Beside the classes stands the key of each.
fn add_candidate(
    alloc: Global,
    classes: &mut Vec<Class>,
    keys: &mut List<u64>,
    profile: &[u32],
    candidate: u32,
) -> Result<(), NoMemory>
    requires narrow { length profile.now ≤ LIMIT }
    requires keys { keys.old ≡ keys_of classes.old.items }
    ensures classes { OnOk result ((profiles : List (List ℕ)) → length profiles ≡ candidate → AreClassesOf profiles classes.old.items
        → AreClassesOf (profiles ++ profile.now ∷ []) classes.new.items) }
    ensures keys { OnOk result (keys.new ≡ keys_of classes.new.items) }
    ensures planes { OnOk result (All HasPlanes classes.old.items → All HasPlanes classes.new.items) }
{
    let planes = Planes::of(profile);
    let key = planes.key();
    match class_with_key(classes.as_slice(), keys.as_slice(), profile, key) {
        Some(a) => classes[a].members.push(candidate),
        None => {
            keys.push(key)?;
            add_class(alloc, classes, profile, planes, candidate)
        }
    }
}

/// The class with this profile, by its key. A profile is compared only with those that have the same key.
fn class_with_key(classes: &[Class], keys: &[u64], profile: &[u32], key: u64) -> Option<usize>
    requires keys { keys.now ≡ keys_of classes.now }
    requires key { key ≡ key_of profile.now }
    ensures class { result ≡ position (λ class. same_profile profile.now class.profile) classes.now }
    ensures within { IfSome result (λ a. a < length classes.now) }
{
    for a in 0..classes.len() {
        if keys[a] == key && is_profile_of(&classes[a], profile) {
            return Some(a);
        }
    }
    None
}

/// Adds a candidate as a new class.
fn add_class(
    alloc: Global,
    classes: &mut Vec<Class>,
    profile: &[u32],
    planes: Planes,
    candidate: u32,
) -> Result<(), NoMemory>
    requires { planes ≡ planes_of profile.now }
    ensures class { OnOk result ((map (λ class. class.profile) classes.new.items ≡ map (λ class. class.profile) classes.old.items ++ profile.now ∷ [])
        × (map (λ class. class.members) classes.new.items ≡ map (λ class. class.members) classes.old.items ++ (candidate ∷ []) ∷ [])) }
    ensures planes { OnOk result (All HasPlanes classes.old.items → All HasPlanes classes.new.items) }
{
    classes.push(Class::of(alloc, profile, planes, candidate)?)?;
    Ok(())
}

/// The class with this profile.
pub(crate) fn class_of(classes: &[Class], profile: &[u32]) -> Option<usize>
    ensures class { result ≡ position (λ class. same_profile profile.now class.profile) classes.now }
    ensures within { IfSome result (λ a. a < length classes.now) }
{
    classes
        .iter()
        .position(|class| is_profile_of(class, profile))
}

/// Whether this is the profile of a class.
fn is_profile_of(class: &Class, profile: &[u32]) -> bool
    ensures { result ≡ same_profile profile.now class.now.profile }
{
    profile == class.profile.as_slice()
}
