//! What is found of a prefix: by the values of the front, or by demotion.

ghost use Rattle.std.specs.Prelude.{◌≡◌, ◌≤◌, ◌⊎◌, length, option_copied, IfOk, OnOk};
ghost use Rattle.ot_base.specs.Causes.{next_number};
ghost use Rattle.refutation.specs.Prefixes.{class_numbers};
ghost use Rattle.refutation.specs.Typologies.{certificates_of};
ghost use Rattle.search_deeds.specs.Sieved.{AreMarked};
ghost use Rattle.typology_workers.specs.Consulted.{HoldsAll};
ghost use Rattle.typology_workers.specs.Found.{IsFound, IsFoundIn, IsKeptFor, value_for};
ghost use Rattle.typology_workers.specs.Indexed.{IsIndex};
ghost use Rattle.typology_workers.specs.Paths.{IsPathOf};
ghost use Rattle.typology_workers.specs.Stays.{KeepsFront};
ghost use Rattle.violation_profiles.specs.WellFormed.{IsPrefix};

use crate::index::Index;
use crate::path::Path;
use erc_vectors::NoMemory;
use ot_base::ClassId;
use refutation::{Contradiction, Prefix};
use refutation_store::{Front, Store};
use search_machine::Finding;
use std::alloc::Global;
use violation_profiles::Problem;

/// Looks until there is nothing more to see.
pub(crate) fn look_all(store: &Store, front: &mut Front)
    requires { front.old.store ≡ store.now }
    ensures stays { KeepsFront (length store.now) front.old front.new }
    ensures looked { HoldsAll (length store.now) front.new.values ⊎ (front.new.misses ≡ next_number front.old.misses) }
{
    prove!(front.misses() <= u64::MAX);
    while let Some(_) = store.look(front) {}
}

/// What is found of a prefix: that the first value of the front refutes it that is a contradiction of the problem and does, or, where
/// there is none, what demotion finds. A contradiction that demotion finds is then kept in the store.
pub(crate) fn find(
    alloc: Global,
    p: &Problem,
    store: &Store,
    front: &mut Front,
    index: &mut Index,
    path: &mut Path,
    prefix: &Prefix,
) -> Result<Finding, NoMemory>
    requires store { front.old.store ≡ store.now }
    requires index { IsIndex p.now index.old.slots.items index.old.indexed front.old.values }
    requires marked { AreMarked (certificates_of front.old.values) index.old.slots.items index.old.marks.items }
    requires prefix { IsPrefix p.now prefix.now }
    requires path { IsPathOf p.now path.old }
    ensures stays { KeepsFront (length store.now) front.old front.new }
    ensures path { OnOk result (IsPathOf p.now path.new) }
    ensures index { OnOk result (IsIndex p.now index.new.slots.items index.new.indexed front.old.values) }
    ensures marked { OnOk result (AreMarked (certificates_of front.old.values) index.new.slots.items index.new.marks.items) }
    ensures found { IfOk result (IsFound p.now prefix.now (value_for p.now front.old.values prefix.now)) }
    ensures kept { IfOk result (IsFoundIn (length store.now) (value_for p.now front.old.values prefix.now) front.old.values front.new.values) }
{
    match consult(p, store, front, index, prefix.as_slice())? {
        Some(value) => Ok(Finding::Refuted(value.copy()?)),
        None => learn(alloc, p, store, front, path, prefix),
    }
}

/// The first value of the front that is a contradiction of the problem and refutes the prefix.
fn consult<'s>(
    p: &Problem,
    store: &'s Store,
    front: &Front,
    index: &mut Index,
    prefix: &[ClassId],
) -> Result<Option<&'s Contradiction>, NoMemory>
    requires store { front.now.store ≡ store.now }
    requires index { IsIndex p.now index.old.slots.items index.old.indexed front.now.values }
    requires marked { AreMarked (certificates_of front.now.values) index.old.slots.items index.old.marks.items }
    requires prefix { IsPrefix p.now (class_numbers prefix.now) }
    ensures value { IfOk result (λ value. option_copied value ≡ value_for p.now front.now.values (class_numbers prefix.now)) }
    ensures index { OnOk result (IsIndex p.now index.new.slots.items index.new.indexed front.now.values) }
    ensures marked { OnOk result (AreMarked (certificates_of front.now.values) index.new.slots.items index.new.marks.items) }
{
    index.learn(p, store, front)?;
    let first = index.first(p, store, front, prefix);
    if first < front.len() {
        return Ok(Some(store.seen(front, first)));
    }
    Ok(None)
}

/// What demotion finds of a prefix. A contradiction is kept in the store.
fn learn(
    alloc: Global,
    p: &Problem,
    store: &Store,
    front: &mut Front,
    path: &mut Path,
    prefix: &Prefix,
) -> Result<Finding, NoMemory>
    requires store { front.old.store ≡ store.now }
    requires prefix { IsPrefix p.now prefix.now }
    requires path { IsPathOf p.now path.old }
    ensures stays { KeepsFront (length store.now) front.old front.new }
    ensures path { OnOk result (IsPathOf p.now path.new) }
    ensures found { IfOk result (IsFound p.now prefix.now None) }
    ensures kept { IfOk result (IsKeptFor (length store.now) front.new.values) }
{
    let finding = path.judge(alloc, p, prefix.as_slice())?;
    keep(store, front, &finding)?;
    Ok(finding)
}

fn keep(store: &Store, front: &mut Front, finding: &Finding) -> Result<(), NoMemory>
    requires { front.old.store ≡ store.now }
    ensures stays { KeepsFront (length store.now) front.old front.new }
    ensures kept { OnOk result (IsKeptFor (length store.now) front.new.values finding.now) }
{
    if let Finding::Refuted(found) = finding {
        store.keep(front, found)?;
    }
    Ok(())
}
