//! What the gatherer of a search settles itself.

ghost use Rattle.std.specs.Prelude.{◌≡◌, ◌<◌, ◌++◌, length, flat_map, IfOk, OnOk};
ghost use Rattle.search_deeds.specs.Deeds.{IsTrueOf, children, opened_by};
ghost use Rattle.search_deeds.specs.Gathered.{fate_of};
ghost use Rattle.search_deeds.specs.Made.{AreMade};
ghost use Rattle.search_deeds.specs.declared.deed.Fate.TheVariants as fates;
ghost use Rattle.typology_workers.specs.Gatherings.{SettlesOne};
ghost use Rattle.violation_profiles.specs.WellFormed.{IsPrefix};

use erc_vectors::NoMemory;
use ot_base::{ClassId, INPUT_LIMIT, InId};
use refutation::Prefix;
use search_deeds::{Deed, Deeds, Fate, Ready};
use search_machine::{fate_for, judge_with};
use std::alloc::Global;
use std::collections::VecDeque;
use violation_profiles::Problem;

/// The deeds of the gatherer, in the order of settling, and the prefixes that wait for it.
#[derive(Drop)]
pub(crate) struct Gatherer {
    pub(crate) deeds: Deeds,
    pub(crate) waiting: VecDeque<Prefix>,
}

/// Settles a prefix of the problem by demotion. Where it is opened, its children wait behind the others.
pub(crate) fn settle(
    alloc: Global,
    p: &Problem,
    ready: &mut Ready,
    prefix: Prefix,
    gatherer: &mut Gatherer,
) -> Result<(), NoMemory>
    requires prefix { IsPrefix p.now prefix }
    requires made { AreMade p.now ready.old }
    ensures settles { OnOk result (SettlesOne p.now prefix gatherer.old gatherer.new) }
    ensures made { AreMade p.now ready.new }
{
    let fate = judged_fate(alloc, p, ready, &prefix)?;
    add_children(p, &prefix, &fate, &mut gatherer.waiting)?;
    gatherer.deeds.push(Deed { prefix, fate })
}

/// What becomes of a prefix of the problem, by demotion.
fn judged_fate(
    alloc: Global,
    p: &Problem,
    ready: &mut Ready,
    prefix: &Prefix,
) -> Result<Fate, NoMemory>
    requires prefix { IsPrefix p.now prefix.now }
    requires made { AreMade p.now ready.old }
    ensures fate { IfOk result (λ fate. IsTrueOf p.now prefix.now (fate_of fate)) }
    ensures made { AreMade p.now ready.new }
{
    let finding = judge_with(alloc, p, ready, prefix.as_slice())?;
    Ok(fate_for(p, prefix, finding))
}

/// Adds the children of a prefix behind those that wait, in class order, if it is opened.
fn add_children(
    p: &Problem,
    prefix: &Prefix,
    fate: &Fate,
    waiting: &mut VecDeque<Prefix>,
) -> Result<(), NoMemory>
    requires { fate.now ≡ fates.Opened → length prefix.now < length p.now.inputs }
    ensures { OnOk result (waiting.new.items ≡ waiting.old.items ++ flat_map (children p.now) (opened_by prefix.now (fate_of fate.now))) }
{
    match fate {
        Fate::Opened => add_all_children(p, prefix, waiting),
        _ => Ok(()),
    }
}

/// Adds the children of a prefix that is no full choice behind those that wait, in class order.
fn add_all_children(
    p: &Problem,
    prefix: &Prefix,
    waiting: &mut VecDeque<Prefix>,
) -> Result<(), NoMemory>
    requires { length prefix.now < length p.now.inputs }
    ensures { OnOk result (waiting.new.items ≡ waiting.old.items ++ children p.now prefix.now) }
{
    prove!(p.inputs() <= INPUT_LIMIT);
    let next = InId(prefix.as_slice().len() as u32);
    for a in 0..p.classes(next) {
        waiting.push_back(prefix.child(ClassId(a as u16))?)?;
    }
    Ok(())
}
