//! What a worker has in its hand, and what its steps make of that.

ghost use Rattle.std.specs.Prelude.{◌≡◌, ◌<◌, ◌++◌, ◌∷◌, [], None, Some, length, IfOk, OnOk, OnErr, IfSome, OnSome, IsSome, Option, option_map, slice_index_or, flat_map};
ghost use Rattle.ot_theory.specs.Problems as problems;
ghost use Rattle.refutation.specs.Typologies.{certificates_of};
ghost use Rattle.violation_profiles.specs.WellFormed.{IsPrefix};
ghost use Rattle.search_deeds.specs.Deeds.{children, opened_by};
ghost use Rattle.search_deeds.specs.Gathered.{deeds_in, fate_of};
ghost use Rattle.search_deeds.specs.Made.{AreMade};
ghost use Rattle.search_machine.specs.Kept.{IsTrueMark};
ghost use Rattle.search_machine.specs.Machine.{IsFate, judged, judging, passing, store_with, in_hand};
ghost use Rattle.search_machine.specs.Seen.{HasLeast, IsLeastFor, hand_seen, mark_seen};
ghost use Rattle.search_machine.specs.Held.{IsKnown, IsOpenable, IsSettled};

use crate::finding::judge_with;
use crate::queue::Queue;
use erc_vectors::{List, NoMemory, Strata};
use refutation::{Contradiction, Finding, Prefix, refutes};
use search_deeds::{Deed, Deeds, Fate, Ready};
use std::alloc::Global;
use violation_profiles::Problem;

/// What is known of a prefix in a hand.
#[derive(Debug, Drop)]
pub(crate) enum Mark {
    /// Nothing yet.
    Unknown,
    /// It holds under some ranking, and this is the least hierarchy of its conditions.
    Open(Strata),
    /// This contradiction refutes it.
    Refuted(Contradiction),
}

/// A prefix, how many entries of the store were consulted for it, and its mark.
#[derive(Debug, Drop)]
pub(crate) struct Hand {
    pub(crate) prefix: Prefix,
    pub(crate) cursor: usize,
    pub(crate) mark: Mark,
}

/// A prefix that has just come into a hand.
pub(crate) fn picked(prefix: Prefix) -> Hand
    ensures seen { hand_seen result ≡ in_hand prefix }
    ensures least { (problem : problems.Problem) → HasLeast problem (Some result) }
{
    Hand {
        prefix,
        cursor: 0,
        mark: Mark::Unknown,
    }
}

/// Passes the next entry of the store. If it refutes the prefix, it becomes its mark.
pub(crate) fn pass(hand: &mut Option<Hand>, store: &[Contradiction]) -> Result<(), NoMemory>
    requires { IfSome hand.old (λ held. held.cursor < length store.now) }
    ensures seen { OnOk result (option_map hand_seen hand.new ≡ option_map (λ held. passing (slice_index_or (certificates_of store.now) held.cursor []) held) (option_map hand_seen hand.old)) }
    ensures least { OnOk result ((problem : problems.Problem) → HasLeast problem hand.old → HasLeast problem hand.new) }
    ensures refused { OnErr result (hand.new ≡ hand.old) }
{
    let Some(held) = hand else {
        return Ok(());
    };
    let entry = &store[held.cursor];
    if refutes(entry, held.prefix.as_slice()) {
        held.mark = Mark::Refuted(entry.copy()?);
    }
    held.cursor += 1;
    Ok(())
}

/// Judges the prefix by demotion. The certificate of a refuted one goes into the store if it has fewer entries than places.
pub(crate) fn learn(
    alloc: Global,
    p: &Problem,
    ready: &mut Ready,
    hand: &mut Option<Hand>,
    store: &mut List<Contradiction>,
    places: usize,
) -> Result<(), NoMemory>
    requires prefix { IfSome hand.old (λ held. IsPrefix p.now held.prefix) }
    requires made { AreMade p.now ready.old }
    ensures made { AreMade p.now ready.new }
    ensures seen { OnOk result (option_map hand_seen hand.new ≡ option_map (judging p.now) (option_map hand_seen hand.old)) }
    ensures store { OnOk result (IfSome hand.old (λ held. certificates_of store.new ≡ store_with p.now places (certificates_of store.old) held.prefix)) }
    ensures genuine { OnOk result (IfSome hand.old (λ held. IsTrueMark p.now held.prefix (judged p.now held.prefix))) }
    ensures least { OnOk result (HasLeast p.now hand.new) }
    ensures refused { OnErr result (hand.new ≡ hand.old) }
    ensures same_store { OnErr result (store.new ≡ store.old) }
{
    let Some(held) = hand else {
        return Ok(());
    };
    match judge_with(alloc, p, ready, held.prefix.as_slice())? {
        Finding::Holds(strata) => held.mark = Mark::Open(strata),
        Finding::Refuted(found) => {
            if store.len() < places {
                store.push(found.copy()?)?;
            }
            held.mark = Mark::Refuted(found);
        }
    }
    Ok(())
}

/// What becomes of a prefix whose mark is known.
fn fate_of(p: &Problem, held: &Hand) -> Result<Fate, NoMemory>
    requires prefix { IsPrefix p.now held.now.prefix }
    requires known { IsKnown held.now.mark }
    requires least { IsLeastFor p.now held.now.prefix held.now.mark }
    ensures { IfOk result (λ fate. IsFate p.now held.now.prefix (mark_seen held.now.mark) (fate_of fate)) }
{
    match &held.mark {
        Mark::Refuted(found) => Ok(Fate::Cut(found.copy()?)),
        Mark::Open(strata) if held.prefix.as_slice().len() == p.inputs() => Ok(Fate::Language(
            *strata,
        )),
        _ => Ok(Fate::Opened),
    }
}

/// The children of the prefix of a deed, if it is opened.
fn children_of(alloc: Global, p: &Problem, deed: &Deed) -> Result<Queue, NoMemory>
    requires { IsOpenable p.now deed.now }
    ensures { IfOk result (λ queue. queue ≡ flat_map (children p.now) (opened_by deed.now.prefix (fate_of deed.now.fate))) }
{
    match deed.fate {
        Fate::Opened => Queue::of_children(alloc, p, &deed.prefix),
        _ => Ok(Queue::new(alloc)),
    }
}

/// Adds a deed, and the children of its prefix to the outbox.
fn add(outbox: &mut Queue, deeds: &mut Deeds, deed: Deed, children: Queue) -> Result<(), NoMemory>
    ensures outbox { OnOk result (outbox.new ≡ outbox.old ++ children) }
    ensures deeds { OnOk result (deeds.new ≡ deeds.old ++ deed ∷ []) }
    ensures same_outbox { OnErr result (outbox.new ≡ outbox.old) }
    ensures same_deeds { OnErr result (deeds.new ≡ deeds.old) }
{
    let before = outbox.len();
    outbox.append(children)?;
    if deeds.push(deed).is_err() {
        outbox.truncate(before);
        return Err(NoMemory);
    }
    Ok(())
}

/// Adds the deed of a prefix whose mark is known, and its children to the outbox where it is opened. The hand becomes empty.
pub(crate) fn settle(
    alloc: Global,
    p: &Problem,
    hand: &mut Option<Hand>,
    outbox: &mut Queue,
    deeds: &mut Deeds,
) -> Result<(), NoMemory>
    requires { IfSome hand.old (λ held. IsPrefix p.now held.prefix × IsKnown held.mark × IsLeastFor p.now held.prefix held.mark) }
    ensures settled { OnOk result (IfSome hand.old (λ held. IsSettled p.now (hand_seen held) outbox.old outbox.new (deeds_in deeds.old) (deeds_in deeds.new))) }
    ensures emptied { OnOk result (hand.new ≡ None) }
    ensures refused { OnErr result (hand.new ≡ hand.old) }
    ensures same_outbox { OnErr result (outbox.new ≡ outbox.old) }
    ensures same_deeds { OnErr result (deeds.new ≡ deeds.old) }
{
    let Some(held) = hand else {
        return Ok(());
    };
    let fate = fate_of(p, held)?;
    let deed = Deed {
        prefix: held.prefix.copy()?,
        fate,
    };
    let children = children_of(alloc, p, &deed)?;
    add(outbox, deeds, deed, children)?;
    *hand = None;
    Ok(())
}
