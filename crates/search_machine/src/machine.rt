//! The machine of the search: workers that share out the prefixes of choices, a step at a time, in whatever order.

ghost use Rattle.std.specs.List.{list_all};
ghost use Rattle.std.specs.Prelude.{◌≡◌, ◌≤◌, ◌↔◌, ◌&&◌, ◌==◌, is_none, ◌++◌, not, nat_lt, [], ◌∷◌, None, Some, true, false, length, map, replicate, slice_set, slice_index, IfOk, IfErr, OnOk, OnErr, IsTrue, Option, if◌then◌else◌};
ghost use Rattle.ot_base.specs.Causes.{next_number};
ghost use Rattle.search_deeds.specs.Deeds.{AreBalanced, AreHonest};
ghost use Rattle.search_deeds.specs.Gathered.{deeds_in, deeds_of};
ghost use Rattle.search_machine.specs.Machine.{IsFinished, Leads, consulted, is_empty, is_enabled, is_filled, is_holding, is_idle, is_learn, is_unknown, learnt, picked, posted, start};
ghost use Rattle.search_machine.specs.Machine as theory;
ghost use Rattle.search_machine.specs.Seen.{hands_seen};
ghost use Rattle.ot_base.specs.declared.limits.TheConstants.{PLACE_LIMIT};
ghost use Rattle.search_machine.specs.declared.machine.TheConstants.{WORKER_LIMIT};

use crate::hand::{Hand, Mark, learn, pass, picked, settle};
use crate::queue::Queue;
use crate::step::{Step, StepRefused};
use erc_vectors::{List, NoMemory};
use refutation::{Contradiction, Prefix};
use search_deeds::{Deeds, Ready};
use std::alloc::Global;
use std::marker::Model;
use violation_profiles::Problem;

/// The greatest number of workers that a search may have.
pub const WORKER_LIMIT: usize = 64;

/// The machine of the search of one problem. Each worker has a queue of prefixes, a hand, an outbox of prefixes and a list of
/// deeds, and all share a store of contradictions with a number of places. A hand is empty or holds a prefix, a cursor and a mark,
/// which is Unknown, Open or Refuted with a contradiction. At the start the queue of worker 0 holds the empty prefix, and all else
/// is empty.
///
/// | Step | Enabled where | What it does |
/// |---|---|---|
/// | `Take(w)` | the hand of w is empty, its queue is not | The front of the queue goes into the hand, with cursor 0 and mark Unknown. |
/// | `Steal(w, v)` | v is not w, the hand of w is empty, the queue of v is not | The front of v's queue goes into w's hand in the same way. |
/// | `Consult(w)` | w's mark is Unknown and the cursor is below the store's length | The cursor rises by one. If the entry passed refutes the prefix, the mark becomes Refuted with it. |
/// | `Learn(w)` | w's mark is Unknown | The mark becomes Open if the prefix holds under some ranking. Otherwise it becomes Refuted with the prefix's certificate, which is appended to the store if the store has fewer entries than its places. |
/// | `Settle(w)` | w's mark is Open or Refuted | One deed is added and the hand becomes empty. A Refuted hand gives Cut with its contradiction, an Open hand with a full choice Language with the least hierarchy, and an Open hand with a shorter prefix Opened, and its children are added to the outbox in class order. |
/// | `Put(w)` | the outbox of w is not empty | Its front goes to the back of w's queue. |
#[derive(Debug, Drop)]
pub struct Machine<'p> {
    alloc: Global,
    p: &'p Problem,
    places: usize,
    queues: Vec<Queue>,
    hands: Vec<Option<Hand>>,
    outboxes: Vec<Queue>,
    deeds: Vec<Deeds>,
    store: List<Contradiction>,
    learns: u64,
    ready: Ready,
}

impl<'p> Model for Machine<'p> {
    ghost use Rattle.search_machine.specs.Seen.{Progress};

    ghost Value = { Progress };

    ghost use Rattle.search_machine.specs.MachineView.{IsSound, progress_of};

    ghost view = { progress_of };

    ghost invariant = { IsSound };
}

/// Puts an item behind the others.
fn put<T: Drop>(items: &mut Vec<T>, item: T) -> Result<(), NoMemory>
    ensures { OnOk result (items.new.items ≡ items.old.items ++ item ∷ []) }
{
    items.push(item)?;
    Ok(())
}

fn no_prefixes(alloc: Global, workers: usize) -> Result<Vec<Queue>, NoMemory>
    ensures { IfOk result (λ queues. queues.items ≡ replicate workers []) }
{
    let mut queues = Vec::new(alloc);
    for _ in 0..workers {
        put(&mut queues, Queue::new(alloc))?;
    }
    Ok(queues)
}

fn first_queues(alloc: Global, workers: usize) -> Result<Vec<Queue>, NoMemory>
    requires { 1 ≤ workers }
    ensures { IfOk result (λ queues. queues.items ≡ slice_set (replicate workers []) 0 ([] ∷ [])) }
{
    let mut queues = no_prefixes(alloc, workers)?;
    queues[0].put(Prefix::empty(alloc))?;
    Ok(queues)
}

fn empty_hands(alloc: Global, workers: usize) -> Result<Vec<Option<Hand>>, NoMemory>
    ensures { IfOk result (λ hands. hands.items ≡ replicate workers None) }
{
    let mut hands = Vec::new(alloc);
    for _ in 0..workers {
        put(&mut hands, None)?;
    }
    Ok(hands)
}

fn no_deeds(alloc: Global, workers: usize) -> Result<Vec<Deeds>, NoMemory>
    ensures { IfOk result (λ deeds. deeds.items ≡ replicate workers []) }
{
    let mut deeds = Vec::new(alloc);
    for _ in 0..workers {
        put(&mut deeds, Deeds::new(alloc))?;
    }
    Ok(deeds)
}

fn is_idle(hands: &[Option<Hand>], w: usize) -> bool
    ensures { result ≡ is_idle (hands_seen hands.now) w }
{
    match hands.get(w) {
        Some(hand) => hand.is_none(),
        None => false,
    }
}

fn is_filled(queues: &[Queue], w: usize) -> bool
    ensures { result ≡ is_filled queues.now w }
{
    match queues.get(w) {
        Some(queue) => !queue.is_empty(),
        None => false,
    }
}

fn is_unknown(hands: &[Option<Hand>], w: usize) -> bool
    ensures { result ≡ is_holding (λ hand. is_unknown hand.mark) (hands_seen hands.now) w }
{
    match hands.get(w) {
        Some(Some(hand)) => matches!(hand.mark, Mark::Unknown),
        _ => false,
    }
}

fn is_known(hands: &[Option<Hand>], w: usize) -> bool
    ensures { result ≡ is_holding (λ hand. not (is_unknown hand.mark)) (hands_seen hands.now) w }
{
    match hands.get(w) {
        Some(Some(hand)) => !matches!(hand.mark, Mark::Unknown),
        _ => false,
    }
}

fn may_consult(hands: &[Option<Hand>], w: usize, entries: usize) -> bool
    ensures { result ≡ is_holding (λ hand. is_unknown hand.mark && nat_lt hand.cursor entries) (hands_seen hands.now) w }
{
    match hands.get(w) {
        Some(Some(hand)) => matches!(hand.mark, Mark::Unknown) && hand.cursor < entries,
        _ => false,
    }
}

fn are_empty(queues: &[Queue]) -> bool
    ensures { result ≡ list_all (λ queue. length queue == 0) queues.now }
{
    queues.iter().all(|queue| queue.is_empty())
}

fn are_none(hands: &[Option<Hand>]) -> bool
    ensures { result ≡ list_all (λ hand. is_none hand) hands.now }
{
    hands.iter().all(|hand| hand.is_none())
}

/// Whether all queues, hands and outboxes are empty.
fn are_spent(queues: &[Queue], hands: &[Option<Hand>], outboxes: &[Queue]) -> bool
    ensures { result ≡ (list_all (λ queue. length queue == 0) queues.now && (list_all (λ hand. is_none hand) hands.now && list_all (λ outbox. length outbox == 0) outboxes.now)) }
{
    are_empty(queues) && (are_none(hands) && are_empty(outboxes))
}

impl<'p> Machine<'p> {
    /// The machine at the start, with 1 to 64 workers and at most 4,096 places.
    pub fn new(
        alloc: Global,
        p: &'p Problem,
        workers: usize,
        places: usize,
    ) -> Result<Machine<'p>, NoMemory>
        requires some { 1 ≤ workers }
        requires few { workers ≤ WORKER_LIMIT }
        requires places { places ≤ PLACE_LIMIT }
        ensures { IfOk result (λ machine. machine ≡ record { problem = p.now; places = places; state = start workers; learns = 0 }) }
    {
        Ok(Machine {
            alloc,
            p,
            places,
            queues: first_queues(alloc, workers)?,
            hands: empty_hands(alloc, workers)?,
            outboxes: no_prefixes(alloc, workers)?,
            deeds: no_deeds(alloc, workers)?,
            store: List::new(alloc),
            learns: 0,
            ready: Ready::new(alloc, p)?,
        })
    }

    /// The number of workers: each has a hand, a queue and an outbox.
    pub fn workers(&self) -> usize
        ensures hands { result ≡ length self.now.state.hands }
        ensures queues { result ≡ length self.now.state.queues }
        ensures outboxes { result ≡ length self.now.state.outboxes }
    {
        self.hands.len()
    }

    /// Whether the hand of a worker is empty. No worker out of range has one.
    pub fn is_idle(&self, w: usize) -> bool
        ensures { result ≡ is_idle self.now.state.hands w }
    {
        is_idle(&self.hands, w)
    }

    /// Whether the queue of a worker holds a prefix. No worker out of range has one.
    pub fn is_filled(&self, w: usize) -> bool
        ensures { result ≡ is_filled self.now.state.queues w }
    {
        is_filled(&self.queues, w)
    }

    /// Whether a worker may consult the store.
    pub fn may_consult(&self, w: usize) -> bool
        ensures { result ≡ is_enabled self.now.state (Step.Consult w) }
    {
        may_consult(&self.hands, w, self.store.len())
    }

    /// Whether a worker may put a prefix into its queue.
    pub fn may_put(&self, w: usize) -> bool
        ensures { result ≡ is_enabled self.now.state (Step.Put w) }
    {
        is_filled(&self.outboxes, w)
    }

    /// Whether a step is enabled. No step of a worker out of range is.
    pub fn enabled(&self, s: Step) -> bool
        ensures { result ≡ is_enabled self.now.state s }
    {
        match s {
            Step::Take(w) => is_idle(&self.hands, w) && is_filled(&self.queues, w),
            Step::Steal(w, v) => v != w && (is_idle(&self.hands, w) && is_filled(&self.queues, v)),
            Step::Consult(w) => may_consult(&self.hands, w, self.store.len()),
            Step::Learn(w) => is_unknown(&self.hands, w),
            Step::Settle(w) => is_known(&self.hands, w),
            Step::Put(w) => is_filled(&self.outboxes, w),
        }
    }

    /// Whether no step is enabled, which is where all queues, hands and outboxes are empty.
    pub fn finished(&self) -> bool
        ensures empty { result ≡ is_empty self.now.state }
        ensures finished { IsTrue result ↔ IsFinished self.now.state }
    {
        are_spent(&self.queues, &self.hands, &self.outboxes)
    }

    /// The number of Learn steps so far, which stays at 2^64 - 1 once it is there.
    pub fn learns(&self) -> u64
        ensures { result ≡ self.now.learns }
    {
        self.learns
    }

    /// The deeds of each worker, the oldest first.
    pub fn deeds(&self) -> &[Deeds]
        ensures deeds { map deeds_in result.now ≡ self.now.state.deeds }
        ensures honest { AreHonest self.now.problem (deeds_of result.now) }
        ensures balanced { is_empty self.now.state ≡ true → AreBalanced self.now.problem (deeds_of result.now) }
    {
        self.deeds.as_slice()
    }

    /// Makes a step. Where it is refused, the machine stays as it was.
    pub fn step(&mut self, s: Step) -> Result<(), StepRefused>
        ensures leads { OnOk result (Leads self.old.problem self.old.places self.old.state s self.new.state) }
        ensures problem { self.new.problem ≡ self.old.problem }
        ensures places { self.new.places ≡ self.old.places }
        ensures learns { OnOk result (self.new.learns ≡ (if is_learn s then next_number self.old.learns else self.old.learns)) }
        ensures refused { OnErr result (self.new ≡ self.old) }
        ensures not_enabled { result ≡ Err StepRefused.NotEnabled ↔ is_enabled self.old.state s ≡ false }
    {
        if !self.enabled(s) {
            return Err(StepRefused::NotEnabled);
        }
        match self.make(s) {
            Ok(()) => Ok(()),
            Err(NoMemory) => Err(StepRefused::NoMemory),
        }
    }

    /// Makes a step that is enabled.
    fn make(&mut self, s: Step) -> Result<(), NoMemory>
        requires { is_enabled self.old.state s ≡ true }
        ensures leads { OnOk result (Leads self.old.problem self.old.places self.old.state s self.new.state) }
        ensures problem { self.new.problem ≡ self.old.problem }
        ensures places { self.new.places ≡ self.old.places }
        ensures learns { OnOk result (self.new.learns ≡ (if is_learn s then next_number self.old.learns else self.old.learns)) }
        ensures refused { OnErr result (self.new ≡ self.old) }
    {
        match s {
            Step::Take(w) => {
                self.pick(w, w);
                Ok(())
            }
            Step::Steal(w, v) => {
                self.pick(w, v);
                Ok(())
            }
            Step::Consult(w) => self.consult(w),
            Step::Learn(w) => self.learn(w),
            Step::Settle(w) => self.settle(w),
            Step::Put(w) => self.put(w),
        }
    }

    /// Take, and Steal where v is not w.
    fn pick(&mut self, w: usize, v: usize)
        requires idle { is_idle self.old.state.hands w ≡ true }
        requires filled { is_filled self.old.state.queues v ≡ true }
        ensures { self.new ≡ record self.old { state = picked self.old.state w v } }
    {
        let Some(prefix) = self.queues[v].take() else {
            return;
        };
        self.hands[w] = Some(picked(prefix));
    }

    fn consult(&mut self, w: usize) -> Result<(), NoMemory>
        requires { is_enabled self.old.state (Step.Consult w) ≡ true }
        ensures made { OnOk result (self.new ≡ record self.old { state = consulted self.old.state w }) }
        ensures refused { OnErr result (self.new ≡ self.old) }
    {
        pass(&mut self.hands[w], self.store.as_slice())
    }

    fn learn(&mut self, w: usize) -> Result<(), NoMemory>
        requires { is_enabled self.old.state (Step.Learn w) ≡ true }
        ensures made { OnOk result (self.new ≡ record self.old { state = learnt self.old.problem self.old.places self.old.state w; learns = next_number self.old.learns }) }
        ensures refused { OnErr result (self.new ≡ self.old) }
    {
        learn(
            self.alloc,
            self.p,
            &mut self.ready,
            &mut self.hands[w],
            &mut self.store,
            self.places,
        )?;
        self.learns = self.learns.saturating_add(1);
        Ok(())
    }

    fn settle(&mut self, w: usize) -> Result<(), NoMemory>
        requires { is_enabled self.old.state (Step.Settle w) ≡ true }
        ensures leads { OnOk result (Leads self.old.problem self.old.places self.old.state (Step.Settle w) self.new.state) }
        ensures same { OnOk result (self.new ≡ record self.old { state = self.new.state }) }
        ensures refused { OnErr result (self.new ≡ self.old) }
    {
        settle(
            self.alloc,
            self.p,
            &mut self.hands[w],
            &mut self.outboxes[w],
            &mut self.deeds[w],
        )
    }

    fn put(&mut self, w: usize) -> Result<(), NoMemory>
        requires { is_enabled self.old.state (Step.Put w) ≡ true }
        ensures made { OnOk result (self.new ≡ record self.old { state = posted self.old.state w }) }
        ensures refused { OnErr result (self.new ≡ self.old) }
    {
        self.outboxes[w].put_front(&mut self.queues[w])
    }
}
