//! Prefixes that wait.

ghost use Rattle.std.specs.Prelude.{◌≡◌, ◌<◌, [], ◌∷◌, ◌++◌, ◌==◌, length, take, drop, slice_get, OnOk, OnErr, IfOk};
ghost use Rattle.search_deeds.specs.Deeds.{children};

use erc_vectors::NoMemory;
use ot_base::{ClassId, INPUT_LIMIT, InId};
use refutation::Prefix;
use std::alloc::Global;
use std::collections::VecDeque;
use std::marker::Model;
use violation_profiles::Problem;

/// Prefixes in the order in which they came: the first one leaves first. A contract sees it as the list of them.
#[derive(Debug, Drop)]
pub(crate) struct Queue {
    prefixes: VecDeque<Prefix>,
}

impl Model for Queue {
    ghost use Rattle.std.specs.Prelude.{List, ℕ};

    ghost Value = { List (List ℕ) };

    ghost view = { λ queue. queue.prefixes.items };
}

impl Queue {
    pub(crate) fn new(alloc: Global) -> Queue
        ensures { result ≡ [] }
    {
        Queue {
            prefixes: VecDeque::new(alloc),
        }
    }

    pub(crate) fn is_empty(&self) -> bool
        ensures { result ≡ (length self.now == 0) }
    {
        self.prefixes.is_empty()
    }

    /// Takes the front out. None where the queue is empty.
    pub(crate) fn take(&mut self) -> Option<Prefix>
        ensures front { result ≡ slice_get self.old 0 }
        ensures rest { self.new ≡ drop 1 self.old }
    {
        self.prefixes.pop_front()
    }

    /// Puts a prefix behind the others. Where there is no memory for it, it is dropped.
    pub(crate) fn put(&mut self, prefix: Prefix) -> Result<(), NoMemory>
        ensures ok { OnOk result (self.new ≡ self.old ++ prefix ∷ []) }
        ensures refused { OnErr result (self.new ≡ self.old) }
    {
        self.prefixes.push_back(prefix)?;
        Ok(())
    }

    /// Puts the front of this queue behind the others of another one. Where there is no memory for it, both stay as they were.
    pub(crate) fn put_front(&mut self, other: &mut Queue) -> Result<(), NoMemory>
        ensures front { OnOk result (self.new ≡ drop 1 self.old) }
        ensures back { OnOk result (other.new ≡ other.old ++ take 1 self.old) }
        ensures refused { OnErr result (self.new ≡ self.old) }
        ensures other_refused { OnErr result (other.new ≡ other.old) }
    {
        other.prefixes.reserve(1)?;
        if let Some(prefix) = self.prefixes.pop_front() {
            other.prefixes.push_back_reserved(prefix);
        }
        Ok(())
    }

    /// Puts those of another queue behind these. Where there is no memory for that, the queue stays as it was.
    pub(crate) fn append(&mut self, mut other: Queue) -> Result<(), NoMemory>
        ensures ok { OnOk result (self.new ≡ self.old ++ other) }
        ensures refused { OnErr result (self.new ≡ self.old) }
    {
        self.prefixes.append(&mut other.prefixes)?;
        Ok(())
    }

    pub(crate) fn len(&self) -> usize
        ensures { result ≡ length self.now }
    {
        self.prefixes.len()
    }

    /// Keeps the first prefixes alone, as many as this.
    pub(crate) fn truncate(&mut self, count: usize)
        ensures { self.new ≡ take count self.old }
    {
        self.prefixes.truncate(count);
    }

    /// The children of a prefix that is no full choice, in class order.
    pub(crate) fn of_children(
        alloc: Global,
        p: &Problem,
        prefix: &Prefix,
    ) -> Result<Queue, NoMemory>
        requires { length prefix.now < length p.now.inputs }
        ensures { IfOk result (λ queue. queue ≡ children p.now prefix.now) }
    {
        prove!(p.inputs() <= INPUT_LIMIT);
        let next = InId(prefix.as_slice().len() as u32);
        let mut queue = Queue::new(alloc);
        for a in 0..p.classes(next) {
            queue.put(prefix.child(ClassId(a as u16))?)?;
        }
        Ok(queue)
    }
}
