//! What the gatherer settles before it deals prefixes to the workers.

ghost use Rattle.std.specs.Prelude.{◌≡◌, ◌⊎◌, ◌<◌, ◌≤◌, [], ◌∷◌, length, IfOk, IfSome, IfNone};
ghost use Rattle.typology_workers.specs.Gatherings.{IsOpened};

use crate::gatherer::{Gatherer, settle};
use erc_vectors::NoMemory;
use refutation::Prefix;
use search_deeds::{Deeds, Ready};
use std::alloc::Global;
use std::collections::VecDeque;
use violation_profiles::Problem;

/// Settles prefixes of the problem breadth first, from the empty one on, until enough of them wait or none does.
pub(crate) fn opening(alloc: Global, p: &Problem, enough: usize) -> Result<Gatherer, NoMemory>
    ensures { IfOk result (IsOpened p.now enough) }
{
    let mut gatherer = Gatherer {
        deeds: Deeds::new(alloc),
        waiting: VecDeque::new(alloc),
    };
    gatherer.waiting.push_back(Prefix::empty(alloc))?;
    let mut ready = Ready::new(alloc, p)?;
    while let Some(prefix) = next(&mut gatherer.waiting, enough) {
        settle(alloc, p, &mut ready, prefix, &mut gatherer)?;
    }
    Ok(gatherer)
}

/// Takes out the first of the prefixes that wait, if any does and fewer than enough do.
fn next(waiting: &mut VecDeque<Prefix>, enough: usize) -> Option<Prefix>
    ensures some { IfSome result (λ first. (waiting.old.items ≡ first ∷ waiting.new.items) × (length waiting.old.items < enough)) }
    ensures none { IfNone result ((waiting.new.items ≡ waiting.old.items) × ((waiting.old.items ≡ []) ⊎ (enough ≤ length waiting.old.items))) }
{
    if waiting.len() < enough {
        waiting.pop_front()
    } else {
        None
    }
}
