//! What the gatherer settles after the workers have ended.

ghost use Rattle.std.specs.Prelude.{◌≡◌, IfOk, All};
ghost use Rattle.typology_workers.specs.Gatherings.{SettlesAll};
ghost use Rattle.violation_profiles.specs.WellFormed.{IsPrefix};

use crate::gatherer::{Gatherer, settle};
use erc_vectors::NoMemory;
use search_deeds::{Deeds, Ready};
use std::alloc::Global;
use violation_profiles::Problem;

/// Settles the prefixes that wait and all that extend them, depth first. The deeds of that stand behind the others.
pub(crate) fn settle_rest(
    alloc: Global,
    p: &Problem,
    mut gatherer: Gatherer,
) -> Result<Deeds, NoMemory>
    requires { All (IsPrefix p.now) gatherer.waiting.items }
    ensures { IfOk result (SettlesAll p.now gatherer) }
{
    let mut ready = Ready::new(alloc, p)?;
    while let Some(prefix) = gatherer.waiting.pop_back() {
        settle(alloc, p, &mut ready, prefix, &mut gatherer)?;
    }
    Ok(gatherer.deeds)
}
