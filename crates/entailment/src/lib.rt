//! Whether a set of conditions entails another condition.
//!
//! Entailment between elementary ranking conditions is that of Prince (Entailed Ranking Arguments, 2002): a set entails a
//! condition where every ranking that keeps the set keeps the condition. That it may be asked of demotion, with the
//! condition whose W and L are exchanged beside the set, is proved in `ot_theory`.
#![tactic(auto)]

ghost use Rattle.std.specs.Prelude.{◌≡◌, All, IfOk, length};
ghost use Rattle.std.specs.List.{list_all};
ghost use Rattle.ot_theory.specs.Conditions.{is_even};
ghost use Rattle.ot_theory.specs.Entailment.{entails};

use demotion::is_hopeless;
use erc_vectors::{Condition, List, NoMemory};
use std::alloc::Global;

/// Whether a set of conditions entails a condition over as many constraints: each ranking that keeps the set keeps the
/// condition (Prince 2002). The set may be empty, may have repeats, and may be kept by no ranking: such a set entails every
/// condition. A condition whose marks are all e is entailed by every set.
pub fn entails(alloc: Global, set: &[Condition], c: &Condition) -> Result<bool, NoMemory>
    requires { All (λ marks. length marks ≡ length c.now) set.now }
    ensures { IfOk result (λ entailed. entailed ≡ entails (length c.now) set.now c.now) }
{
    if is_even(c) {
        return Ok(true);
    }
    let mut asked = List::of(alloc, set)?;
    asked.push(c.negated())?;
    Ok(is_hopeless(c.width(), asked.as_slice()))
}

/// Whether all marks are e.
fn is_even(c: &Condition) -> bool
    ensures { result ≡ list_all is_even c.now }
{
    c.w_mask() == 0 && c.l_mask() == 0
}
