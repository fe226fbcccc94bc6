//! The lanes to one deque.

ghost use Rattle.std.specs.Prelude.{◌≡◌, ◌+◌, ◌-◌, ◌<◌, ◌≤◌, [], true, false, IfOk, OnErr, if◌then◌else◌};
ghost use Rattle.crossbeam_deque.specs.Handles.{worker_deque, worker_flavor, worker_port, worker_index, worker_view, SameWorker, IsPassOf, view};
ghost use Rattle.prefix_deques.specs.Books.{account};

use crate::lane::{Lane, Thief};
use crate::own::Deque;
use crate::rule::{Account, Blank, Cut};
use crossbeam_deque::Pass;
use erc_vectors::NoMemory;
use refutation::Prefix;

/// A pass of one part, or for the owner's own lane one that knows nothing.
pub fn pass_of(own: &mut Deque, mine: bool) -> Pass<Prefix, Account>
    requires { 1 < (worker_view own.old).parts }
    ensures same { SameWorker own.old own.new × (worker_index own.new ≡ worker_index own.old) }
    ensures pass { IsPassOf (worker_deque own.old) result × (view result ≡ account false (if mine then 0 else 1) [] []) }
    ensures own { worker_view own.new ≡ account (worker_view own.old).owns ((worker_view own.old).parts - (if mine then 0 else 1)) (worker_view own.old).puts (worker_view own.old).gets }
{
    if mine {
        own.another::<Blank>()
    } else {
        own.another::<Cut>()
    }
}

/// A lane to the deque.
pub fn lane_to(own: &mut Deque, mine: bool) -> Result<Lane, NoMemory>
    requires part { 1 < (worker_view own.old).parts }
    requires flavor { worker_flavor own.old ≡ 0 }
    ensures same { SameWorker own.old own.new × (worker_index own.new ≡ worker_index own.old) }
    ensures lane { IfOk result (λ l. l ≡ record { deque = (worker_deque own.old).0; parts = if mine then 0 else 1; gets = [] }) }
    ensures err { OnErr result (worker_view own.new ≡ worker_view own.old) }
    ensures own { IfOk result (λ _. worker_view own.new ≡ account (worker_view own.old).owns ((worker_view own.old).parts - (if mine then 0 else 1)) (worker_view own.old).puts (worker_view own.old).gets) }
{
    let thief = own.stealer()?;
    let pass = pass_of(own, mine);
    Ok(Lane::of(thief, pass))
}
