//! The end of one deque: all its passes come back, and what is left is taken out.

ghost use Rattle.std.specs.Prelude.{◌≡◌, ◌+◌, ◌<◌, ◌≤◌, [], ◌∷◌, ◌++◌, true, length, drop, OnOk, ℕ};
ghost use Rattle.crossbeam_deque.specs.Handles.{worker_deque, worker_flavor, worker_view};
ghost use Rattle.prefix_deques.specs.Books.{whole, Agree};
ghost use Rattle.prefix_deques.specs.Closed.{all_gets, all_parts, AreLanesOf, Joined, AllJoined, Closes};

use crate::lane::Lane;
use crate::own;
use crate::own::Deque;
use crate::rule::Cut;
use erc_vectors::{List, NoMemory};
use refutation::Prefix;

/// Takes in a lane's pass.
pub fn take_in(own: &mut Deque, lane: Lane)
    requires { lane.deque ≡ (worker_deque own.old).0 }
    ensures same { (worker_deque own.new ≡ worker_deque own.old) × (worker_flavor own.new ≡ worker_flavor own.old) }
    ensures joined { Joined (worker_view own.old) lane (worker_view own.new) }
{
    let pass = lane.into_pass();
    own.absorb::<Cut>(pass);
}

/// Takes in the passes of all lanes.
pub fn take_all_in(own: &mut Deque, mut lanes: Vec<Lane>)
    requires { AreLanesOf (worker_deque own.old).0 lanes.items }
    ensures same { (worker_deque own.new ≡ worker_deque own.old) × (worker_flavor own.new ≡ worker_flavor own.old) }
    ensures joined { AllJoined (worker_view own.old) lanes.items (worker_view own.new) }
{
    while let Some(lane) = lanes.pop() {
        take_in(own, lane);
    }
}

/// Takes out what is left.
pub fn take_rest(own: &mut Deque, left: &mut List<Prefix>) -> Result<(), NoMemory>
    requires owner { ((worker_view own.old).owns ≡ true) × (worker_flavor own.old ≡ 0) }
    requires parts { (worker_view own.old).parts ≡ whole }
    ensures { OnOk result (left.new ≡ left.old ++ drop (length (worker_view own.old).gets) (worker_view own.old).puts) }
{
    while let Some(p) = own::take(own) {
        left.push(p)?;
    }
    Ok(())
}

/// The end of a deque: the books agree, and what is left are the later puts.
pub fn close(mut own: Deque, lanes: Vec<Lane>, left: &mut List<Prefix>) -> Result<(), NoMemory>
    requires owner { ((worker_view own).owns ≡ true) × (worker_flavor own ≡ 0) }
    requires lanes { AreLanesOf (worker_deque own).0 lanes.items }
    requires parts { (worker_view own).parts + all_parts lanes.items ≡ whole }
    ensures { OnOk result (Closes (worker_view own) lanes.items left.old left.new) }
{
    take_all_in(&mut own, lanes);
    let _count = own::settle(&mut own);
    take_rest(&mut own, left)
}
