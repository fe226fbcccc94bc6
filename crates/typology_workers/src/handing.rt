//! Putting the children of opened prefixes.

ghost use Rattle.std.specs.Prelude.{◌≡◌, ◌<◌, ◌∷◌, [], length, OnOk};
ghost use Rattle.prefix_deques.specs.Lanes.{HasPlaces};
ghost use Rattle.search_deeds.specs.Deeds.{children};
ghost use Rattle.typology_workers.specs.Found.{opened};
ghost use Rattle.search_deeds.specs.declared.deed.Fate.TheVariants.{Opened};
ghost use Rattle.typology_workers.specs.Stays.{KeepsSeat};
ghost use Rattle.typology_workers.specs.Turns.{HasHanded};

use erc_vectors::{List, NoMemory};
use ot_base::{ClassId, INPUT_LIMIT, InId};
use prefix_deques::{Put, Seat};
use refutation::Prefix;
use search_deeds::Fate;
use violation_profiles::Problem;

/// Puts the children of a prefix that is opened. Those that come back go into the outbox.
pub(crate) fn open(
    p: &Problem,
    seat: &mut Seat,
    outbox: &mut List<Prefix>,
    prefix: &Prefix,
    fate: &Fate,
) -> Result<(), NoMemory>
    requires places { HasPlaces seat.old }
    requires short { fate.now ≡ Opened → length prefix.now < length p.now.inputs }
    ensures stays { KeepsSeat seat.old seat.new }
    ensures handed { OnOk result (HasHanded (opened p.now prefix.now fate.now) seat.old seat.new outbox.old outbox.new) }
{
    if let Fate::Opened = fate {
        return hand_children(p, seat, outbox, prefix);
    }
    Ok(())
}

/// Puts the children of a prefix that is no full choice, in class order.
fn hand_children(
    p: &Problem,
    seat: &mut Seat,
    outbox: &mut List<Prefix>,
    prefix: &Prefix,
) -> Result<(), NoMemory>
    requires places { HasPlaces seat.old }
    requires short { length prefix.now < length p.now.inputs }
    ensures stays { KeepsSeat seat.old seat.new }
    ensures handed { OnOk result (HasHanded (children p.now prefix.now) seat.old seat.new outbox.old outbox.new) }
{
    prove!(p.inputs() <= INPUT_LIMIT);
    let next = InId(prefix.as_slice().len() as u32);
    for a in 0..p.classes(next) {
        let child = prefix.child(ClassId(a as u16))?;
        hand(seat, outbox, child)?;
    }
    Ok(())
}

/// Puts a prefix, or adds it to the outbox if it comes back.
fn hand(seat: &mut Seat, outbox: &mut List<Prefix>, child: Prefix) -> Result<(), NoMemory>
    requires { HasPlaces seat.old }
    ensures stays { KeepsSeat seat.old seat.new }
    ensures handed { OnOk result (HasHanded (child ∷ []) seat.old seat.new outbox.old outbox.new) }
{
    match seat.put(child) {
        Put::Done => Ok(()),
        Put::Back(child) => outbox.push(child),
    }
}
