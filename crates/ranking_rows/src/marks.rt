//! Conditions and hierarchies from arrays and letters, and the stratum numbers of a hierarchy.

ghost use Rattle.std.specs.Prelude.{◌≡◌, length};

use Mark::{E, L, W};
use erc_vectors::{ConId, Condition, Mark, NoMemory, Strata};
use std::alloc::Global;
use std::process::Abort;

/// The condition with these marks, of which there may be so many.
pub(crate) fn condition<const N: usize>(rt: &impl Abort, marks: [Mark; N]) -> Condition
    ensures { length result ≡ N }
{
    Condition::of(&marks).expect(rt, "at most as many marks as the limit")
}

/// The condition of a text that has a letter for each constraint.
pub(crate) fn spelled(rt: &impl Abort, alloc: Global, text: &str) -> Result<Condition, NoMemory> {
    let mut marks = Vec::new(alloc);
    for letter in text.as_bytes() {
        marks.push(match *letter {
            b'W' => W,
            b'L' => L,
            _ => E,
        })?;
    }
    Ok(Condition::of(marks.as_slice()).expect(rt, "as many marks as there may be"))
}

/// The hierarchy with these stratum numbers.
pub(crate) fn strata<const N: usize>(rt: &impl Abort, levels: [u8; N]) -> Strata
    ensures { length result ≡ N }
{
    Strata::of(&levels).expect(rt, "stratum numbers from 1 on")
}

/// The stratum numbers of a hierarchy.
pub(crate) fn levels_of<const N: usize>(strata: &Strata) -> [u8; N]
    requires { length strata.now ≡ N }
{
    let mut levels = [0; N];
    for c in 0..strata.width() {
        levels[c] = strata.level(ConId(c as u16));
    }
    levels
}
