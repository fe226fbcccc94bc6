//! Numbers in a row, each in decimal behind a byte.

ghost use Rattle.std.specs.Prelude.{◌≡◌, ◌++◌, ◌*◌, ◌≤◌, length, take, IfSome, OnOk};
ghost use Rattle.report_text.specs.Spelling.{led};
ghost use Rattle.report_text.specs.declared.numbers.TheConstants.{FEW};

use crate::text::Text;
use erc_vectors::NoMemory;

/// How many numbers are written at once.
const FEW: usize = 64;

/// The numbers, the first behind one byte and each other behind another.
#[tactic(auto, using(crate::proofs::Led::put_some, crate::proofs::Led::put_all))]
pub(crate) fn put_numbers(
    text: &mut Text,
    first: u8,
    byte: u8,
    numbers: &[u32],
) -> Result<(), NoMemory>
    ensures { OnOk result (text.new ≡ text.old ++ led first byte numbers.now) }
{
    let mut before = first;
    let mut rest = numbers;
    while !rest.is_empty() {
        let (few, more) = rest.split_at(rest.len().min(FEW));
        put_few(text, before, byte, few)?;
        before = byte;
        rest = more;
    }
    Ok(())
}

/// The same of a few numbers. A row of numbers is mostly one of numbers of one digit, which are put together and written at
/// once.
#[tactic(auto, using(crate::proofs::Led::put_next, crate::proofs::Led::put_all))]
fn put_few(text: &mut Text, first: u8, byte: u8, few: &[u32]) -> Result<(), NoMemory>
    requires { length few.now ≤ FEW }
    ensures { OnOk result (text.new ≡ text.old ++ led first byte few.now) }
{
    if let Some(bytes) = digits_behind(first, byte, few) {
        return text.put(&bytes[..2 * few.len()]);
    }
    let mut before = first;
    for number in few {
        text.byte_and_number(before, *number as usize)?;
        before = byte;
    }
    Ok(())
}

/// A few numbers, the first behind one byte and each other behind another, where each has one digit.
#[tactic(auto, using(crate::proofs::Led::over_first))]
fn digits_behind(first: u8, byte: u8, few: &[u32]) -> Option<[u8; 2 * FEW]>
    requires { length few.now ≤ FEW }
    ensures { IfSome result (λ bytes. take (2 * length few.now) bytes ≡ led first byte few.now) }
{
    let mut bytes = [0; 2 * FEW];
    let mut greatest = 0;
    for (k, number) in few.iter().enumerate() {
        bytes[2 * k] = byte;
        bytes[2 * k + 1] = b'0' + (*number % 16) as u8;
        greatest = (*number).max(greatest);
    }
    bytes[0] = first;
    if greatest < 10 { Some(bytes) } else { None }
}
