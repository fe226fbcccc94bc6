//! Numbers in digits.

ghost use Rattle.std.specs.Prelude.{◌≡◌, ◌<◌, ◌^◌, ◌*◌, ◌-◌, [], ◌∷◌, length, true, false, IfSome, IfNone, MatchOption};
ghost use Rattle.std.specs.List.{list_all};
ghost use Rattle.tableau_file.specs.Numbers.{is_digit, is_short_number, value_of, IsNumber, is_violation, pieces, is_count, billionths};

use crate::limits::BILLION;
use ot_base::VIOLATION_LIMIT;

/// Whether a text is 1 to 9 digits and nothing else.
pub(crate) fn is_short_number(text: &[u8]) -> bool
    ensures { result ≡ is_short_number text.now }
{
    1 <= text.len() && text.len() <= 9 && are_digits(text)
}

fn are_digits(text: &[u8]) -> bool
    ensures { result ≡ list_all is_digit text.now }
{
    text.iter().all(|c| b'0' <= *c && *c <= b'9')
}

/// The number that at most 9 digits spell, and 0 where there is none.
pub(crate) fn value_of(text: &[u8]) -> u32
    requires { IsNumber text.now }
    ensures value { result ≡ value_of text.now }
    ensures bound { result < 10 ^ 9 }
{
    let mut value = 0;
    for c in text {
        value = 10 * value + u32::from(*c - b'0');
    }
    value
}

/// The violation that a text spells, and None where it spells none. Nothing spells 0.
pub(crate) fn violation_of(text: &[u8]) -> Option<u32>
    ensures some { IfSome result (λ violation. (is_violation text.now ≡ true) × (violation ≡ value_of text.now)) }
    ensures none { IfNone result (is_violation text.now ≡ false) }
{
    if !text.is_empty() && !is_short_number(text) {
        return None;
    }
    let value = value_of(text);
    if value <= VIOLATION_LIMIT {
        Some(value)
    } else {
        None
    }
}

/// The count that a text spells, in billionths, and None where it spells none. Nothing spells 0.
pub(crate) fn count_of(text: &[u8]) -> Option<u64>
    ensures some { IfSome result (λ count. (is_count text.now ≡ true) × (count ≡ billionths text.now)) }
    ensures none { IfNone result (is_count text.now ≡ false) }
{
    if text.is_empty() {
        return Some(0);
    }
    let (whole, part) = cut_at_point(text);
    if !is_short_number(whole) {
        return None;
    }
    let count = u64::from(value_of(whole)) * BILLION;
    let Some(part) = part else {
        return Some(count);
    };
    if is_short_number(part) {
        Some(count + billionths_of(part))
    } else {
        None
    }
}

/// What stands before the first point, and what stands after it if there is one.
fn cut_at_point(text: &[u8]) -> (&[u8], Option<&[u8]>)
    ensures { MatchOption result.1 (pieces text.now ≡ result.0.now ∷ []) (λ part. pieces text.now ≡ result.0.now ∷ pieces part.now) }
{
    match text.iter().position(|c| *c == b'.') {
        Some(at) => (&text[..at], Some(&text[at + 1..])),
        None => (text, None),
    }
}

/// What digits after the point spell, in billionths.
fn billionths_of(part: &[u8]) -> u64
    requires { is_short_number part.now ≡ true }
    ensures value { result ≡ value_of part.now * 10 ^ (9 - length part.now) }
    ensures bound { result < 10 ^ 18 }
{
    u64::from(value_of(part)) * 10_u64.pow((9 - part.len()) as u32)
}
