//! What the fields of a report spell.

ghost use Rattle.std.specs.Prelude.{◌≡◌, ◌<◌, ◌≤◌, ◌^◌, length, true, IfOk, IfSome, Some, None, if◌then◌else◌, option_map};
ghost use Rattle.std.specs.List.{list_all};
ghost use Rattle.erc_vectors.specs.declared.condition.TheConstants.{LIMIT};
ghost use Rattle.refutation.specs.Prefixes.{class_numbers};
ghost use Rattle.refutation.specs.Terms.{term_of, terms_in};
ghost use Rattle.report_reader.specs.Fields as spelled;
ghost use Rattle.report_reader.specs.Fields.{words};

use crate::pieces::{Pieces, two};
use erc_vectors::{LIMIT, NoMemory, Strata};
use ot_base::{ClassId, InId};
use refutation::Term;

/// The greatest number of a report.
pub(crate) const NUMBER_LIMIT: u32 = 268_435_456;

/// Whether a field is a text of the tableau, without a CR.
pub(crate) fn is_text(field: &[u8]) -> bool
    ensures { result ≡ spelled.is_text field.now }
{
    field.iter().all(|b| *b != b'\r')
}

/// Whether a field is 1 to 9 digits, of which the first is no 0 unless it is the only one.
fn are_digits(field: &[u8]) -> bool
    ensures { result ≡ spelled.are_digits field.now }
{
    1 <= field.len() && field.len() <= 9 && has_digits_alone(field) && !has_leading_zero(field)
}

fn has_digits_alone(field: &[u8]) -> bool
    ensures { result ≡ list_all spelled.is_digit field.now }
{
    field.iter().all(|b| b'0' <= *b && *b <= b'9')
}

fn has_leading_zero(field: &[u8]) -> bool
    ensures { result ≡ spelled.has_leading_zero field.now }
{
    1 < field.len() && field[0] == b'0'
}

/// The number that a field spells in decimal, without leading zeros. None where it spells none, or one above the limit.
pub(crate) fn number(field: &[u8]) -> Option<u32>
    ensures value { result ≡ spelled.number field.now }
    ensures small { IfSome result (λ n. n ≤ NUMBER_LIMIT) }
{
    if !are_digits(field) {
        return None;
    }
    let value = value_of(field);
    if value <= NUMBER_LIMIT {
        Some(value)
    } else {
        None
    }
}

/// The number that at most 9 digits spell.
fn value_of(field: &[u8]) -> u32
    requires short { length field.now ≤ 9 }
    requires digits { list_all spelled.is_digit field.now ≡ true }
    ensures value { result ≡ spelled.value_of field.now }
    ensures bound { result < 10 ^ 9 }
{
    let mut value = 0;
    for b in field {
        value = 10 * value + u32::from(*b - b'0');
    }
    value
}

/// Whether a field spells this number.
pub(crate) fn spells(field: &[u8], k: usize) -> bool
    ensures { result ≡ spelled.spells field.now k }
{
    match number(field) {
        Some(n) => n as usize == k,
        None => false,
    }
}

/// Whether a field spells a number.
pub(crate) fn is_number(field: &[u8]) -> bool
    ensures { result ≡ spelled.is_number field.now }
{
    number(field).is_some()
}

/// Which of so many things a field names by its number from 1 on, counted from 0.
pub(crate) fn place(count: usize, field: &[u8]) -> Option<usize>
    ensures value { result ≡ spelled.place count field.now }
    ensures below { IfSome result (λ k. k < count) }
    ensures small { IfSome result (λ k. k < NUMBER_LIMIT) }
{
    let k = number(field)? as usize;
    if 1 <= k && k <= count {
        Some(k - 1)
    } else {
        None
    }
}

/// Reads the classes of a prefix, of inputs with these numbers of classes, into the buffer, and says whether the field spells
/// some.
pub(crate) fn read_prefix(
    counts: &[u16],
    field: &[u8],
    buffer: &mut Vec<ClassId>,
) -> Result<bool, NoMemory>
    ensures { IfOk result (λ fits. (if fits then Some (class_numbers buffer.new.items) else None) ≡ spelled.prefix_of counts.now field.now) }
{
    if field == b"-".as_slice() {
        buffer.clear();
        return Ok(true);
    }
    read_classes(counts, field, buffer)
}

fn read_classes(counts: &[u16], field: &[u8], buffer: &mut Vec<ClassId>) -> Result<bool, NoMemory>
    ensures { IfOk result (λ fits. (if fits then Some (class_numbers buffer.new.items) else None) ≡ spelled.classes counts.now (words field.now)) }
{
    buffer.clear();
    let mut rest = counts;
    for word in Pieces::words(field) {
        let [count, others @ ..] = rest else {
            return Ok(false);
        };
        let Some(a) = place(*count as usize, word) else {
            return Ok(false);
        };
        buffer.push(ClassId(a as u16))?;
        rest = others;
    }
    Ok(true)
}

/// The hierarchy of n constraints that a field spells, and None where it spells none.
pub(crate) fn hierarchy(n: usize, field: &[u8]) -> Option<Strata>
    requires { n ≤ LIMIT }
    ensures { result ≡ spelled.hierarchy_of n field.now }
{
    let mut levels = [0; LIMIT];
    ranked(&mut levels[..n], field)
}

/// The hierarchy that a field spells of constraints each of which has 0 at first.
fn ranked(levels: &mut [u8], field: &[u8]) -> Option<Strata>
    requires { length levels.old ≤ LIMIT }
    ensures { result ≡ spelled.strata_of levels.old 1 0 (words field.now) }
{
    if rank(levels, field) {
        Strata::of(levels)
    } else {
        None
    }
}

/// Gives each constraint the number of its stratum in a field, where at first each has 0, and says whether the field spells a
/// hierarchy of all of them.
fn rank(levels: &mut [u8], field: &[u8]) -> bool
    requires { length levels.old ≤ LIMIT }
    ensures fits { (if result then Some levels.new else None) ≡ spelled.strata_of levels.old 1 0 (words field.now) }
    ensures placed { result ≡ true → spelled.are_placed levels.new ≡ true }
    ensures length { length levels.new ≡ length levels.old }
{
    let mut level = 1;
    let mut last = 0;
    for word in Pieces::words(field) {
        if word == b"|".as_slice() {
            if last == 0 || levels.len() <= level as usize {
                return false;
            }
            level += 1;
            last = 0;
        } else {
            let Some(c) = place(levels.len(), word) else {
                return false;
            };
            if c < last || levels[c] != 0 {
                return false;
            }
            levels[c] = level;
            last = c + 1;
        }
    }
    0 < last && are_placed(levels)
}

/// Whether each constraint has a stratum.
fn are_placed(levels: &[u8]) -> bool
    ensures { result ≡ spelled.are_placed levels.now }
{
    levels.iter().all(|level| 0 < *level)
}

/// Whether a field is a mark for each of n constraints.
pub(crate) fn are_marks(n: usize, field: &[u8]) -> bool
    ensures { result ≡ spelled.are_marks n field.now }
{
    field.len() == n && are_letters(field)
}

fn are_letters(field: &[u8]) -> bool
    ensures { result ≡ list_all spelled.is_letter field.now }
{
    field.iter().all(|b| is_letter(*b))
}

fn is_letter(b: u8) -> bool
    ensures { result ≡ spelled.is_letter b }
{
    b == b'W' || b == b'L' || b == b'e'
}

/// Reads terms, of inputs with these numbers of classes and of so many given pairs, into the buffer, and says whether the field spells
/// some.
pub(crate) fn read_terms(
    counts: &[u16],
    pairs: usize,
    field: &[u8],
    buffer: &mut Vec<Term>,
) -> Result<bool, NoMemory>
    ensures { IfOk result (λ fits. (if fits then Some (terms_in buffer.new.items) else None) ≡ spelled.terms_of counts.now pairs (words field.now)) }
{
    buffer.clear();
    for word in Pieces::words(field) {
        let Some(term) = term(counts, pairs, word) else {
            return Ok(false);
        };
        buffer.push(term)?;
    }
    Ok(true)
}

/// The term that a word spells.
fn term(counts: &[u16], pairs: usize, word: &[u8]) -> Option<Term>
    ensures { option_map term_of result ≡ spelled.term_of counts.now pairs word.now }
{
    match word {
        [b'g', number @ ..] => given_of(pairs, number),
        _ => loser_of(counts, word),
    }
}

/// The given pair that a word names.
fn given_of(pairs: usize, word: &[u8]) -> Option<Term>
    ensures { option_map term_of result ≡ spelled.given_of pairs word.now }
{
    let k = place(pairs, word)?;
    Some(Term::Given(k as u32))
}

/// The class of an input against another one that a word spells.
fn loser_of(counts: &[u16], word: &[u8]) -> Option<Term>
    ensures { option_map term_of result ≡ spelled.loser_of counts.now word.now }
{
    let (input, classes) = two(word, b':')?;
    let (winner, loser) = two(classes, b'>')?;
    term_of(counts, input, winner, loser)
}

fn term_of(counts: &[u16], input: &[u8], winner: &[u8], loser: &[u8]) -> Option<Term>
    ensures { option_map term_of result ≡ spelled.term_of_parts counts.now input.now winner.now loser.now }
{
    let i = place(counts.len(), input)?;
    let count = counts[i] as usize;
    let winner = place(count, winner)?;
    let loser = place(count, loser)?;
    if winner == loser {
        return None;
    }
    Some(Term::Loser {
        input: InId(i as u32),
        winner: ClassId(winner as u16),
        loser: ClassId(loser as u16),
    })
}
