//! The strata of a hierarchy, in one field or a line for each.

ghost use Rattle.std.specs.Prelude.{◌≡◌, ◌≤◌, ◌<◌, ◌+◌, ◌*◌, ◌∷◌, [], ◌++◌, if◌then◌else◌, codes, decimal, length, slice_index_or, take, flat_map, map, OnOk};
ghost use Rattle.ot_theory.specs.Hierarchies.{in_stratum};
ghost use Rattle.report_text.specs.Spelling.{spaced, stratum, hierarchy};
ghost use Rattle.erc_vectors.specs.declared.condition.TheConstants.{LIMIT};
ghost use Rattle.report_text.specs.Reports as reports;

use crate::text::Text;
use erc_vectors::{ConId, LIMIT, NoMemory, Strata};
use ot_base::Label;

/// The strata from the highest on, with a bar between each two. In each stand the numbers of its constraints, ascending. They
/// are put together, and written when there are many bytes.
pub(crate) fn put_hierarchy(text: &mut Text, strata: &Strata) -> Result<(), NoMemory>
    ensures { OnOk result (text.new ≡ text.old ++ hierarchy strata.now) }
{
    let mut bytes = [b' '; 8 * LIMIT];
    let mut end = 0;
    for above in 0..strata.lowest() {
        if end > 4 * LIMIT {
            text.put(&bytes[..end])?;
            end = 0;
        }
        let start = bar_at(&mut bytes, end, above == 0);
        end = stratum_at(&mut bytes, start, strata, above + 1);
    }
    text.put(&bytes[..end])
}

/// Writes what stands before a stratum, unless it is the first, behind the first bytes. The answer is where it ends.
fn bar_at(bytes: &mut [u8], end: usize, first: bool) -> usize
    requires room { end + 3 ≤ length bytes.old }
    ensures long { length bytes.new ≡ length bytes.old }
    ensures ends { result ≤ end + 3 }
    ensures written { take result bytes.new ≡ take end bytes.old ++ (if first then [] else codes " | ") }
{
    if first {
        return end;
    }
    bytes[end] = b' ';
    bytes[end + 1] = b'|';
    bytes[end + 2] = b' ';
    end + 3
}

/// The number of strata, and a line for each from the highest on.
pub(crate) fn put_strata(
    text: &mut Text,
    abbreviations: &[Label],
    strata: &Strata,
) -> Result<(), NoMemory>
    requires { length abbreviations.now ≡ length strata.now }
    ensures { OnOk result (text.new ≡ text.old ++ reports.strata_lines abbreviations.now strata.now) }
{
    let count = strata.lowest();
    text.count_line(b"strata", count as usize)?;
    for above in 0..count {
        put_stratum_line(text, abbreviations, strata, above + 1)?;
    }
    Ok(())
}

/// The line of a stratum: its number, its constraints, and the abbreviation of each of them.
fn put_stratum_line(
    text: &mut Text,
    abbreviations: &[Label],
    strata: &Strata,
    level: u8,
) -> Result<(), NoMemory>
    requires { length abbreviations.now ≡ length strata.now }
    ensures { OnOk result (text.new ≡ text.old ++ reports.stratum_line abbreviations.now strata.now level) }
{
    text.put(b"stratum")?;
    text.number_field(level as usize)?;
    text.put(b"\t")?;
    put_stratum(text, strata, level)?;
    put_abbreviations(text, abbreviations, strata, level)?;
    text.end_line()
}

/// The abbreviations of the constraints of a stratum, ascending, each as a field.
fn put_abbreviations(
    text: &mut Text,
    abbreviations: &[Label],
    strata: &Strata,
    level: u8,
) -> Result<(), NoMemory>
    requires { length abbreviations.now ≡ length strata.now }
    ensures { OnOk result (text.new ≡ text.old
        ++ flat_map (λ field. 9 ∷ field) (map (λ c. slice_index_or abbreviations.now c []) (in_stratum strata.now level))) }
{
    for c in 0..strata.width() {
        if strata.level(ConId(c as u16)) == level {
            text.field(abbreviations[c].bytes())?;
        }
    }
    Ok(())
}

/// The constraints of a stratum, ascending, with a space between each two.
fn put_stratum(text: &mut Text, strata: &Strata, level: u8) -> Result<(), NoMemory>
    ensures { OnOk result (text.new ≡ text.old ++ spaced (stratum strata.now level)) }
{
    let mut bytes = [0; 3 * LIMIT];
    let end = stratum_at(&mut bytes, 0, strata, level);
    text.put(&bytes[..end])
}

/// Writes the constraints of a stratum, ascending, with a space between each two, behind the first bytes. The answer is where
/// they end.
fn stratum_at(bytes: &mut [u8], start: usize, strata: &Strata, level: u8) -> usize
    requires room { start + 3 * LIMIT ≤ length bytes.old }
    ensures long { length bytes.new ≡ length bytes.old }
    ensures ends { result ≤ start + 3 * LIMIT }
    ensures written { take result bytes.new ≡ take start bytes.old ++ spaced (stratum strata.now level) }
{
    let mut end = start;
    for c in 0..strata.width() {
        if strata.level(ConId(c as u16)) == level {
            end = number_at(bytes, end, end == start, c as u8 + 1);
        }
    }
    end
}

/// Writes a number of at most two digits behind the first bytes, and a space before it unless it is the first. The answer is
/// where it ends.
fn number_at(bytes: &mut [u8], end: usize, first: bool, n: u8) -> usize
    requires room { end + 3 ≤ length bytes.old }
    requires small { n < 100 }
    ensures long { length bytes.new ≡ length bytes.old }
    ensures some { end < result }
    ensures ends { result ≤ end + 3 }
    ensures written { take result bytes.new ≡ take end bytes.old ++ ((if first then [] else 32 ∷ []) ++ decimal n) }
{
    if first {
        return digits_at(bytes, end, n);
    }
    bytes[end] = b' ';
    digits_at(bytes, end + 1, n)
}

/// Writes a number of at most two digits behind the first bytes. The answer is where it ends.
fn digits_at(bytes: &mut [u8], end: usize, n: u8) -> usize
    requires room { end + 2 ≤ length bytes.old }
    requires small { n < 100 }
    ensures long { length bytes.new ≡ length bytes.old }
    ensures some { end < result }
    ensures ends { result ≤ end + 2 }
    ensures written { take result bytes.new ≡ take end bytes.old ++ decimal n }
{
    if n < 10 {
        bytes[end] = b'0' + n;
        return end + 1;
    }
    bytes[end] = b'0' + n / 10;
    bytes[end + 1] = b'0' + n % 10;
    end + 2
}
