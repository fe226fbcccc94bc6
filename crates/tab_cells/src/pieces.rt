//! Bytes as lines, and a line as cells.

ghost use Rattle.std.specs.Prelude.{◌≡◌, ◌∷◌, ◌++◌, ◌+◌, ◌*◌, ◌<◌, ◌≤◌, ℕ, true, slice_index, length, map, take, drop, min};
ghost use Rattle.std.specs.List.{prefix_len};
ghost use Rattle.tab_cells.specs.Lines.{lines_of, after_end};
ghost use Rattle.tab_cells.specs.declared.pieces.TheConstants.{GROUP};
ghost use Rattle.tab_cells.specs.Cells.{pair_of, cells_of, cells_left, is_digit, is_one_digit, digit_of};

use memchr::memchr2;
use std::marker::Model;
use std::simd::prelude::*;

/// How many cells of one digit are looked at at a time.
const GROUP: usize = 8;

/// The digit 0 and a tab behind it, as one number.
const ZERO: u16 = 0x0930;

/// The lines that are left, each borrowed from the file.
#[derive(Debug, Drop)]
pub struct Lines<'a> {
    rest: &'a [u8],
}

impl<'a> Model for Lines<'a> {
    ghost use Rattle.std.specs.Prelude.{List, ℕ};
    ghost use Rattle.tab_cells.specs.Lines.{lines_of};

    ghost Value = { List (List ℕ) };

    ghost view = { λ lines. lines_of lines.rest.now };
}

impl<'a> Lines<'a> {
    pub(crate) fn of(bytes: &'a [u8]) -> Lines<'a>
        ensures { result ≡ lines_of bytes.now }
    {
        Lines { rest: bytes }
    }
}

impl<'a> Iterator for Lines<'a> {
    ghost use Rattle.std.specs.Iterator.{YieldsFirstRef, item_count};

    type Item = &'a [u8];

    ghost next_gives = { YieldsFirstRef (λ lines. lines) };

    ghost remaining = { item_count (λ lines. lines) };

    #[tactic(auto, using(crate::proofs::FirstLine::lines_of_none))]
    fn next(&mut self) -> Option<&'a [u8]> {
        if self.rest.is_empty() {
            return None;
        }
        let (line, rest) = cut_line(self.rest);
        self.rest = rest;
        Some(line)
    }
}

/// The first line, and what stands after its end.
fn cut_line(bytes: &[u8]) -> (&[u8], &[u8])
    requires { 0 < length bytes.now }
    ensures { lines_of bytes.now ≡ result.0.now ∷ lines_of result.1.now }
{
    match memchr2(b'\n', b'\r', bytes) {
        Some(at) => (&bytes[..at], after_end(&bytes[at..])),
        None => (bytes, &[]),
    }
}

/// What stands after the line end with which the bytes begin.
fn after_end(bytes: &[u8]) -> &[u8]
    requires { 0 < length bytes.now }
    ensures { result.now ≡ after_end bytes.now }
{
    bytes.strip_prefix(b"\r\n").unwrap_or(&bytes[1..])
}

/// The cells that are left, each borrowed from the line.
#[derive(Debug, Drop)]
pub struct Cells<'a> {
    rest: Option<&'a [u8]>,
}

impl<'a> Model for Cells<'a> {
    ghost use Rattle.std.specs.Prelude.{List, ℕ};
    ghost use Rattle.tab_cells.specs.Cells.{cells_left};

    ghost Value = { List (List ℕ) };

    ghost view = { λ cells. cells_left cells.rest };
}

impl<'a> Cells<'a> {
    pub(crate) fn of(line: &'a [u8]) -> Cells<'a>
        ensures { result ≡ cells_of line.now }
    {
        Cells { rest: Some(line) }
    }

    /// Takes the next cells as long as each is one digit and there is room for its number, and puts the numbers down. It
    /// returns how many they are.
    pub fn take_digits(&mut self, numbers: &mut [u32]) -> usize
        ensures taken { result ≡ min (length numbers.old) (prefix_len is_one_digit self.old) }
        ensures numbers { numbers.new ≡ map digit_of (take result self.old) ++ drop result numbers.old }
        ensures rest { self.new ≡ drop result self.old }
    {
        let Some(line) = self.rest else {
            return 0;
        };
        let (taken, rest) = cut_digits(line, numbers);
        self.rest = rest;
        taken
    }
}

impl<'a> Iterator for Cells<'a> {
    ghost use Rattle.std.specs.Iterator.{YieldsFirstRef, item_count};

    type Item = &'a [u8];

    ghost next_gives = { YieldsFirstRef (λ cells. cells) };

    ghost remaining = { item_count (λ cells. cells) };

    fn next(&mut self) -> Option<&'a [u8]> {
        let (cell, rest) = cut_cell(self.rest?);
        self.rest = rest;
        Some(cell)
    }
}

/// The first cell, and what stands after the tab that ends it if there is one. Most cells have one byte.
fn cut_cell(line: &[u8]) -> (&[u8], Option<&[u8]>)
    ensures { cells_of line.now ≡ result.0.now ∷ cells_left result.1 }
{
    match line {
        [first, b'\t', rest @ ..] if *first != b'\t' => (&line[..1], Some(rest)),
        _ => cut_at_tab(line),
    }
}

/// The same for a cell of any length. Most are short, so a plain walk ends before a search of blocks has begun.
#[inline(never)]
fn cut_at_tab(line: &[u8]) -> (&[u8], Option<&[u8]>)
    ensures { cells_of line.now ≡ result.0.now ∷ cells_left result.1 }
{
    match line.iter().position(|c| *c == b'\t') {
        Some(at) => (&line[..at], Some(&line[at + 1..])),
        None => (line, None),
    }
}

/// The number of the first cells of one digit for whose numbers there is room, and what stands after them.
fn cut_digits<'a>(line: &'a [u8], numbers: &mut [u32]) -> (usize, Option<&'a [u8]>)
    ensures taken { result.0 ≡ min (length numbers.old) (prefix_len is_one_digit (cells_of line.now)) }
    ensures numbers { numbers.new ≡ map digit_of (take result.0 (cells_of line.now)) ++ drop result.0 numbers.old }
    ensures rest { cells_left result.1 ≡ drop result.0 (cells_of line.now) }
{
    let front = cut_groups(line, numbers);
    for k in front..numbers.len() {
        let left = &line[2 * k..];
        if left.is_empty() || !is_digit(left[0]) {
            return (k, Some(left));
        }
        if left.len() > 1 && left[1] != b'\t' {
            return (k, Some(left));
        }
        numbers[k] = u32::from(left[0] - b'0');
        if left.len() == 1 {
            return (k + 1, None);
        }
    }
    (numbers.len(), Some(&line[2 * numbers.len()..]))
}

/// The number of the first cells of one digit, in groups, behind each of which a tab stands, and for whose numbers there is
/// room. What is left may begin with such cells too.
fn cut_groups(line: &[u8], numbers: &mut [u32]) -> usize
    ensures few { result ≤ length numbers.old }
    ensures within { 2 * result ≤ length line.now }
    ensures rest { drop result (cells_of line.now) ≡ cells_of (drop (2 * result) line.now) }
    ensures passes { prefix_len is_one_digit (cells_of line.now) ≡ result + prefix_len is_one_digit (cells_of (drop (2 * result) line.now)) }
    ensures numbers { numbers.new ≡ map digit_of (take result (cells_of line.now)) ++ drop result numbers.old }
{
    let groups = numbers.len().min(line.len() / 2) / GROUP;
    for g in 0..groups {
        let pairs = pairs_at(line, GROUP * g);
        if !are_digits(pairs) {
            return GROUP * g;
        }
        pairs.cast::<u32>().copy_to_slice(&mut numbers[GROUP * g..]);
    }
    GROUP * groups
}

/// The next bytes two by two, a digit and a tab being its number, and anything else a greater one.
#[inline]
fn pairs_at(line: &[u8], k: usize) -> u16x8
    requires { 2 * k + 2 * GROUP ≤ length line.now }
    ensures lanes { length result ≡ GROUP }
    ensures values { (j : ℕ) → j < GROUP → slice_index result j ≡ pair_of (slice_index line.now (2 * (k + j))) (slice_index line.now (2 * (k + j) + 1)) }
{
    let pairs = u16x8::from_le_bytes(u8x16::from_slice(&line[2 * k..]));
    pairs - u16x8::splat(ZERO)
}

/// Whether each is the number of a digit.
#[inline]
fn are_digits(pairs: u16x8) -> bool
    requires { length pairs ≡ GROUP }
    ensures { result ≡ true → (j : ℕ) → j < GROUP → slice_index pairs j ≤ 9 }
{
    pairs.simd_gt(u16x8::splat(9)).to_bitmask() == 0
}

fn is_digit(c: u8) -> bool
    ensures { result ≡ is_digit c }
{
    b'0' <= c && c <= b'9'
}
