//! The given pairs that the bytes of a file spell, or the first fault of the file.
//!
//! Each line that is not blank names the upper and then the lower constraint of a pair. The file, its refusals and their order are
//! this project's own.

ghost use Rattle.std.specs.Prelude.{◌≡◌, ◌<◌, ◌≤◌, [], ◌∷◌, ◌++◌, map, length, position, bytes_eq, IfOk, OnOk, MatchResult, Ok, Err, All};
ghost use Rattle.ot_base.specs.declared.limits.TheConstants.{GIVEN_LIMIT};
ghost use Rattle.ot_base.specs.Acceptable.{IsAcceptable};
ghost use Rattle.ot_base.specs.Tableaus.{pair_of, pairs_in};
ghost use Rattle.ot_theory.specs.Problems.{IsPair};
ghost use Rattle.tableau_file.specs.Given.{given_reading, name_faults, number_of, pair_faults, pair_in, pairs_reading};
ghost use Rattle.tableau_file.specs.Faults.{IsFirst};
ghost use Rattle.tableau_file.specs.Rows.{texts_of};

use crate::cells::{has_text, next_text};
use crate::limits::FILE_LIMIT;
use crate::row::is_blank;
use crate::{is_utf16, without_mark};
use erc_vectors::{ConId, List, NoMemory};
use ot_base::{GIVEN_LIMIT, Label, Pair, Tableau};
use std::alloc::Global;
use tab_cells::Lines;

/// Why a file of given pairs is refused.
#[derive(Clone, Copy, Debug, PartialEq, Eq)]
pub enum GivenWhy {
    /// The file has more bytes than the limit.
    TooLong,
    /// The file begins with a byte order mark of UTF-16.
    Utf16,
    /// The upper or the lower constraint has no name.
    MissingName,
    /// No constraint has this name or this abbreviation.
    UnknownName,
    /// Both columns name the same constraint.
    SameConstraint,
    /// A cell past the second column is not empty.
    ExtraCell,
    /// There are more pairs than the limit.
    TooManyPairs,
}

/// The first fault of a file of given pairs: the line, from 1 on, and the reason.
#[derive(Clone, Copy, Debug, PartialEq, Eq)]
pub struct GivenRefusal {
    pub line: u32,
    pub why: GivenWhy,
}

/// Why there are no given pairs.
#[derive(Debug, Drop)]
pub enum GivenError {
    /// The file has a fault.
    Refused(GivenRefusal),
    /// There was no memory for the pairs. It says nothing of the file.
    NoMemory,
}

/// Why a line gives no pair.
#[derive(Clone, Copy, Debug, PartialEq, Eq)]
pub(crate) enum PairError {
    Fault(GivenWhy),
    NoMemory,
}

impl From<GivenWhy> for PairError {
    ghost use Rattle.std.specs.Prelude.{◌≡◌};
    ghost use Rattle.tableau_file.specs.declared.given.PairError.TheVariants.{Fault};

    ghost from_gives = { λ why error. error ≡ Fault why };

    fn from(why: GivenWhy) -> PairError {
        PairError::Fault(why)
    }
}

impl From<NoMemory> for PairError {
    ghost use Rattle.std.specs.Prelude.{◌≡◌};
    ghost use Rattle.tableau_file.specs.declared.given.PairError.TheVariants as variants;

    ghost from_gives = { λ _ error. error ≡ variants.NoMemory };

    fn from(_error: NoMemory) -> PairError {
        PairError::NoMemory
    }
}

/// The given pairs of a file, of constraints of this tableau, or the first refusal: at most 4,096, each of two different constraints.
pub fn read_given(alloc: Global, bytes: &[u8], t: &Tableau) -> Result<List<Pair>, GivenError>
    requires { IsAcceptable t.now }
    ensures read { IfOk result (λ pairs. given_reading t.now bytes.now ≡ Ok pairs) }
    ensures refused { (refusal : GivenRefusal) → result ≡ Err (GivenError.Refused refusal) → given_reading t.now bytes.now ≡ Err refusal }
    ensures few { IfOk result (λ pairs. length pairs ≤ GIVEN_LIMIT) }
    ensures pairs { IfOk result (λ pairs. All (IsPair (length t.now.names)) (pairs_in pairs)) }
{
    if bytes.len() > FILE_LIMIT {
        return Err(GivenError::Refused(GivenRefusal {
            line: 1,
            why: GivenWhy::TooLong,
        }));
    }
    if is_utf16(bytes) {
        return Err(GivenError::Refused(GivenRefusal {
            line: 1,
            why: GivenWhy::Utf16,
        }));
    }
    read_pairs(alloc, tab_cells::lines(without_mark(bytes)), t)
}

/// The pairs that the lines of a file give, or the first refusal.
fn read_pairs(alloc: Global, lines: Lines<'_>, t: &Tableau) -> Result<List<Pair>, GivenError>
    requires lines { length lines ≤ FILE_LIMIT }
    requires tableau { IsAcceptable t.now }
    ensures read { IfOk result (λ pairs. pairs_reading t.now (map texts_of lines.entry) ≡ Ok pairs) }
    ensures refused { (refusal : GivenRefusal) → result ≡ Err (GivenError.Refused refusal) → pairs_reading t.now (map texts_of lines.entry) ≡ Err refusal }
    ensures few { IfOk result (λ pairs. length pairs ≤ GIVEN_LIMIT) }
    ensures pairs { IfOk result (λ pairs. All (IsPair (length t.now.names)) (pairs_in pairs)) }
{
    let mut pairs = List::new(alloc);
    let mut number = 1;
    for line in lines {
        if !is_blank(line) {
            if let Err(error) = add_pair(alloc, line, t, &mut pairs) {
                return Err(given_error_at(number, error));
            }
        }
        number += 1;
    }
    Ok(pairs)
}

/// Adds the pair of a line behind the others, or tells the first fault of the line.
fn add_pair(
    alloc: Global,
    line: &[u8],
    t: &Tableau,
    pairs: &mut List<Pair>,
) -> Result<(), PairError>
    requires { IsAcceptable t.now }
    ensures sound { OnOk result (pair_faults t.now (length pairs.old) (texts_of line.now) ≡ []) }
    ensures added { OnOk result (pairs.new ≡ pairs.old ++ pair_in t.now (texts_of line.now) ∷ []) }
    ensures few { OnOk result (length pairs.old < GIVEN_LIMIT) }
    ensures pair { OnOk result (IsPair (length t.now.names) (pair_of (pair_in t.now (texts_of line.now)))) }
    ensures fault { (why : GivenWhy) → result ≡ Err (PairError.Fault why) → IsFirst why (pair_faults t.now (length pairs.old) (texts_of line.now)) }
{
    let mut cells = tab_cells::cells(line);
    let upper = next_text(alloc, &mut cells)?;
    let above = constraint_named(t, upper.bytes())?;
    let lower = next_text(alloc, &mut cells)?;
    let below = constraint_named(t, lower.bytes())?;
    if above == below {
        return Err(PairError::Fault(GivenWhy::SameConstraint));
    }
    if has_text(cells) {
        return Err(PairError::Fault(GivenWhy::ExtraCell));
    }
    if pairs.len() >= GIVEN_LIMIT {
        return Err(PairError::Fault(GivenWhy::TooManyPairs));
    }
    pairs.push(Pair { above, below })?;
    Ok(())
}

/// The constraint that a text names, or why it names none.
fn constraint_named(t: &Tableau, text: &[u8]) -> Result<ConId, GivenWhy>
    requires { IsAcceptable t.now }
    ensures faults { MatchResult result (λ _. name_faults t.now text.now ≡ []) (λ why. IsFirst why (name_faults t.now text.now)) }
    ensures number { IfOk result (λ c. c.0 ≡ number_of t.now text.now) }
    ensures within { IfOk result (λ c. c.0 < length t.now.names) }
{
    if text.is_empty() {
        return Err(GivenWhy::MissingName);
    }
    let place = place_of(t.names.as_slice(), text).or_else(|| place_of(t.abbrevs.as_slice(), text));
    match place {
        Some(c) => Ok(ConId(c as u16)),
        None => Err(GivenWhy::UnknownName),
    }
}

/// The place of the first of some labels with this text.
fn place_of(labels: &[Label], text: &[u8]) -> Option<usize>
    ensures { result ≡ position (bytes_eq text.now) labels.now }
{
    labels.iter().position(|label| text == label.bytes())
}

/// The error of the line with this number.
fn given_error_at(line: u32, error: PairError) -> GivenError
    ensures refused { (refusal : GivenRefusal) → result ≡ GivenError.Refused refusal → (refusal.line ≡ line) × (error ≡ PairError.Fault refusal.why) }
{
    match error {
        PairError::Fault(why) => GivenError::Refused(GivenRefusal { line, why }),
        PairError::NoMemory => GivenError::NoMemory,
    }
}
