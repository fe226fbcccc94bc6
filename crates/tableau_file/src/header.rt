//! The first two lines: the names of the constraints and their abbreviations.

ghost use Rattle.std.specs.Prelude.{◌≡◌, ◌-◌, ◌≤◌, [], List, ℕ, true, false, length, IfOk, OnOk, Err};
ghost use Rattle.std.specs.List.{list_any};
ghost use Rattle.tableau_file.specs.Rows.{texts_of, is_empty, constraint_cells, or_name, abbreviations_of};
ghost use Rattle.tableau_file.specs.Faults.{columns_used, has_extra, name_faults, abbreviation_faults, IsFirst};

use crate::Why;
use crate::cells::{cells_from, has_text, next_text};
use crate::row::LineError;
use erc_vectors::{LIMIT, List};
use ot_base::Label;
use std::alloc::Global;

/// The number of columns up to the last that is not empty.
fn columns_used(line: &[u8]) -> usize
    ensures { result ≡ columns_used (texts_of line.now) }
{
    let mut used = 0;
    for (column, cell) in tab_cells::cells(line).enumerate() {
        if !tab_cells::is_empty_cell(cell) {
            used = column + 1;
        }
    }
    used
}

/// The names of the constraints, or the first fault of the line.
pub(crate) fn read_names(alloc: Global, line: &[u8]) -> Result<List<Label>, LineError>
    ensures sound { OnOk result (name_faults (columns_used (texts_of line.now) - 3) (texts_of line.now) ≡ []) }
    ensures names { IfOk result (λ names. names ≡ constraint_cells (columns_used (texts_of line.now) - 3) (texts_of line.now)) }
    ensures fault { (why : Why) → result ≡ Err (LineError.Fault why) → IsFirst why (name_faults (columns_used (texts_of line.now) - 3) (texts_of line.now)) }
{
    let n = columns_used(line).saturating_sub(3);
    if n == 0 {
        return Err(LineError::Fault(Why::NoConstraints));
    }
    if n > LIMIT {
        return Err(LineError::Fault(Why::TooManyConstraints));
    }
    names_of(alloc, n, line)
}

/// The n names of a line, or the fault that one is empty.
fn names_of(alloc: Global, n: usize, line: &[u8]) -> Result<List<Label>, LineError>
    ensures sound { OnOk result (list_any is_empty (constraint_cells n (texts_of line.now)) ≡ false) }
    ensures names { IfOk result (λ names. names ≡ constraint_cells n (texts_of line.now)) }
    ensures fault { (why : Why) → result ≡ Err (LineError.Fault why) → (why ≡ Why.EmptyName) × (list_any is_empty (constraint_cells n (texts_of line.now)) ≡ true) }
{
    let mut cells = cells_from(line, 3);
    let mut names = List::new(alloc);
    for _ in 0..n {
        let text = next_text(alloc, &mut cells)?;
        if text.bytes().is_empty() {
            return Err(LineError::Fault(Why::EmptyName));
        }
        names.push(Label::of(alloc, text.bytes())?)?;
    }
    Ok(names)
}

/// The abbreviations of the names, or the first fault of the line.
pub(crate) fn read_abbreviations(
    alloc: Global,
    names: &[Label],
    line: &[u8],
) -> Result<List<Label>, LineError>
    requires { length names.now ≤ LIMIT }
    ensures sound { OnOk result (abbreviation_faults (length names.now) (texts_of line.now) ≡ []) }
    ensures abbreviations { IfOk result (λ abbreviations. abbreviations ≡ abbreviations_of names.now (texts_of line.now)) }
    ensures fault { (why : Why) → result ≡ Err (LineError.Fault why) → IsFirst why (abbreviation_faults (length names.now) (texts_of line.now)) }
{
    if has_text(cells_from(line, names.len() + 3)) {
        return Err(LineError::Fault(Why::ExtraCell));
    }
    let mut cells = cells_from(line, 3);
    let mut abbreviations = List::new(alloc);
    for name in names {
        let text = next_text(alloc, &mut cells)?;
        let abbreviation = or_name(text.bytes(), name.bytes());
        abbreviations.push(Label::of(alloc, abbreviation)?)?;
    }
    Ok(abbreviations)
}

/// An abbreviation, or the name in place of an empty one.
fn or_name<'a>(abbreviation: &'a [u8], name: &'a [u8]) -> &'a [u8]
    ensures { result.now ≡ or_name abbreviation.now name.now }
{
    if abbreviation.is_empty() {
        name
    } else {
        abbreviation
    }
}
