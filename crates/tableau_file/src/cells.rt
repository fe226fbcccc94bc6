//! The cells of a line, column by column. Past the end of a line its cells are empty.

ghost use Rattle.std.specs.Prelude.{◌≡◌, not, map, drop, IfOk};
ghost use Rattle.std.specs.List.{list_any};
ghost use Rattle.tab_cells.specs.CellText.{text_in};
ghost use Rattle.tab_cells.specs.Cells.{cells_of, text_of};
ghost use Rattle.tableau_file.specs.Rows.{cell, is_empty};

use erc_vectors::NoMemory;
use std::alloc::Global;
use tab_cells::{CellText, Cells};

/// Whether a cell that is left is not empty.
pub(crate) fn has_text(mut cells: Cells<'_>) -> bool
    ensures { result ≡ list_any (λ cell. not (is_empty (text_of cell))) cells.entry }
{
    cells.any(|cell| !tab_cells::is_empty_cell(cell))
}

/// The cells of a line from this column on, counted from 0.
pub(crate) fn cells_from(line: &[u8], column: usize) -> Cells<'_>
    ensures { result ≡ drop column (cells_of line.now) }
{
    let mut cells = tab_cells::cells(line);
    for _ in 0..column {
        cells.next();
    }
    cells
}

/// The text of the next cell, and an empty one past the end.
pub(crate) fn next_text<'a>(alloc: Global, cells: &mut Cells<'a>) -> Result<CellText<'a>, NoMemory>
    ensures text { IfOk result (λ text. text_in text ≡ cell (map text_of cells.old) 0) }
    ensures rest { cells.new ≡ drop 1 cells.old }
{
    match cells.next() {
        Some(cell) => tab_cells::unquote(alloc, cell),
        None => Ok(CellText::Borrowed(&[])),
    }
}
