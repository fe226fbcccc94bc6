//! The lines and cells of a tab-separated file, and the text of a cell.
//!
//! The files are the input files of OTSoft, tab-separated, as its manual describes them (Bruce Hayes, Bruce Tesar and Kie
//! Zuraw, 2013). That a line may end at LF, at CR LF or at CR, and how spaces and quotes are taken off a cell, is this
//! project's own. Spaces are the byte 32 alone, and the bytes need not be UTF-8.
#![tactic(auto)]

ghost use Rattle.std.specs.Prelude.{◌≡◌, ◌+◌, ◌≤◌, length};
ghost use Rattle.tab_cells.specs.Lines.{lines_of};
ghost use Rattle.tab_cells.specs.Cells.{cells_of};

mod pieces;
mod shared;
mod texts;

pub use pieces::{Cells, Lines};
pub use shared::{pieces_are_shared, pieces_go};
pub use texts::{CellText, is_empty_cell, unquote};

/// The lines of a file, in order, without the LF, CR LF or CR that ends each. What follows the last end is a line if it
/// is not empty.
pub fn lines(bytes: &[u8]) -> Lines<'_>
    ensures value { result ≡ lines_of bytes.now }
    ensures few { length result ≤ length bytes.now }
{
    Lines::of(bytes)
}

/// The pieces of a line between its tabs, in order, uncut. An empty line has one empty piece.
pub fn cells(line: &[u8]) -> Cells<'_>
    ensures value { result ≡ cells_of line.now }
    ensures few { length result ≤ length line.now + 1 }
{
    Cells::of(line)
}
