//! Which types may go to another thread: each call below is refused if its type may not.

use crate::{CellText, Cells, Lines};

fn goes<T: Send>(_value: &T) {}

fn is_shared<T: Sync>(_value: &T) {}

pub fn pieces_go(lines: &Lines<'_>, cells: &Cells<'_>, text: &CellText<'_>) {
    goes(lines);
    goes(cells);
    goes(text);
}

pub fn pieces_are_shared(lines: &Lines<'_>, cells: &Cells<'_>, text: &CellText<'_>) {
    is_shared(lines);
    is_shared(cells);
    is_shared(text);
}
