//! The lines from the third on.

ghost use Rattle.std.specs.Prelude.{◌≡◌, ◌≤◌, [], map, length, IfOk, OnOk, Err};
ghost use Rattle.tableau_file.specs.Rows.{texts_of, rows_from, inputs_of};
ghost use Rattle.tableau_file.specs.Faults.{rows_refusals, IsFirst};

use crate::limits::FILE_LIMIT;
use crate::row::{Inputs, add_row, is_blank};
use crate::{FileRefusal, ReadError, Why, error_at};
use erc_vectors::List;
use ot_base::InputRows;
use std::alloc::Global;
use tab_cells::Lines;

/// The inputs of the lines from the third on, of n constraints, or the first refusal.
pub(crate) fn read_rows(
    alloc: Global,
    n: usize,
    lines: Lines<'_>,
) -> Result<List<InputRows>, ReadError>
    requires { length lines ≤ FILE_LIMIT }
    ensures sound { OnOk result (rows_refusals n (rows_from 3 (map texts_of lines.entry)) ≡ []) }
    ensures inputs { IfOk result (λ inputs. inputs ≡ inputs_of n (rows_from 3 (map texts_of lines.entry))) }
    ensures refused { (refusal : FileRefusal) → result ≡ Err (ReadError.Refused refusal) → IsFirst refusal (rows_refusals n (rows_from 3 (map texts_of lines.entry))) }
{
    let mut inputs = Inputs::new(alloc);
    let mut number = 3;
    for line in lines {
        if !is_blank(line) {
            if let Err(error) = add_row(alloc, n, &mut inputs, number, line) {
                return Err(error_at(number, error));
            }
        }
        number += 1;
    }
    let inputs = inputs.into_list();
    if inputs.len() == 0 {
        return Err(ReadError::Refused(FileRefusal {
            line: 3,
            why: Why::NoRows,
        }));
    }
    Ok(inputs)
}
