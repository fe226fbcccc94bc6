//! The winner of each input.

ghost use Rattle.std.specs.Prelude.{◌≡◌, ◌∷◌, [], ◌++◌, codes, decimal, option_map, OnOk};
ghost use Rattle.report_text.specs.Spelling as spelling;
ghost use Rattle.report_text.specs.Reports as reports;

use crate::text::Text;
use erc_vectors::NoMemory;
use ot_base::{ClassId, InId};
use violation_profiles::Problem;

/// A line for each input: its number, and the class number of its winner or `none`.
pub(crate) fn put_winners(text: &mut Text, problem: &Problem) -> Result<(), NoMemory>
    ensures { OnOk result (text.new ≡ text.old ++ reports.winner_lines problem.now) }
{
    for i in 0..problem.inputs() {
        put_winner(text, i + 1, problem.winner(InId(i as u32)))?;
    }
    Ok(())
}

fn put_winner(text: &mut Text, number: usize, winner: Option<ClassId>) -> Result<(), NoMemory>
    ensures { OnOk result (text.new ≡ text.old
        ++ spelling.line (codes "winner" ∷ decimal number ∷ spelling.winner (option_map (λ class. class.0) winner) ∷ [])) }
{
    text.put(b"winner")?;
    text.number_field(number)?;
    match winner {
        Some(class) => text.number_field(class.0 as usize + 1)?,
        None => text.field(b"none")?,
    }
    text.end_line()
}
