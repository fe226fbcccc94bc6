//! What the languages have at each input, for each class of one input.

ghost use Rattle.std.specs.Prelude.{◌≡◌, ◌<◌, ℕ, [], All, IfOk, length};
ghost use Rattle.ot_theory.specs.Languages.{classes_at};
ghost use Rattle.t_orders.specs.Implications.{choices_of};
ghost use Rattle.t_orders.specs.Rows.{IsChoice, IsTableOf};

use crate::row::Row;
use erc_vectors::NoMemory;
use ot_base::InId;
use refutation::Language;
use std::alloc::Global;
use violation_profiles::Problem;

/// For each class of an input the row of the languages that have it. It takes memory for as many items as the input has classes,
/// times the number of inputs, and none for a language.
pub(crate) fn table_of(
    alloc: Global,
    p: &Problem,
    languages: &[Language],
    input: InId,
) -> Result<Vec<Row>, NoMemory>
    requires input { input.0 < length p.now.inputs }
    requires choices { All (IsChoice p.now) (choices_of languages.now) }
    ensures { IfOk result (λ table. IsTableOf (choices_of languages.now) input.0 (length (classes_at p.now input.0)) (length p.now.inputs) table.items) }
{
    let mut table = empty_table(alloc, p.classes(input), p.inputs())?;
    for language in languages {
        let choice = language.choice.as_slice();
        let class = choice[input.0 as usize];
        table[class.0 as usize].add(choice);
    }
    Ok(table)
}

/// For each of so many classes of an input the row of no choices.
fn empty_table(alloc: Global, classes: usize, inputs: usize) -> Result<Vec<Row>, NoMemory>
    ensures { IfOk result (λ table. (i : ℕ) → IsTableOf [] i classes inputs table.items) }
{
    let mut table = Vec::new(alloc);
    for _ in 0..classes {
        table.push(Row::new(alloc, inputs)?)?;
    }
    Ok(table)
}
