//! What some choices have at each input, kept while they come one after another.

ghost use Rattle.std.specs.Prelude.{◌≡◌, [], length, IfOk};
ghost use Rattle.refutation.specs.Prefixes.{class_numbers};
ghost use Rattle.t_orders.specs.Rows.{AddsChoice, IsRowOf};

use crate::seen::Seen;
use erc_vectors::NoMemory;
use ot_base::ClassId;
use std::alloc::Global;
use std::marker::Model;

/// What the choices so far have at each input. A contract sees it as the list of what is seen of each.
#[derive(Debug, Drop)]
pub(crate) struct Row {
    seen: Vec<Seen>,
}

impl Model for Row {
    ghost use Rattle.std.specs.Prelude.{List};
    ghost use Rattle.t_orders.specs.declared.seen.Seen.{Seen};

    ghost Value = { List Seen };

    ghost view = { λ row. row.seen.items };
}

impl Row {
    /// The row of no choices of so many inputs.
    pub(crate) fn new(alloc: Global, inputs: usize) -> Result<Row, NoMemory>
        ensures { IfOk result (λ row. IsRowOf [] inputs row) }
    {
        let mut seen = Vec::with_capacity(alloc, inputs)?;
        for _ in 0..inputs {
            seen.push(Seen::Nothing)?;
        }
        Ok(Row { seen })
    }

    /// Adds a choice of one class for each input of the row.
    pub(crate) fn add(&mut self, choice: &[ClassId])
        requires { length choice.now ≡ length self.old }
        ensures { AddsChoice (class_numbers choice.now) self.old self.new }
    {
        note(&mut self.seen, choice);
    }

    /// What is seen of each input.
    pub(crate) fn as_slice(&self) -> &[Seen]
        ensures { result.now ≡ self.now }
    {
        self.seen.as_slice()
    }
}

/// Notes of each input the class of a choice more.
fn note(seen: &mut [Seen], choice: &[ClassId])
    requires { length choice.now ≡ length seen.old }
    ensures { AddsChoice (class_numbers choice.now) seen.old seen.new }
{
    for (j, class) in choice.iter().enumerate() {
        seen[j] = seen[j].with(*class);
    }
}
