//! The listing of implications.

ghost use Rattle.std.specs.Prelude.{◌≡◌, ◌<◌, ◌≤◌, ◌++◌, [], All, IfOk, OnOk, length, slice_index_or};
ghost use Rattle.refutation.specs.Typologies.{found_of};
ghost use Rattle.t_orders.specs.Implications.{AreLanguages, choices_of, implications, implications_by};
ghost use Rattle.t_orders.specs.Rows.{implied_at, implied_by_table, seen_at};

use crate::row::Row;
use crate::table::table_of;
use erc_vectors::{List, NoMemory};
use ot_base::{CANDIDATE_LIMIT, ClassId, INPUT_LIMIT, InId};
use refutation::{Implication, Language};
use std::alloc::Global;
use violation_profiles::Problem;

/// The implications between outputs of different inputs of a problem, in order of the implying input and class and then of the
/// implied ones, all numbered from 0. One is listed where some ranking makes the implying class optimal in its input, and every
/// ranking that does makes the implied class optimal in its own. The languages are those of the problem, in order, and
/// these are the implications that their choices tell.
pub fn implications(
    alloc: Global,
    p: &Problem,
    languages: &[Language],
) -> Result<List<Implication>, NoMemory>
    requires { AreLanguages p.now (found_of languages.now) }
    ensures listed { IfOk result (λ listed. listed ≡ implications p.now) }
    ensures told { IfOk result (λ listed. listed ≡ implications_by p.now (choices_of languages.now)) }
{
    let mut listed = List::new(alloc);
    for i in 0..p.inputs() {
        let from_input = InId(i as u32);
        let table = table_of(alloc, p, languages, from_input)?;
        add_by_table(&mut listed, from_input, &table, p.inputs())?;
    }
    Ok(listed)
}

/// Adds the implications of all classes of an input, each of which has a row, in order of class and then of the other input.
fn add_by_table(
    listed: &mut List<Implication>,
    from_input: InId,
    table: &[Row],
    inputs: usize,
) -> Result<(), NoMemory>
    requires classes { length table.now ≤ CANDIDATE_LIMIT }
    requires inputs { inputs ≤ INPUT_LIMIT }
    requires widths { All (λ row. length row ≡ inputs) table.now }
    ensures { OnOk result (listed.new ≡ listed.old ++ implied_by_table from_input.0 table.now) }
{
    let classes = table.len();
    for a in 0..classes {
        for j in 0..inputs {
            add_at(listed, from_input, table, a, j)?;
        }
    }
    Ok(())
}

/// Adds what class a of an input implies of input j, if the row of the class tells it.
fn add_at(
    listed: &mut List<Implication>,
    from_input: InId,
    table: &[Row],
    a: usize,
    j: usize,
) -> Result<(), NoMemory>
    requires class { a < length table.now }
    requires classes { length table.now ≤ CANDIDATE_LIMIT }
    requires input { j < length (slice_index_or table.now a []) }
    requires inputs { length (slice_index_or table.now a []) ≤ INPUT_LIMIT }
    ensures { OnOk result (listed.new ≡ listed.old ++ implied_at (record { input = from_input.0; class = a }) j (seen_at (slice_index_or table.now a []) j)) }
{
    let seen = table[a].as_slice()[j];
    let (from_class, to_input) = (ClassId(a as u16), InId(j as u32));
    if let Some(to_class) = seen.only() {
        if to_input.0 != from_input.0 {
            listed.push(Implication {
                from_input,
                from_class,
                to_input,
                to_class,
            })?;
        }
    }
    Ok(())
}
