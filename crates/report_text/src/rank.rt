//! The report of the command `rank`.

ghost use Rattle.std.specs.Prelude.{◌≡◌, ◌++◌, length, IfOk, OnOk};
ghost use Rattle.ot_base.specs.Acceptable.{IsAcceptable};
ghost use Rattle.report_text.specs.Posed.{Poses};
ghost use Rattle.report_text.specs.Reports as reports;

use crate::head::put_head;
use crate::hierarchy::put_strata;
use crate::tableaux::put_tableaux;
use crate::text::Text;
use crate::winners::put_winners;
use demotion::order_of;
use erc_vectors::{NoMemory, Strata};
use ot_base::{Label, Tableau};
use std::alloc::Global;
use violation_profiles::Problem;

/// The whole report of the command `rank`: the head, the winner of each input, the strata of a hierarchy (Tesar and
/// Smolensky 2000) with their constraints and abbreviations, its r-measure where there is one, and a tableau of each
/// input that has a winner.
///
/// The columns of a tableau stand in the order of the hierarchy. A loser's row has a mark behind its fatal violation, at
/// the first constraint of that order on which it differs from the winner. `p` is the problem of `t`, with given pairs or without, and `s` a hierarchy
/// of its constraints, such as one that satisfies the conditions of all winners.
pub fn rank_text(
    alloc: Global,
    t: &Tableau,
    p: &Problem,
    s: &Strata,
    r: Option<u32>,
) -> Result<Label, NoMemory>
    requires acceptable { IsAcceptable t.now }
    requires poses { Poses t.now p.now }
    requires width { length s.now ≡ p.now.constraints }
    ensures { IfOk result (λ text. text ≡ reports.rank_report t.now p.now s.now r) }
{
    let mut text = Text::new(alloc);
    put_head(&mut text, b"rank", t, p)?;
    put_winners(&mut text, p)?;
    put_strata(&mut text, t.abbrevs.as_slice(), s)?;
    put_measure(&mut text, r)?;
    put_tableaux(&mut text, &order_of(s), t, p)?;
    text.put(b"end\n")?;
    Ok(text.into_label())
}

/// The line of the r-measure, and nothing where there is none.
fn put_measure(text: &mut Text, r: Option<u32>) -> Result<(), NoMemory>
    ensures { OnOk result (text.new ≡ text.old ++ reports.measure_line r) }
{
    match r {
        Some(measure) => text.count_line(b"rmeasure", measure as usize),
        None => Ok(()),
    }
}
