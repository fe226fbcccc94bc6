//! The report of the command `torder`.

ghost use Rattle.std.specs.Prelude.{◌≡◌, ◌++◌, IfOk, OnOk};
ghost use Rattle.report_text.specs.Posed.{Poses};
ghost use Rattle.report_text.specs.Listings as listings;

use crate::head::put_head;
use crate::text::Text;
use erc_vectors::NoMemory;
use ot_base::{Label, Tableau};
use refutation::Implication;
use std::alloc::Global;
use violation_profiles::Problem;

/// The whole report of the command `torder`: the head, and the implications between outputs (the idea of a T-order), each as
/// the implying output and the implied one, an output being an input and a class of it by their numbers. The winners play no
/// part.
///
/// `p` is the problem of `t`, with given pairs or without. The implications are printed in the order in which they stand.
pub fn torder_text(
    alloc: Global,
    t: &Tableau,
    p: &Problem,
    l: &[Implication],
) -> Result<Label, NoMemory>
    requires poses { Poses t.now p.now }
    ensures { IfOk result (λ text. text ≡ listings.torder_report t.now p.now l.now) }
{
    let mut text = Text::new(alloc);
    put_head(&mut text, b"torder", t, p)?;
    put_implications(&mut text, l)?;
    text.put(b"end\n")?;
    Ok(text.into_label())
}

/// The number of implications, and a line for each.
fn put_implications(text: &mut Text, implications: &[Implication]) -> Result<(), NoMemory>
    ensures { OnOk result (text.new ≡ text.old ++ listings.implication_lines implications.now) }
{
    text.count_line(b"implications", implications.len())?;
    for implication in implications {
        put_implication(text, implication)?;
    }
    Ok(())
}

/// The line of an implication: the implying output, and the implied one.
fn put_implication(text: &mut Text, implication: &Implication) -> Result<(), NoMemory>
    ensures { OnOk result (text.new ≡ text.old ++ listings.implication_line implication.now) }
{
    text.put(b"implication")?;
    text.output_field(
        implication.from_input.0 as usize + 1,
        implication.from_class.0 as usize + 1,
    )?;
    text.output_field(
        implication.to_input.0 as usize + 1,
        implication.to_class.0 as usize + 1,
    )?;
    text.end_line()
}
