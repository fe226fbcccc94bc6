//! The report of the command `hasse`.

ghost use Rattle.std.specs.Prelude.{◌≡◌, ◌++◌, length, All, IfOk, OnOk};
ghost use Rattle.ot_base.specs.Acceptable.{IsAcceptable};
ghost use Rattle.report_text.specs.Posed.{Poses};
ghost use Rattle.report_text.specs.Listings as listings;
ghost use Rattle.report_text.specs.Listings.{IsPair};

use crate::head::put_head;
use crate::text::Text;
use crate::winners::put_winners;
use erc_vectors::{Cover, NoMemory};
use ot_base::{Label, Tableau};
use std::alloc::Global;
use violation_profiles::Problem;

/// The whole report of the command `hasse`: the head, the winner of each input, and the covers of the winners' conditions
/// (Prince 2002), each as the upper and the lower of two constraints, by their numbers and then by their abbreviations.
///
/// `p` is the problem of `t`, with given pairs or without, and each cover of `c` is two of its constraints, such as those of `hasse_listing`. They are
/// printed in the order in which they stand.
pub fn hasse_text(alloc: Global, t: &Tableau, p: &Problem, c: &[Cover]) -> Result<Label, NoMemory>
    requires acceptable { IsAcceptable t.now }
    requires poses { Poses t.now p.now }
    requires within { All (IsPair p.now.constraints) c.now }
    ensures { IfOk result (λ text. text ≡ listings.hasse_report t.now p.now c.now) }
{
    let mut text = Text::new(alloc);
    put_head(&mut text, b"hasse", t, p)?;
    put_winners(&mut text, p)?;
    put_covers(&mut text, t.abbrevs.as_slice(), c)?;
    text.put(b"end\n")?;
    Ok(text.into_label())
}

/// The number of covers, and a line for each.
fn put_covers(text: &mut Text, abbreviations: &[Label], covers: &[Cover]) -> Result<(), NoMemory>
    requires { All (IsPair (length abbreviations.now)) covers.now }
    ensures { OnOk result (text.new ≡ text.old ++ listings.cover_lines abbreviations.now covers.now) }
{
    text.count_line(b"covers", covers.len())?;
    for cover in covers {
        put_cover(text, abbreviations, cover)?;
    }
    Ok(())
}

/// The line of a cover: its upper and its lower constraint, by their numbers and then by their abbreviations.
fn put_cover(text: &mut Text, abbreviations: &[Label], cover: &Cover) -> Result<(), NoMemory>
    requires { IsPair (length abbreviations.now) cover.now }
    ensures { OnOk result (text.new ≡ text.old ++ listings.cover_line abbreviations.now cover.now) }
{
    let above = cover.above.0 as usize;
    let below = cover.below.0 as usize;
    text.put(b"cover")?;
    text.number_field(above + 1)?;
    text.number_field(below + 1)?;
    text.field(abbreviations[above].bytes())?;
    text.field(abbreviations[below].bytes())?;
    text.end_line()
}
