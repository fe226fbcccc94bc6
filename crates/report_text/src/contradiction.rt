//! The report of a command that finds that no ranking keeps the conditions of the winners.

ghost use Rattle.std.specs.Prelude.{◌≡◌, ◌++◌, IsTrue, IfOk, OnOk};
ghost use Rattle.ot_theory.specs.Refutations.{is_contradiction};
ghost use Rattle.refutation.specs.Terms.{terms_in};
ghost use Rattle.report_text.specs.Posed.{Poses};
ghost use Rattle.report_text.specs.Reports as reports;

use crate::head::put_head;
use crate::terms::put_fused_terms;
use crate::text::Text;
use crate::winners::put_winners;
use erc_vectors::NoMemory;
use ot_base::{Label, Tableau};
use refutation::{Contradiction, Term};
use std::alloc::Global;
use violation_profiles::Problem;

/// The whole report of a command where no ranking keeps the conditions of the winners: the head, with the name of the
/// command, the winner of each input, and a line with the fusion of a contradiction's conditions (Prince 2002) and its
/// terms. `p` is the problem of `t`, with given pairs or without, and `c` a genuine contradiction of it.
pub fn contradiction_text(
    alloc: Global,
    t: &Tableau,
    p: &Problem,
    command: &str,
    c: &Contradiction,
) -> Result<Label, NoMemory>
    requires poses { Poses t.now p.now }
    requires genuine { IsTrue (is_contradiction p.now (terms_in c.now.terms)) }
    ensures { IfOk result (λ text. text ≡ reports.contradiction_report command.now t.now p.now (terms_in c.now.terms)) }
{
    let mut text = Text::new(alloc);
    put_head(&mut text, command.as_bytes(), t, p)?;
    put_winners(&mut text, p)?;
    put_contradiction(&mut text, p, c.terms.as_slice())?;
    text.put(b"end\n")?;
    Ok(text.into_label())
}

/// The line of a contradiction: the marks of its fusion, and its terms.
fn put_contradiction(text: &mut Text, p: &Problem, terms: &[Term]) -> Result<(), NoMemory>
    requires { IsTrue (is_contradiction p.now (terms_in terms.now)) }
    ensures { OnOk result (text.new ≡ text.old ++ reports.contradiction_line p.now (terms_in terms.now)) }
{
    text.put(b"contradiction")?;
    put_fused_terms(text, p, terms)?;
    text.end_line()
}
