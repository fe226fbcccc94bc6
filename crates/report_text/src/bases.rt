//! The report of the command `bases`.

ghost use Rattle.std.specs.Prelude.{◌≡◌, ◌++◌, length, IsTrue, IfOk, OnOk};
ghost use Rattle.ot_theory.specs.Refutations.{is_term};
ghost use Rattle.refutation.specs.Terms.{are_terms, term_of, terms_in};
ghost use Rattle.report_text.specs.Posed.{Poses};
ghost use Rattle.report_text.specs.Listings as listings;

use crate::head::put_head;
use crate::terms::{put_marks, put_term};
use crate::text::Text;
use crate::winners::put_winners;
use erc_vectors::{Condition, List, NoMemory};
use fusional_reduction::Bases;
use ot_base::{Label, Tableau};
use refutation::{Term, condition_of, winner_terms};
use std::alloc::Global;
use violation_profiles::Problem;

/// The whole report of the command `bases`: the head, the winner of each input, the conditions of the winners that have both W
/// and L (Prince 2002), each with its term, and the members of the informative and of the skeletal basis (after Brasoveanu and
/// Prince 2011), side by side.
///
/// `p` is the problem of `t`, with given pairs or without, and the two bases are of equal length. They are printed in the order in which they stand.
pub fn bases_text(alloc: Global, t: &Tableau, p: &Problem, b: &Bases) -> Result<Label, NoMemory>
    requires poses { Poses t.now p.now }
    requires same_length { length b.now.skeletal ≡ length b.now.informative }
    ensures { IfOk result (λ text. text ≡ listings.bases_report t.now p.now b.now.informative b.now.skeletal) }
{
    let terms = nontrivial_terms(alloc, p)?;
    let mut text = Text::new(alloc);
    put_head(&mut text, b"bases", t, p)?;
    put_winners(&mut text, p)?;
    put_conditions(&mut text, p, terms.as_slice())?;
    put_members(&mut text, b.informative.as_slice(), b.skeletal.as_slice())?;
    text.put(b"end\n")?;
    Ok(text.into_label())
}

/// The terms of the winners whose condition has both W and L, in order of input and then of loser.
fn nontrivial_terms(alloc: Global, p: &Problem) -> Result<List<Term>, NoMemory>
    ensures terms { IfOk result (λ terms. terms_in terms ≡ listings.nontrivial_terms p.now) }
    ensures genuine { IfOk result (λ terms. IsTrue (are_terms p.now terms)) }
{
    let all = winner_terms(alloc, p)?;
    with_both(alloc, p, all.as_slice())
}

/// Those terms whose condition has both W and L, in order.
fn with_both(alloc: Global, p: &Problem, terms: &[Term]) -> Result<List<Term>, NoMemory>
    requires { IsTrue (are_terms p.now terms.now) }
    ensures terms { IfOk result (λ kept. terms_in kept ≡ listings.with_both p.now (terms_in terms.now)) }
    ensures genuine { IfOk result (λ kept. IsTrue (are_terms p.now kept)) }
{
    let mut kept = List::new(alloc);
    for term in terms {
        if condition_of(p, term).has_both() {
            kept.push(*term)?;
        }
    }
    Ok(kept)
}

/// The number of terms, and a line for the condition of each.
fn put_conditions(text: &mut Text, p: &Problem, terms: &[Term]) -> Result<(), NoMemory>
    requires { IsTrue (are_terms p.now terms.now) }
    ensures { OnOk result (text.new ≡ text.old ++ listings.condition_lines p.now (terms_in terms.now)) }
{
    text.count_line(b"conditions", terms.len())?;
    for (k, term) in terms.iter().enumerate() {
        put_condition(text, p, k + 1, term)?;
    }
    Ok(())
}

/// The line of the condition of a term: its number, its marks, and the term.
fn put_condition(text: &mut Text, p: &Problem, number: usize, term: &Term) -> Result<(), NoMemory>
    requires { IsTrue (is_term p.now (term_of term.now)) }
    ensures { OnOk result (text.new ≡ text.old ++ listings.condition_line p.now number (term_of term.now)) }
{
    text.put(b"condition")?;
    text.number_field(number)?;
    text.put(b"\t")?;
    put_marks(text, &condition_of(p, term))?;
    text.put(b"\t")?;
    put_term(text, term)?;
    text.end_line()
}

/// The number of members of two bases of equal length, and a line for each.
fn put_members(
    text: &mut Text,
    informative: &[Condition],
    skeletal: &[Condition],
) -> Result<(), NoMemory>
    requires { length skeletal.now ≡ length informative.now }
    ensures { OnOk result (text.new ≡ text.old ++ listings.member_lines informative.now skeletal.now) }
{
    text.count_line(b"members", informative.len())?;
    for k in 0..informative.len() {
        put_member(text, k + 1, &informative[k], &skeletal[k])?;
    }
    Ok(())
}

/// The line of a member: its number, its marks in the informative basis, and those in the skeletal basis.
fn put_member(
    text: &mut Text,
    number: usize,
    informative: &Condition,
    skeletal: &Condition,
) -> Result<(), NoMemory>
    ensures { OnOk result (text.new ≡ text.old ++ listings.member_line number (informative.now, skeletal.now)) }
{
    text.put(b"member")?;
    text.number_field(number)?;
    text.put(b"\t")?;
    put_marks(text, informative)?;
    text.put(b"\t")?;
    put_marks(text, skeletal)?;
    text.end_line()
}
