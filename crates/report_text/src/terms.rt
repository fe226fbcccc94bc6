//! Terms, and the fusion of their conditions.

ghost use Rattle.std.specs.Prelude.{◌≡◌, ◌∷◌, ◌++◌, ◌<◌, length, map, take, IsTrue, OnOk};
ghost use Rattle.ot_theory.specs.Conditions.{fusion};
ghost use Rattle.ot_theory.specs.Languages.{Loser, condition_of};
ghost use Rattle.refutation.specs.Terms.{are_terms, terms_in, term_of};
ghost use Rattle.report_text.specs.Spelling as spelling;

use crate::text::{Text, write_behind};
use erc_vectors::{ConId, Condition, LIMIT, Mark, NoMemory};
use itoa::write_digits;
use ot_base::{ClassId, InId};
use refutation::{Term, fusion_of};
use violation_profiles::Problem;

/// The marks of the fusion of the terms' conditions, as a field, and the terms as another one.
pub(crate) fn put_fused_terms(text: &mut Text, p: &Problem, terms: &[Term]) -> Result<(), NoMemory>
    requires some { 0 < length terms.now }
    requires terms { IsTrue (are_terms p.now terms.now) }
    ensures { OnOk result (text.new ≡ text.old
        ++ (9 ∷ spelling.marks (fusion p.now.constraints (map (condition_of p.now) (terms_in terms.now)))) ++ (9 ∷ spelling.terms (terms_in terms.now))) }
{
    let Some((first, rest)) = terms.split_first() else {
        unreachable!()
    };
    text.put(b"\t")?;
    put_marks(text, &fusion_of(p, first, rest))?;
    text.put(b"\t")?;
    put_terms(text, terms)
}

/// The letter of each mark of a condition, in file order.
pub(crate) fn put_marks(text: &mut Text, condition: &Condition) -> Result<(), NoMemory>
    ensures { OnOk result (text.new ≡ text.old ++ spelling.marks condition.now) }
{
    let letters = letters_of(condition);
    text.put(&letters[..condition.width()])
}

fn letters_of(condition: &Condition) -> [u8; LIMIT]
    ensures { take (length condition.now) result ≡ spelling.marks condition.now }
{
    let mut letters = [0; LIMIT];
    for c in 0..condition.width() {
        letters[c] = letter(condition.mark(ConId(c as u16)));
    }
    letters
}

fn letter(mark: Mark) -> u8
    ensures { result ≡ spelling.letter mark }
{
    match mark {
        Mark::W => b'W',
        Mark::L => b'L',
        Mark::E => b'e',
    }
}

/// Terms with a space between each two.
fn put_terms(text: &mut Text, terms: &[Term]) -> Result<(), NoMemory>
    ensures { OnOk result (text.new ≡ text.old ++ spelling.terms (terms_in terms.now)) }
{
    for (k, term) in terms.iter().enumerate() {
        text.separator(k == 0, b" ")?;
        put_term(text, term)?;
    }
    Ok(())
}

/// A term: its input, its winner and its loser, by their numbers from 1 on; or the number of a given pair behind a `g`.
pub(crate) fn put_term(text: &mut Text, term: &Term) -> Result<(), NoMemory>
    ensures { OnOk result (text.new ≡ text.old ++ spelling.term (term_of term.now)) }
{
    match *term {
        Term::Loser {
            input,
            winner,
            loser,
        } => put_loser(text, input, winner, loser),
        Term::Given(k) => text.byte_and_number(b'g', k as usize + 1),
    }
}

/// A class of an input against another one. The numbers are put together from the last to the first, and written at once.
fn put_loser(text: &mut Text, input: InId, winner: ClassId, loser: ClassId) -> Result<(), NoMemory>
    ensures { OnOk result (text.new ≡ text.old ++ spelling.term (Loser input.0 winner.0 loser.0)) }
{
    let mut bytes = [b' '; 48];
    let loser = write_behind(b'>', loser.0 as u64 + 1, &mut bytes, 24);
    let winner = write_behind(b':', winner.0 as u64 + 1, &mut bytes, loser);
    let start = write_digits(input.0 as u64 + 1, &mut bytes, winner);
    text.put_front(&bytes[start..start + 24], 24 - start)
}
