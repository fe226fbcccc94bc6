//! Lists of constraints in words.

ghost use Rattle.std.specs.Prelude.{◌≡◌, ◌==◌, ◌++◌, ◌∷◌, [], ℕ, List, IfOk, Some, None, Err, map, length};
ghost use Rattle.std.specs.List.{slice_split};
ghost use Rattle.command_words.specs.Words as words_of;

use crate::numbers::number_of;
use crate::settings::WordsError;
use erc_vectors::{ConId, List, NoMemory};
use std::alloc::{AllocError, Global};

/// The constraints of a list: numbers from 1 to 128, each of 1 to 3 digits, with one comma between two. They are counted from 0.
pub(crate) fn constraints_of(alloc: Global, text: &str) -> Result<List<ConId>, WordsError>
    ensures given { IfOk result (λ list. words_of.constraint_list text.now ≡ Some list) }
    ensures bad { result ≡ Err WordsError.Bad → words_of.constraint_list text.now ≡ None }
{
    let Ok(texts) = texts_of(alloc, text) else {
        return Err(WordsError::NoMemory);
    };
    let mut list = List::new(alloc);
    for text in &texts {
        match constraint_of(text) {
            Some(constraint) => list.push(constraint)?,
            None => return Err(WordsError::Bad),
        }
    }
    Ok(list)
}

/// Of each of n constraints, whether a list of constraints names it. Numbers from n on name none.
#[tactic(auto, using(crate::proofs::Named::length_named))]
pub fn named_flags(alloc: Global, n: usize, list: &[ConId]) -> Result<List<bool>, NoMemory>
    ensures named { IfOk result (λ flags. flags ≡ words_of.named n list.now) }
    ensures width { IfOk result (λ flags. length flags ≡ n) }
{
    let mut flags = vec![in alloc; false; n]?;
    for constraint in list {
        set_flag(flags.as_mut_slice(), *constraint);
    }
    Ok(List::from_vec(flags))
}

/// Sets the flag of a constraint, if it has one.
fn set_flag(flags: &mut [bool], constraint: ConId)
    ensures { (n : ℕ) (list : List ConId) → flags.old ≡ words_of.named n list → flags.new ≡ words_of.named n (list ++ constraint ∷ []) }
{
    let k = constraint.0 as usize;
    if k >= flags.len() {
        return;
    }
    flags[k] = true;
}

/// The texts between the commas.
fn texts_of(alloc: Global, text: &str) -> Result<Vec<&str>, AllocError>
    ensures { IfOk result (λ texts. map (λ text. text.now) texts.items ≡ slice_split (λ c. c == 44) text.now) }
{
    text.split(',').collect(alloc)
}

/// The constraint of a number from 1 to 128, of 1 to 3 digits.
fn constraint_of(text: &str) -> Option<ConId>
    ensures { result ≡ words_of.constraint text.now }
{
    let number = number_of(text, 3, 1, 128)?;
    Some(ConId(number as u16 - 1))
}
