//! Conditions and terms as texts.

use erc_vectors::{ConId, Condition};
use refutation::Term;
use std::alloc::Global;
use std::test::Fail;

/// Adds the marks of a condition.
pub(crate) fn push_marks(text: &mut String, condition: &Condition) -> Result<(), Fail> {
    for c in 0..condition.width() {
        let mark = condition.mark(ConId(c as u16));
        write!(text, "{mark:?}")?;
    }
    text.push(' ')?;
    Ok(())
}

/// The terms with their numbers counted from 1.
pub(crate) fn shown(alloc: Global, terms: &[Term]) -> Result<String, Fail> {
    let mut text = String::new(alloc);
    for term in terms {
        match term {
            Term::Loser {
                input,
                winner,
                loser,
            } => {
                let i = input.0.saturating_add(1);
                let a = winner.0.saturating_add(1);
                let b = loser.0.saturating_add(1);
                write!(text, "{i}:{a}>{b} ")?;
            }
            Term::Given(k) => {
                let k = k.saturating_add(1);
                write!(text, "g{k} ")?;
            }
        }
    }
    Ok(text)
}
