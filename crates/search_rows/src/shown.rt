//! Prefixes, terms and typologies as texts, with all numbers counted from 1.

use erc_vectors::ConId;
use refutation::{Contradiction, Prefix, Term, Typology};
use std::alloc::Global;
use std::test::Fail;

pub(crate) fn write_prefix(text: &mut String, prefix: &Prefix) -> Result<(), Fail> {
    for class in prefix.as_slice() {
        let number = class.0.saturating_add(1);
        write!(text, "{number} ")?;
    }
    Ok(())
}

pub(crate) fn write_terms(text: &mut String, contradiction: &Contradiction) -> Result<(), Fail> {
    for term in contradiction.terms.as_slice() {
        match term {
            Term::Loser {
                input,
                winner,
                loser,
            } => {
                let i = input.0.saturating_add(1);
                let a = winner.0.saturating_add(1);
                let b = loser.0.saturating_add(1);
                write!(text, "{i}:{a}>{b} ")?;
            }
            Term::Given(k) => {
                let k = k.saturating_add(1);
                write!(text, "g{k} ")?;
            }
        }
    }
    Ok(())
}

/// The languages beside their strata, the cuts beside the numbers of their certificates, and the certificates.
pub(crate) fn shown(alloc: Global, typology: &Typology) -> Result<String, Fail> {
    let mut text = String::new(alloc);
    for language in typology.languages.as_slice() {
        write_prefix(&mut text, &language.choice)?;
        for c in 0..language.strata.width() {
            let level = language.strata.level(ConId(c as u16));
            write!(text, "{level}")?;
        }
        text.push('\n')?;
    }
    for cut in typology.cuts.as_slice() {
        write_prefix(&mut text, &cut.prefix)?;
        let number = cut.certificate.saturating_add(1);
        writeln!(text, "#{number}")?;
    }
    for certificate in typology.certificates.as_slice() {
        write_terms(&mut text, certificate)?;
        text.push('\n')?;
    }
    Ok(text)
}
