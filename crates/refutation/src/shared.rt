//! Which types may go to another thread: each call below is refused if its type may not.

use crate::{Contradiction, Cut, Implication, Language, Prefix, Term, Typology};

fn goes<T: Send>(_value: &T) {}

fn is_shared<T: Sync>(_value: &T) {}

/// A term and a contradiction may go to another thread, and threads may share them.
pub fn contradictions_go(term: &Term, contradiction: &Contradiction) {
    goes(term);
    goes(contradiction);
    is_shared(term);
    is_shared(contradiction);
}

/// An implication may go to another thread, and threads may share it.
pub fn implications_go(implication: &Implication) {
    goes(implication);
    is_shared(implication);
}

/// A prefix, a language, a cut and a typology may go to another thread, and threads may share them.
pub fn typologies_go(prefix: &Prefix, language: &Language, cut: &Cut, typology: &Typology) {
    goes(prefix);
    goes(language);
    goes(cut);
    goes(typology);
    is_shared(prefix);
    is_shared(language);
    is_shared(cut);
    is_shared(typology);
}
