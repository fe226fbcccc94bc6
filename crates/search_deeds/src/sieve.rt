//! Words of bits that sort out most certificates that do not refute a prefix.
//!
//! Each choice of a class for an input has one of 64 bits. A certificate that refutes a prefix asks for none but choices of the
//! prefix, so its bits are among those of the prefix; most of the others lack one, and are passed over by a look at one word
//! (the filter of Bloom, Space/Time Trade-offs in Hash Coding with Allowable Errors, 1970).

ghost use Rattle.std.specs.Prelude.{◌≡◌, ◌≢◌, ◌≤◌, ◌<◌, ◌+◌, ℕ, List, ◌∷◌, [], ◌++◌, bit_or, length, slice_index};
ghost use Rattle.refutation.specs.Prefixes.{class_numbers};
ghost use Rattle.refutation.specs.Terms.{term_of, terms_in};
ghost use Rattle.search_deeds.specs.Sieved.{asked_bit, choice_bit, HasBits, IsMarkOf};

use ot_base::{ClassId, InId};
use refutation::Term;

/// The bits of the choices of a prefix.
pub fn bits_of(prefix: &[ClassId]) -> u64
    ensures { HasBits (class_numbers prefix.now) result }
{
    let mut bits = 0;
    for (i, class) in prefix.iter().enumerate() {
        bits |= bit_of(i, *class);
    }
    bits
}

/// The bits of the choices that some terms ask for.
pub fn mark_of(terms: &[Term]) -> u64
    ensures { IsMarkOf (terms_in terms.now) result }
{
    let mut mark = 0;
    for term in terms {
        mark |= bit_asked(term);
    }
    mark
}

/// The bit of the choice that a term asks for, and none of a given pair.
fn bit_asked(term: &Term) -> u64
    ensures { result ≡ asked_bit (term_of term.now) }
{
    match *term {
        Term::Loser { input, winner, .. } => bit_of(input.0 as usize, winner),
        Term::Given(_) => 0,
    }
}

/// The bit of a class of an input. The bits of inputs that follow one another begin far apart, so that few classes share one.
fn bit_of(input: usize, class: ClassId) -> u64
    ensures { result ≡ choice_bit input class.0 }
{
    1 << ((input % 64 * 37 + class.0 as usize) % 64)
}
