//! A text as its pieces between the places of a byte.

ghost use Rattle.std.specs.Prelude.{◌≡◌, ◌∷◌, option_map};
ghost use Rattle.report_reader.specs.Fields.{pieces, pieces_left, words, fields, two};

use std::marker::Model;

/// The pieces that are left of a text.
#[derive(Debug, Drop)]
pub(crate) struct Pieces<'a> {
    separator: u8,
    rest: Option<&'a [u8]>,
}

impl<'a> Model for Pieces<'a> {
    ghost use Rattle.std.specs.Prelude.{List, ℕ};
    ghost use Rattle.report_reader.specs.Fields.{pieces_left};

    ghost Value = { List (List ℕ) };

    ghost view = { λ pieces. pieces_left pieces.separator pieces.rest };
}

impl<'a> Pieces<'a> {
    /// The pieces of a text between its spaces. An empty text has one empty piece.
    pub(crate) fn words(text: &'a [u8]) -> Pieces<'a>
        ensures { result ≡ words text.now }
    {
        Pieces {
            separator: b' ',
            rest: Some(text),
        }
    }

    /// The pieces of a text between its tabs.
    pub(crate) fn fields(text: &'a [u8]) -> Pieces<'a>
        ensures { result ≡ fields text.now }
    {
        Pieces {
            separator: b'\t',
            rest: Some(text),
        }
    }
}

impl<'a> Iterator for Pieces<'a> {
    ghost use Rattle.std.specs.Iterator.{YieldsFirstRef, item_count};

    type Item = &'a [u8];

    ghost next_gives = { YieldsFirstRef (λ pieces. pieces) };

    ghost remaining = { item_count (λ pieces. pieces) };

    fn next(&mut self) -> Option<&'a [u8]> {
        let (piece, rest) = cut(self.rest?, self.separator);
        self.rest = rest;
        Some(piece)
    }
}

/// What stands before the first place of a byte, and what stands after it if there is one.
pub(crate) fn cut(text: &[u8], separator: u8) -> (&[u8], Option<&[u8]>)
    ensures { pieces separator text.now ≡ result.0.now ∷ pieces_left separator result.1 }
{
    match text.iter().position(|b| *b == separator) {
        Some(at) => (&text[..at], Some(&text[at + 1..])),
        None => (text, None),
    }
}

/// The two pieces of a text. None where there is another number of them.
pub(crate) fn two(text: &[u8], separator: u8) -> Option<(&[u8], &[u8])>
    ensures { option_map (λ parts. (parts.0.now, parts.1.now)) result ≡ two (pieces separator text.now) }
{
    let (first, rest) = cut(text, separator);
    let (second, rest) = cut(rest?, separator);
    if rest.is_some() {
        return None;
    }
    Some((first, second))
}
