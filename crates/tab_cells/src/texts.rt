//! The text of a cell.

ghost use Rattle.std.specs.Prelude.{◌≡◌, ◌<◌, ◌==◌, true, false, length, IsTrue, IfOk, OnErr, MatchOption};
ghost use Rattle.tab_cells.specs.Cells.{trimmed, trimmed_start, trimmed_end, is_quoted, inside, single_quotes, after_quote, has_pair, loses_quote, text_of};
ghost use Rattle.tab_cells.specs.CellText.{text_in, is_made};

use erc_vectors::{List, NoMemory};
use memchr::memmem;
use ot_base::Label;
use std::alloc::Global;

/// The text of a cell: a part of the cell, or, where a pair of quotes became one quote, a text of its own.
#[derive(Debug, Drop)]
pub enum CellText<'a> {
    Borrowed(&'a [u8]),
    Made(Label),
}

impl<'a> CellText<'a> {
    /// The bytes of the text, which need not be UTF-8.
    pub fn bytes(&self) -> &[u8]
        ensures { result.now ≡ text_in self.now }
    {
        match self {
            CellText::Borrowed(text) => text,
            CellText::Made(text) => text.bytes(),
        }
    }
}

/// The text of a cell: the spaces at both ends are cut off; where what is left begins and ends with a quote, both are
/// dropped, each pair of quotes inside becomes one quote, and the spaces at both ends are cut off again.
///
/// It takes memory only where a pair of quotes becomes one quote. `Made` comes exactly there.
#[tactic(auto, using(crate::proofs::TextOf::text_cases))]
pub fn unquote(alloc: Global, cell: &[u8]) -> Result<CellText<'_>, NoMemory>
    ensures text { IfOk result (λ text. text_in text ≡ text_of cell.now) }
    ensures made { IfOk result (λ text. is_made text ≡ loses_quote cell.now) }
    ensures no_memory { OnErr result (IsTrue (loses_quote cell.now)) }
{
    let text = trim(cell);
    let Some(quoted) = between_quotes(text) else {
        return Ok(CellText::Borrowed(text));
    };
    if !has_pair(quoted) {
        return Ok(CellText::Borrowed(trim(quoted)));
    }
    let singled = single_quotes(alloc, quoted)?;
    let made = Label::of(alloc, trim(singled.as_slice()))?;
    Ok(CellText::Made(made))
}

/// Whether the text of a cell is empty. It takes no memory.
#[tactic(auto, using(crate::proofs::TextOf::text_cases))]
pub fn is_empty_cell(cell: &[u8]) -> bool
    ensures { result ≡ (length (text_of cell.now) == 0) }
{
    let text = trim(cell);
    match between_quotes(text) {
        Some(quoted) => trim(quoted).is_empty(),
        None => text.is_empty(),
    }
}

fn trim(text: &[u8]) -> &[u8]
    ensures { result.now ≡ trimmed text.now }
{
    trim_end(trim_start(text))
}

fn trim_start(text: &[u8]) -> &[u8]
    ensures { result.now ≡ trimmed_start text.now }
{
    match text.iter().position(|c| *c != b' ') {
        Some(first) => &text[first..],
        None => &[],
    }
}

fn trim_end(text: &[u8]) -> &[u8]
    ensures { result.now ≡ trimmed_end text.now }
{
    match text.iter().rposition(|c| *c != b' ') {
        Some(last) => &text[..=last],
        None => &[],
    }
}

/// What stands between a quote at the start and another at the end.
fn between_quotes(text: &[u8]) -> Option<&[u8]>
    ensures { MatchOption result (is_quoted text.now ≡ false) (λ quoted. (is_quoted text.now ≡ true) × (quoted.now ≡ inside text.now)) }
{
    match text {
        [b'"', quoted @ .., b'"'] => Some(quoted),
        _ => None,
    }
}

/// Whether two quotes stand side by side.
fn has_pair(text: &[u8]) -> bool
    ensures { result ≡ has_pair text.now }
{
    memmem::find(text, b"\"\"").is_some()
}

/// The text with each pair of quotes, from left to right, as one quote.
#[tactic(auto, using(crate::proofs::PairedQuotes::single_quotes_step))]
fn single_quotes(alloc: Global, text: &[u8]) -> Result<List<u8>, NoMemory>
    ensures { IfOk result (λ singled. singled ≡ single_quotes text.now) }
{
    let mut singled = List::new(alloc);
    let mut rest = text;
    while let Some(first) = rest.first() {
        singled.push(*first)?;
        rest = after_quote(rest);
    }
    Ok(singled)
}

/// What stands after the first byte, or after the pair of quotes with which the text begins.
fn after_quote(text: &[u8]) -> &[u8]
    requires { 0 < length text.now }
    ensures { result.now ≡ after_quote text.now }
{
    text.strip_prefix(b"\"\"").unwrap_or(&text[1..])
}
