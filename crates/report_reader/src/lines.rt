//! The lines of a typology's report.

ghost use Rattle.std.specs.Prelude.{◌≡◌, ◌≤◌, length, codes, IfOk, IfSome, option_map};
ghost use Rattle.erc_vectors.specs.declared.condition.TheConstants.{LIMIT};
ghost use Rattle.ot_base.specs.declared.limits.TheConstants.{CANDIDATE_LIMIT};
ghost use Rattle.std.specs.List.{list_all};
ghost use Rattle.refutation.specs.Terms.{terms_in};
ghost use Rattle.report_reader.specs.Fields.{fields, is_text};
ghost use Rattle.report_reader.specs.Shapes as shape;

use crate::fields::{
    are_marks, hierarchy, is_number, is_text, number, place, read_prefix, read_terms, spells,
};
use crate::pieces::{Pieces, cut, two};
use erc_vectors::{LIMIT, List, NoMemory, Strata};
use ot_base::{CANDIDATE_LIMIT, ClassId};
use refutation::{Contradiction, Cut, Language, Prefix, Term};
use std::alloc::Global;

/// What the lines before call for in those of languages, certificates and cuts: the number of constraints, the number of classes of
/// each input, and the number of given pairs.
#[derive(Debug, Drop)]
pub(crate) struct Head {
    pub(crate) constraints: usize,
    pub(crate) counts: List<u16>,
    pub(crate) pairs: usize,
}

/// The four fields of a line.
#[derive(Clone, Copy, Debug)]
struct Parts<'a> {
    word: &'a [u8],
    number: &'a [u8],
    first: &'a [u8],
    second: &'a [u8],
}

/// The four fields of a line. None where it has another number of them.
fn parts_of(line: &[u8]) -> Option<Parts<'_>>
    ensures { option_map (λ parts. record { word = parts.word.now; number = parts.number.now; first = parts.first.now; second = parts.second.now }) result
        ≡ shape.parts_of (fields line.now) }
{
    let (word, rest) = cut(line, b'\t');
    let (number, rest) = cut(rest?, b'\t');
    let (first, rest) = cut(rest?, b'\t');
    let (second, rest) = cut(rest?, b'\t');
    if rest.is_some() {
        return None;
    }
    Some(Parts {
        word,
        number,
        first,
        second,
    })
}

/// The two fields behind a word and a number, where a line has these and no others.
fn numbered<'a>(word: &[u8], k: usize, line: &'a [u8]) -> Option<(&'a [u8], &'a [u8])>
    ensures { option_map (λ parts. (parts.0.now, parts.1.now)) result ≡ shape.numbered word.now k line.now }
{
    let parts = parts_of(line)?;
    if parts.word == word && spells(parts.number, k) {
        Some((parts.first, parts.second))
    } else {
        None
    }
}

/// Whether a line is the title.
pub(crate) fn is_title(line: &[u8]) -> bool
    ensures { result ≡ shape.is_title line.now }
{
    line == b"otsoft report 1\ttypology".as_slice()
}

/// The number behind this word.
pub(crate) fn count_line(word: &[u8], line: &[u8]) -> Option<usize>
    ensures { result ≡ shape.count_line word.now line.now }
{
    let (first, second) = two(line, b'\t')?;
    if first == word {
        Some(number(second)? as usize)
    } else {
        None
    }
}

/// The number behind this word, where it is from 1 to the limit.
pub(crate) fn some_line(word: &[u8], limit: usize, line: &[u8]) -> Option<usize>
    ensures value { result ≡ shape.some_line word.now limit line.now }
    ensures small { IfSome result (λ count. count ≤ limit) }
{
    let count = count_line(word, line)?;
    if 1 <= count && count <= limit {
        Some(count)
    } else {
        None
    }
}

/// The number behind this word, where it is at most the limit.
pub(crate) fn few_line(word: &[u8], limit: usize, line: &[u8]) -> Option<usize>
    ensures value { result ≡ shape.few_line word.now limit line.now }
    ensures small { IfSome result (λ count. count ≤ limit) }
{
    let count = count_line(word, line)?;
    if count <= limit { Some(count) } else { None }
}

/// Whether a line is that of constraint k.
pub(crate) fn is_constraint(k: usize, line: &[u8]) -> bool
    ensures { result ≡ shape.is_constraint k line.now }
{
    match numbered(b"constraint", k, line) {
        Some((abbreviation, name)) => is_text(abbreviation) && is_text(name),
        None => false,
    }
}

/// Whether a line is that of given pair k, in a report of n constraints.
pub(crate) fn is_given(n: usize, k: usize, line: &[u8]) -> bool
    ensures { result ≡ shape.is_given n k line.now }
{
    match numbered(b"given", k, line) {
        Some((above, below)) => are_two(n, above, below),
        None => false,
    }
}

/// Whether the fields name two different ones of n constraints.
fn are_two(n: usize, above: &[u8], below: &[u8]) -> bool
    ensures { result ≡ shape.are_two n above.now below.now }
{
    let Some(c) = place(n, above) else {
        return false;
    };
    let Some(d) = place(n, below) else {
        return false;
    };
    c != d
}

/// The number of classes of input i, where this is its line.
pub(crate) fn input_line(i: usize, line: &[u8]) -> Option<usize>
    ensures value { result ≡ shape.input_line i line.now }
    ensures small { IfSome result (λ count. count ≤ CANDIDATE_LIMIT) }
{
    let (text, count) = numbered(b"input", i, line)?;
    let count = number(count)? as usize;
    if is_text(text) && 1 <= count && count <= CANDIDATE_LIMIT {
        Some(count)
    } else {
        None
    }
}

/// Whether a line is that of class a of input i, in a report of n constraints.
pub(crate) fn is_class(n: usize, i: usize, a: usize, line: &[u8]) -> bool
    ensures { result ≡ shape.is_class n i a line.now }
{
    let (word, rest) = cut(line, b'\t');
    let Some(rest) = rest else {
        return false;
    };
    let (name, rest) = cut(rest, b'\t');
    let Some(rest) = rest else {
        return false;
    };
    let (profile, rest) = cut(rest, b'\t');
    let Some(members) = rest else {
        return false;
    };
    is_named_class(i, a, word, name) && has_members(n, profile, members)
}

/// Whether these are the word and the name of class a of input i.
fn is_named_class(i: usize, a: usize, word: &[u8], name: &[u8]) -> bool
    ensures { result ≡ shape.is_named_class i a word.now name.now }
{
    word == b"class".as_slice() && is_class_name(i, a, name)
}

/// Whether these are a profile and the texts of members.
fn has_members(n: usize, profile: &[u8], members: &[u8]) -> bool
    ensures { result ≡ shape.has_members n profile.now (fields members.now) }
{
    is_profile(n, profile) && are_members(members)
}

/// Whether the fields are texts, of which there is at least one.
fn are_members(line: &[u8]) -> bool
    ensures { result ≡ shape.are_members (fields line.now) }
{
    are_texts(line)
}

/// Whether the fields are texts.
fn are_texts(line: &[u8]) -> bool
    ensures { result ≡ list_all is_text (fields line.now) }
{
    for field in Pieces::fields(line) {
        if !is_text(field) {
            return false;
        }
    }
    true
}

/// Whether a field has these two numbers, with a point between them.
fn is_class_name(i: usize, a: usize, field: &[u8]) -> bool
    ensures { result ≡ shape.is_class_name i a field.now }
{
    match two(field, b'.') {
        Some((input, class)) => spells(input, i) && spells(class, a),
        None => false,
    }
}

/// Whether a field has n numbers.
fn is_profile(n: usize, field: &[u8]) -> bool
    ensures { result ≡ shape.is_profile n field.now }
{
    let mut left = n;
    for word in Pieces::words(field) {
        if left == 0 || !is_number(word) {
            return false;
        }
        left -= 1;
    }
    left == 0
}

/// Language k, where this is its line. The buffer may hold anything.
pub(crate) fn language_line(
    alloc: Global,
    head: &Head,
    k: usize,
    line: &[u8],
    buffer: &mut Vec<ClassId>,
) -> Result<Option<Language>, NoMemory>
    requires { head.now.constraints ≤ LIMIT }
    ensures { IfOk result (λ language. option_map (λ language. (language.choice, language.strata)) language
        ≡ shape.language_line head.now.constraints head.now.counts k line.now) }
{
    let Some((prefix, strata)) = numbered(b"language", k, line) else {
        return Ok(None);
    };
    if !read_prefix(head.counts.as_slice(), prefix, buffer)? || buffer.len() != head.counts.len() {
        return Ok(None);
    }
    let Some(strata) = hierarchy(head.constraints, strata) else {
        return Ok(None);
    };
    let choice = Prefix::of(alloc, buffer.as_slice())?;
    Ok(Some(Language { choice, strata }))
}

/// Certificate k, where this is its line. The buffer may hold anything.
pub(crate) fn certificate_line(
    alloc: Global,
    head: &Head,
    k: usize,
    line: &[u8],
    buffer: &mut Vec<Term>,
) -> Result<Option<Contradiction>, NoMemory>
    ensures { IfOk result (λ certificate. option_map (λ certificate. terms_in certificate.terms) certificate
        ≡ shape.certificate_line head.now.constraints head.now.counts head.now.pairs k line.now) }
{
    let Some((marks, terms)) = numbered(b"certificate", k, line) else {
        return Ok(None);
    };
    if !are_marks(head.constraints, marks)
        || !read_terms(head.counts.as_slice(), head.pairs, terms, buffer)?
    {
        return Ok(None);
    }
    let terms = List::of(alloc, buffer.as_slice())?;
    Ok(Some(Contradiction { terms }))
}

/// Cut k, where this is its line, in a report with so many certificates. The buffer may hold anything.
pub(crate) fn cut_line(
    alloc: Global,
    head: &Head,
    certificates: usize,
    k: usize,
    line: &[u8],
    buffer: &mut Vec<ClassId>,
) -> Result<Option<Cut>, NoMemory>
    ensures { IfOk result (λ cut. option_map (λ cut. (cut.prefix, cut.certificate)) cut
        ≡ shape.cut_line head.now.counts certificates k line.now) }
{
    let Some((prefix, certificate)) = numbered(b"cut", k, line) else {
        return Ok(None);
    };
    if !read_prefix(head.counts.as_slice(), prefix, buffer)? {
        return Ok(None);
    }
    let Some(certificate) = place(certificates, certificate) else {
        return Ok(None);
    };
    let prefix = Prefix::of(alloc, buffer.as_slice())?;
    Ok(Some(Cut {
        prefix,
        certificate,
    }))
}

/// Whether a line is the last.
pub(crate) fn is_end(line: &[u8]) -> bool
    ensures { result ≡ shape.is_end line.now }
{
    line == b"end".as_slice()
}
