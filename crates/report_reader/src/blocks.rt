//! The blocks of a typology's report, each from its first line on. What they give stands beside the bytes behind them.

ghost use Rattle.std.specs.Prelude.{◌≡◌, ◌≤◌, ◌+◌, IfOk, IfSome, codes, length, option_map};
ghost use Rattle.erc_vectors.specs.declared.condition.TheConstants.{LIMIT};
ghost use Rattle.ot_base.specs.declared.limits.TheConstants.{INPUT_LIMIT, CANDIDATE_LIMIT, GIVEN_LIMIT};
ghost use Rattle.refutation.specs.Terms.{terms_in};
ghost use Rattle.refutation.specs.Typologies as typologies;
ghost use Rattle.refutation.specs.Typologies.{found_of};
ghost use Rattle.report_reader.specs.Shapes as shape;
ghost use Rattle.report_reader.specs.Grammar as grammar;
ghost use Rattle.report_reader.specs.Grammar.{Gives, line_at, test_at, tests_at, each_at};

use crate::lines::{
    Head, certificate_line, count_line, cut_line, few_line, input_line, is_class, is_constraint,
    is_end, is_given, is_title, language_line, some_line,
};
use crate::misread::Misread;
use erc_vectors::{LIMIT, List};
use ot_base::{CANDIDATE_LIMIT, ClassId, GIVEN_LIMIT, INPUT_LIMIT};
use refutation::{Contradiction, Cut, Language, Term};
use std::alloc::Global;

/// The first line, and the bytes behind the LF that ends it.
pub(crate) fn first_line(bytes: &[u8]) -> Option<(&[u8], &[u8])>
    ensures { option_map (λ parts. (parts.0.now, parts.1.now)) result ≡ grammar.first_line bytes.now }
{
    match bytes.iter().position(|b| *b == b'\n') {
        Some(at) => Some((&bytes[..at], &bytes[at + 1..])),
        None => None,
    }
}

/// The number of lines, with that of the bytes behind the last LF.
pub(crate) fn line_count(bytes: &[u8]) -> usize
    ensures count { result ≡ grammar.line_count bytes.now }
    ensures small { result ≤ length bytes.now + 1 }
{
    let mut count = 1;
    for b in bytes {
        if *b == b'\n' {
            count += 1;
        }
    }
    count
}

/// What is said of bytes whose first line does not fit.
fn misfit(bytes: &[u8]) -> Misread
    ensures { result ≡ Misread.Left (grammar.line_count bytes.now) }
{
    Misread::Left(line_count(bytes))
}

/// The bytes behind the title.
fn title_at(bytes: &[u8]) -> Result<&[u8], Misread>
    ensures { Gives (λ rest. (tt, rest.now)) result (test_at shape.is_title bytes.now) }
{
    let Some((line, rest)) = first_line(bytes) else {
        return Err(misfit(bytes));
    };
    if !is_title(line) {
        return Err(misfit(bytes));
    }
    Ok(rest)
}

/// The bytes behind the last line.
pub(crate) fn end_at(bytes: &[u8]) -> Result<&[u8], Misread>
    ensures { Gives (λ rest. (tt, rest.now)) result (test_at shape.is_end bytes.now) }
{
    let Some((line, rest)) = first_line(bytes) else {
        return Err(misfit(bytes));
    };
    if !is_end(line) {
        return Err(misfit(bytes));
    }
    Ok(rest)
}

/// The number behind this word in the first line.
fn count_at<'a>(word: &[u8], bytes: &'a [u8]) -> Result<(usize, &'a [u8]), Misread>
    ensures { Gives (λ x. (x.0, x.1.now)) result (line_at (shape.count_line word.now) bytes.now) }
{
    let Some((line, rest)) = first_line(bytes) else {
        return Err(misfit(bytes));
    };
    let Some(count) = count_line(word, line) else {
        return Err(misfit(bytes));
    };
    Ok((count, rest))
}

/// The number behind this word in the first line, from 1 to the limit.
fn some_at<'a>(word: &[u8], limit: usize, bytes: &'a [u8]) -> Result<(usize, &'a [u8]), Misread>
    ensures value { Gives (λ x. (x.0, x.1.now)) result (line_at (shape.some_line word.now limit) bytes.now) }
    ensures small { IfOk result (λ x. x.0 ≤ limit) }
{
    let Some((line, rest)) = first_line(bytes) else {
        return Err(misfit(bytes));
    };
    let Some(count) = some_line(word, limit, line) else {
        return Err(misfit(bytes));
    };
    Ok((count, rest))
}

fn constraint_at(k: usize, bytes: &[u8]) -> Result<&[u8], Misread>
    ensures { Gives (λ rest. (tt, rest.now)) result (test_at (shape.is_constraint k) bytes.now) }
{
    let Some((line, rest)) = first_line(bytes) else {
        return Err(misfit(bytes));
    };
    if !is_constraint(k, line) {
        return Err(misfit(bytes));
    }
    Ok(rest)
}

/// The bytes behind the lines of so many constraints.
fn constraints_at(count: usize, bytes: &[u8]) -> Result<&[u8], Misread>
    requires { count ≤ LIMIT }
    ensures { Gives (λ rest. (tt, rest.now)) result (tests_at shape.is_constraint 1 count bytes.now) }
{
    let mut rest = bytes;
    for k in 0..count {
        rest = constraint_at(k + 1, rest)?;
    }
    Ok(rest)
}

fn class_at(n: usize, i: usize, a: usize, bytes: &[u8]) -> Result<&[u8], Misread>
    ensures { Gives (λ rest. (tt, rest.now)) result (test_at (shape.is_class n i a) bytes.now) }
{
    let Some((line, rest)) = first_line(bytes) else {
        return Err(misfit(bytes));
    };
    if !is_class(n, i, a, line) {
        return Err(misfit(bytes));
    }
    Ok(rest)
}

/// The bytes behind the lines of so many classes of input i.
fn classes_at(n: usize, i: usize, count: usize, bytes: &[u8]) -> Result<&[u8], Misread>
    requires { count ≤ CANDIDATE_LIMIT }
    ensures { Gives (λ rest. (tt, rest.now)) result (tests_at (shape.is_class n i) 1 count bytes.now) }
{
    let mut rest = bytes;
    for a in 0..count {
        rest = class_at(n, i, a + 1, rest)?;
    }
    Ok(rest)
}

fn input_line_at(i: usize, bytes: &[u8]) -> Result<(usize, &[u8]), Misread>
    ensures value { Gives (λ x. (x.0, x.1.now)) result (line_at (shape.input_line i) bytes.now) }
    ensures small { IfOk result (λ x. x.0 ≤ CANDIDATE_LIMIT) }
{
    let Some((line, rest)) = first_line(bytes) else {
        return Err(misfit(bytes));
    };
    let Some(count) = input_line(i, line) else {
        return Err(misfit(bytes));
    };
    Ok((count, rest))
}

/// The number of classes of input i.
#[tactic(auto, unfolding(crate::specs::Grammar::input_at))]
fn input_at(n: usize, i: usize, bytes: &[u8]) -> Result<(u16, &[u8]), Misread>
    ensures { Gives (λ x. (x.0, x.1.now)) result (grammar.input_at n i bytes.now) }
{
    let (count, rest) = input_line_at(i, bytes)?;
    let rest = classes_at(n, i, count, rest)?;
    Ok((count as u16, rest))
}

/// The numbers of classes of so many inputs.
fn inputs_at(
    alloc: Global,
    n: usize,
    count: usize,
    bytes: &[u8],
) -> Result<(List<u16>, &[u8]), Misread>
    requires { count ≤ INPUT_LIMIT }
    ensures { Gives (λ x. (x.0, x.1.now)) result (each_at (grammar.input_at n) 1 count bytes.now) }
{
    let mut counts = List::new(alloc);
    let mut rest = bytes;
    for k in 0..count {
        let (classes, after) = input_at(n, k + 1, rest)?;
        counts.push(classes)?;
        rest = after;
    }
    Ok((counts, rest))
}

fn given_at(n: usize, k: usize, bytes: &[u8]) -> Result<&[u8], Misread>
    ensures { Gives (λ rest. (tt, rest.now)) result (test_at (shape.is_given n k) bytes.now) }
{
    let Some((line, rest)) = first_line(bytes) else {
        return Err(misfit(bytes));
    };
    if !is_given(n, k, line) {
        return Err(misfit(bytes));
    }
    Ok(rest)
}

/// The bytes behind the lines of so many given pairs.
fn pairs_at(n: usize, count: usize, bytes: &[u8]) -> Result<&[u8], Misread>
    requires { count ≤ GIVEN_LIMIT }
    ensures { Gives (λ rest. (tt, rest.now)) result (tests_at (shape.is_given n) 1 count bytes.now) }
{
    let mut rest = bytes;
    for k in 0..count {
        rest = given_at(n, k + 1, rest)?;
    }
    Ok(rest)
}

/// The number of given pairs, where the first line has it, and the bytes behind that line.
fn pair_count_at(bytes: &[u8]) -> Option<(usize, &[u8])>
    ensures value { option_map (λ x. (x.0, x.1.now)) result ≡ grammar.valued (shape.few_line (codes "givens") GIVEN_LIMIT) (grammar.first_line bytes.now) }
    ensures small { IfSome result (λ x. x.0 ≤ GIVEN_LIMIT) }
{
    let (line, rest) = first_line(bytes)?;
    let count = few_line(b"givens", GIVEN_LIMIT, line)?;
    Some((count, rest))
}

/// The number of given pairs, of which there are none where the first line is another one than that of their number.
#[tactic(auto, unfolding(crate::specs::Grammar::givens_at))]
fn givens_at(n: usize, bytes: &[u8]) -> Result<(usize, &[u8]), Misread>
    ensures { Gives (λ x. (x.0, x.1.now)) result (grammar.givens_at n bytes.now) }
{
    let Some((count, rest)) = pair_count_at(bytes) else {
        return Ok((0, bytes));
    };
    let rest = pairs_at(n, count, rest)?;
    Ok((count, rest))
}

/// What the title, the constraints, the inputs and the given pairs call for.
#[tactic(auto, unfolding(crate::specs::Grammar::head_at))]
pub(crate) fn head_at(alloc: Global, bytes: &[u8]) -> Result<(Head, &[u8]), Misread>
    ensures value { Gives (λ x. (((x.0.constraints, x.0.counts), x.0.pairs), x.1.now)) result (grammar.head_at bytes.now) }
    ensures small { IfOk result (λ x. x.0.constraints ≤ LIMIT) }
{
    let rest = title_at(bytes)?;
    let (constraints, rest) = some_at(b"constraints", LIMIT, rest)?;
    let rest = constraints_at(constraints, rest)?;
    let (inputs, rest) = some_at(b"inputs", INPUT_LIMIT, rest)?;
    let (counts, rest) = inputs_at(alloc, constraints, inputs, rest)?;
    let (pairs, rest) = givens_at(constraints, rest)?;
    Ok((
        Head {
            constraints,
            counts,
            pairs,
        },
        rest,
    ))
}

fn language_at<'a>(
    alloc: Global,
    head: &Head,
    k: usize,
    bytes: &'a [u8],
    buffer: &mut Vec<ClassId>,
) -> Result<(Language, &'a [u8]), Misread>
    requires { head.now.constraints ≤ LIMIT }
    ensures { Gives (λ x. ((x.0.choice, x.0.strata), x.1.now)) result
        (line_at (shape.language_line head.now.constraints head.now.counts k) bytes.now) }
{
    let Some((line, rest)) = first_line(bytes) else {
        return Err(misfit(bytes));
    };
    let Some(language) = language_line(alloc, head, k, line, buffer)? else {
        return Err(misfit(bytes));
    };
    Ok((language, rest))
}

/// So many languages.
fn languages_of<'a>(
    alloc: Global,
    head: &Head,
    count: usize,
    bytes: &'a [u8],
) -> Result<(List<Language>, &'a [u8]), Misread>
    requires { head.now.constraints ≤ LIMIT }
    ensures { Gives (λ x. (found_of x.0, x.1.now)) result
        (each_at (λ k. line_at (shape.language_line head.now.constraints head.now.counts k)) 1 count bytes.now) }
{
    let mut languages = List::new(alloc);
    let mut buffer = Vec::new(alloc);
    let mut rest = bytes;
    for k in 0..count {
        let (language, after) = language_at(alloc, head, k + 1, rest, &mut buffer)?;
        languages.push(language)?;
        rest = after;
    }
    Ok((languages, rest))
}

/// The languages, behind their number.
#[tactic(auto, unfolding(crate::specs::Grammar::languages_at))]
pub(crate) fn languages_at<'a>(
    alloc: Global,
    head: &Head,
    bytes: &'a [u8],
) -> Result<(List<Language>, &'a [u8]), Misread>
    requires { head.now.constraints ≤ LIMIT }
    ensures { Gives (λ x. (found_of x.0, x.1.now)) result (grammar.languages_at head.now.constraints head.now.counts bytes.now) }
{
    let (count, rest) = count_at(b"languages", bytes)?;
    languages_of(alloc, head, count, rest)
}

fn certificate_at<'a>(
    alloc: Global,
    head: &Head,
    k: usize,
    bytes: &'a [u8],
    buffer: &mut Vec<Term>,
) -> Result<(Contradiction, &'a [u8]), Misread>
    ensures { Gives (λ x. (terms_in x.0.terms, x.1.now)) result
        (line_at (shape.certificate_line head.now.constraints head.now.counts head.now.pairs k) bytes.now) }
{
    let Some((line, rest)) = first_line(bytes) else {
        return Err(misfit(bytes));
    };
    let Some(certificate) = certificate_line(alloc, head, k, line, buffer)? else {
        return Err(misfit(bytes));
    };
    Ok((certificate, rest))
}

/// So many certificates.
fn certificates_of<'a>(
    alloc: Global,
    head: &Head,
    count: usize,
    bytes: &'a [u8],
) -> Result<(List<Contradiction>, &'a [u8]), Misread>
    ensures { Gives (λ x. (typologies.certificates_of x.0, x.1.now)) result
        (each_at (λ k. line_at (shape.certificate_line head.now.constraints head.now.counts head.now.pairs k)) 1 count bytes.now) }
{
    let mut certificates = List::new(alloc);
    let mut buffer = Vec::new(alloc);
    let mut rest = bytes;
    for k in 0..count {
        let (certificate, after) = certificate_at(alloc, head, k + 1, rest, &mut buffer)?;
        certificates.push(certificate)?;
        rest = after;
    }
    Ok((certificates, rest))
}

/// The certificates, behind their number.
#[tactic(auto, unfolding(crate::specs::Grammar::certificates_at))]
pub(crate) fn certificates_at<'a>(
    alloc: Global,
    head: &Head,
    bytes: &'a [u8],
) -> Result<(List<Contradiction>, &'a [u8]), Misread>
    ensures { Gives (λ x. (typologies.certificates_of x.0, x.1.now)) result (grammar.certificates_at head.now.constraints head.now.counts head.now.pairs bytes.now) }
{
    let (count, rest) = count_at(b"certificates", bytes)?;
    certificates_of(alloc, head, count, rest)
}

fn cut_at<'a>(
    alloc: Global,
    head: &Head,
    certificates: usize,
    k: usize,
    bytes: &'a [u8],
    buffer: &mut Vec<ClassId>,
) -> Result<(Cut, &'a [u8]), Misread>
    ensures { Gives (λ x. ((x.0.prefix, x.0.certificate), x.1.now)) result
        (line_at (shape.cut_line head.now.counts certificates k) bytes.now) }
{
    let Some((line, rest)) = first_line(bytes) else {
        return Err(misfit(bytes));
    };
    let Some(cut) = cut_line(alloc, head, certificates, k, line, buffer)? else {
        return Err(misfit(bytes));
    };
    Ok((cut, rest))
}

/// So many cuts.
fn cuts_of<'a>(
    alloc: Global,
    head: &Head,
    certificates: usize,
    count: usize,
    bytes: &'a [u8],
) -> Result<(List<Cut>, &'a [u8]), Misread>
    ensures { Gives (λ x. (typologies.cuts_of x.0, x.1.now)) result
        (each_at (λ k. line_at (shape.cut_line head.now.counts certificates k)) 1 count bytes.now) }
{
    let mut cuts = List::new(alloc);
    let mut buffer = Vec::new(alloc);
    let mut rest = bytes;
    for k in 0..count {
        let (cut, after) = cut_at(alloc, head, certificates, k + 1, rest, &mut buffer)?;
        cuts.push(cut)?;
        rest = after;
    }
    Ok((cuts, rest))
}

/// The cuts, behind their number, each of which names one of so many certificates.
#[tactic(auto, unfolding(crate::specs::Grammar::cuts_at))]
pub(crate) fn cuts_at<'a>(
    alloc: Global,
    head: &Head,
    certificates: usize,
    bytes: &'a [u8],
) -> Result<(List<Cut>, &'a [u8]), Misread>
    ensures { Gives (λ x. (typologies.cuts_of x.0, x.1.now)) result (grammar.cuts_at head.now.counts certificates bytes.now) }
{
    let (count, rest) = count_at(b"cuts", bytes)?;
    cuts_of(alloc, head, certificates, count, rest)
}
