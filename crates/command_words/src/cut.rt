//! The words of a command line, cut into positional words and options.

ghost use Rattle.std.specs.Prelude.{◌≡◌, ◌++◌, ◌+◌, ◌<◌, IfOk, OnOk, IfErr, Some, None, Err, map, length, string_bytes, option_map, option_to_list};
ghost use Rattle.command_words.specs.Words as words_of;
ghost use Rattle.command_words.specs.CommandLines as lines;

use crate::settings::WordsError;
use erc_vectors::{List, NoMemory};
use std::alloc::Global;

/// An option as it was given: its name without the dashes, and its value.
#[derive(Clone, Copy, Debug)]
pub(crate) struct GivenOption<'a> {
    pub(crate) name: &'a str,
    pub(crate) value: &'a str,
}

/// The positional words and the options, each in their order.
#[derive(Debug, Drop)]
pub(crate) struct CommandLine<'a> {
    pub(crate) words: List<&'a str>,
    pub(crate) options: List<GivenOption<'a>>,
}

/// What stands first in the words, and the words behind it.
#[derive(Clone, Copy, Debug)]
pub(crate) enum Head<'a> {
    /// A positional word.
    Word(&'a str, &'a [String]),
    /// An option with its value.
    Valued(GivenOption<'a>, &'a [String]),
    /// Positional words alone, and perhaps none.
    Words(&'a [String]),
    /// What gives no settings.
    Faulty,
}

impl<'a> CommandLine<'a> {
    /// Cuts the words, from left to right.
    pub(crate) fn cut(alloc: Global, words: &'a [String]) -> Result<CommandLine<'a>, WordsError>
        ensures cut { IfOk result (λ line. words_of.cut_of (map string_bytes words.now) ≡ Some (lines.shown line)) }
        ensures bad { result ≡ Err WordsError.Bad → words_of.cut_of (map string_bytes words.now) ≡ None }
    {
        let mut line = CommandLine {
            words: List::new(alloc),
            options: List::new(alloc),
        };
        let mut rest = words;
        loop {
            match head_of(rest) {
                Head::Word(word, behind) => {
                    line.words.push(word)?;
                    rest = behind;
                }
                Head::Valued(option, behind) => {
                    line.options.push(option)?;
                    rest = behind;
                }
                Head::Words(behind) => {
                    push_all(&mut line.words, behind)?;
                    return Ok(line);
                }
                Head::Faulty => return Err(WordsError::Bad),
            }
        }
    }
}

/// Puts the words behind those of a list.
fn push_all<'a>(list: &mut List<&'a str>, words: &'a [String]) -> Result<(), NoMemory>
    ensures { OnOk result (map (λ word. word.now) list.new ≡ map (λ word. word.now) list.old ++ map string_bytes words.now) }
{
    for word in words {
        list.push(word.as_str())?;
    }
    Ok(())
}

/// What stands first in the words. After `--` there are positional words alone.
fn head_of(words: &[String]) -> Head<'_>
    ensures begins { lines.BeginsWith (words_of.cut_of (map string_bytes words.now)) result }
    ensures shorter { lines.IsShorter (length words.now) result }
{
    let [word, behind @ ..] = words else {
        return Head::Words(words);
    };
    let word = word.as_str();
    if word == "--" {
        return Head::Words(behind);
    }
    match word.strip_prefix("--") {
        Some(text) => option_of(text, behind),
        None if is_dashed(word.as_bytes()) => Head::Faulty,
        None => Head::Word(word, behind),
    }
}

/// An option, from what follows its dashes: its value follows the first `=`, or is the next word, which does not begin with
/// a dash.
fn option_of<'a>(text: &'a str, behind: &'a [String]) -> Head<'a>
    ensures begins { lines.BeginsWith (lines.cut_at_option text.now (map string_bytes behind.now)) result }
    ensures shorter { lines.IsShorter (length behind.now + 1) result }
{
    if let Some((name, value)) = text.split_once('=') {
        return Head::Valued(GivenOption { name, value }, behind);
    }
    match behind {
        [value, behind @ ..] if !begins_with_dash(value.as_bytes()) => {
            let value = value.as_str();
            Head::Valued(GivenOption { name: text, value }, behind)
        }
        _ => Head::Faulty,
    }
}

/// Whether a word of more than one byte begins with a dash.
fn is_dashed(word: &[u8]) -> bool
    ensures { result ≡ words_of.is_dashed word.now }
{
    word.len() > 1 && begins_with_dash(word)
}

fn begins_with_dash(word: &[u8]) -> bool
    ensures { result ≡ words_of.begins_with_dash word.now }
{
    word.first() == Some(&b'-')
}

/// Whether each option has one of these names.
pub(crate) fn are_among(options: &[GivenOption], names: &[&str]) -> bool
    ensures { result ≡ words_of.are_among (map (λ name. name.now) names.now) (map lines.given options.now) }
{
    for option in options {
        if !is_among(option.name, names) {
            return false;
        }
    }
    true
}

fn is_among(name: &str, names: &[&str]) -> bool
    ensures { result ≡ words_of.is_among (map (λ known. known.now) names.now) name.now }
{
    for known in names {
        if name == *known {
            return true;
        }
    }
    false
}

/// The value that an option was given, if it was. Bad comes where it was given twice.
pub(crate) fn value_of<'a>(
    options: &[GivenOption<'a>],
    name: &str,
) -> Result<Option<&'a str>, WordsError>
    ensures value { IfOk result (λ value. words_of.values_of name.now (map lines.given options.now) ≡ option_to_list (option_map (λ text. text.now) value)) }
    ensures twice { IfErr result (λ error. (error ≡ WordsError.Bad) × (1 < length (words_of.values_of name.now (map lines.given options.now)))) }
{
    let mut found = None;
    for option in options {
        if option.name == name {
            if found.is_some() {
                return Err(WordsError::Bad);
            }
            found = Some(option.value);
        }
    }
    Ok(found)
}
