//! The words after the program's name, as settings.

ghost use Rattle.std.specs.Prelude.{◌≡◌, ◌≢◌, ◌∷◌, [], ◌≤◌, IfOk, IfErr, IfSome, MatchOption, Some, None, Err, map, length, string_bytes};
ghost use Rattle.command_words.specs.Words as words_of;
ghost use Rattle.command_words.specs.CommandLines as lines;

use crate::constraint_list::constraints_of;
use crate::cut::{CommandLine, GivenOption, are_among, value_of};
use crate::numbers::number_of;
use crate::settings::{FileName, Settings, WordsError};
use erc_vectors::{ConId, List};
use std::alloc::Global;

/// The settings that the words after the program's name give: a command, the word that it takes, and its options, in any order.
///
/// A word that begins with two dashes is an option. Its value follows an equals sign, or is the next word, which must not begin
/// with a dash. The first word `--` makes all later words positional. `demo` takes a number from 0 to 2^64 - 1, and each other
/// command a file. `typology`, `torder` and `demo` take the options `--workers` (1 to 64, or else 1) and `--store` (0 to 4,096, or
/// else 1,024), `typology` takes `--schedule` (0 to 2^64 - 1), and `rank` takes `--faith`, a list of constraints: numbers from 1 to
/// 128, each of 1 to 3 digits, with one comma between two. All but `demo` take `--given`, a file of given pairs.
///
/// Bad comes where there is another number of positional words, an unknown command, an option that the command does not take
/// or that is given twice, a value that is missing, is no such list, is an empty name of a file, or is not 1 to 20 digits in the
/// range, and where a word before that `--` begins with one dash and is longer than it.
#[tactic(auto, using(crate::proofs::Commands::no_command), unfolding(crate::specs::Words::settings_of))]
pub fn settings_of(alloc: Global, words: &[String]) -> Result<Settings, WordsError>
    ensures given { IfOk result (λ settings. words_of.settings_of (map string_bytes words.now) ≡ Some settings) }
    ensures bad { result ≡ Err WordsError.Bad → words_of.settings_of (map string_bytes words.now) ≡ None }
    ensures within { IfOk result (λ settings. words_of.IsWithinLimits settings) }
{
    let line = CommandLine::cut(alloc, words)?;
    let Some((command, word)) = pair(line.words.as_slice()) else {
        return Err(WordsError::Bad);
    };
    command_of(alloc, command, word, line.options.as_slice())
}

/// The two words. None where there is another number of them.
fn pair<'a>(words: &[&'a str]) -> Option<(&'a str, &'a str)>
    ensures { MatchOption result (length words.now ≢ 2) (λ both. map (λ word. word.now) words.now ≡ both.0.now ∷ both.1.now ∷ []) }
{
    match words {
        [command, word] => Some((command, word)),
        _ => None,
    }
}

/// The settings of a command with its word and options.
fn command_of(
    alloc: Global,
    command: &str,
    word: &str,
    options: &[GivenOption],
) -> Result<Settings, WordsError>
    ensures given { IfOk result (λ settings. words_of.command_of command.now word.now (map lines.given options.now) ≡ Some settings) }
    ensures bad { result ≡ Err WordsError.Bad → words_of.command_of command.now word.now (map lines.given options.now) ≡ None }
    ensures within { IfOk result (λ settings. words_of.IsWithinLimits settings) }
{
    match command {
        "typology" => typology_of(alloc, word, options),
        "torder" => torder_of(alloc, word, options),
        "rank" => rank_of(alloc, word, options),
        "bases" => bases_of(alloc, word, options),
        "hasse" => hasse_of(alloc, word, options),
        "demo" => demo_of(word, options),
        _ => Err(WordsError::Bad),
    }
}

fn typology_of(alloc: Global, file: &str, options: &[GivenOption]) -> Result<Settings, WordsError>
    ensures given { IfOk result (λ settings. words_of.typology_of file.now (map lines.given options.now) ≡ Some settings) }
    ensures bad { result ≡ Err WordsError.Bad → words_of.typology_of file.now (map lines.given options.now) ≡ None }
    ensures within { IfOk result (λ settings. words_of.IsWithinLimits settings) }
{
    if !are_among(options, &["workers", "store", "schedule", "given"]) {
        return Err(WordsError::Bad);
    }
    Ok(Settings::Typology {
        workers: workers_in(options)?,
        places: places_in(options)?,
        schedule: schedule_in(options)?,
        given: given_in(alloc, options)?,
        file: FileName::of(alloc, file)?,
    })
}

fn torder_of(alloc: Global, file: &str, options: &[GivenOption]) -> Result<Settings, WordsError>
    ensures given { IfOk result (λ settings. words_of.torder_of file.now (map lines.given options.now) ≡ Some settings) }
    ensures bad { result ≡ Err WordsError.Bad → words_of.torder_of file.now (map lines.given options.now) ≡ None }
    ensures within { IfOk result (λ settings. words_of.IsWithinLimits settings) }
{
    if !are_among(options, &["workers", "store", "given"]) {
        return Err(WordsError::Bad);
    }
    Ok(Settings::Torder {
        workers: workers_in(options)?,
        places: places_in(options)?,
        given: given_in(alloc, options)?,
        file: FileName::of(alloc, file)?,
    })
}

fn rank_of(alloc: Global, file: &str, options: &[GivenOption]) -> Result<Settings, WordsError>
    ensures given { IfOk result (λ settings. words_of.rank_of file.now (map lines.given options.now) ≡ Some settings) }
    ensures bad { result ≡ Err WordsError.Bad → words_of.rank_of file.now (map lines.given options.now) ≡ None }
    ensures within { IfOk result (λ settings. words_of.IsWithinLimits settings) }
{
    if !are_among(options, &["faith", "given"]) {
        return Err(WordsError::Bad);
    }
    Ok(Settings::Rank {
        faith: faith_in(alloc, options)?,
        given: given_in(alloc, options)?,
        file: FileName::of(alloc, file)?,
    })
}

fn bases_of(alloc: Global, file: &str, options: &[GivenOption]) -> Result<Settings, WordsError>
    ensures given { IfOk result (λ settings. words_of.bases_of file.now (map lines.given options.now) ≡ Some settings) }
    ensures bad { result ≡ Err WordsError.Bad → words_of.bases_of file.now (map lines.given options.now) ≡ None }
    ensures within { IfOk result (λ settings. words_of.IsWithinLimits settings) }
{
    if !are_among(options, &["given"]) {
        return Err(WordsError::Bad);
    }
    Ok(Settings::Bases {
        given: given_in(alloc, options)?,
        file: FileName::of(alloc, file)?,
    })
}

fn hasse_of(alloc: Global, file: &str, options: &[GivenOption]) -> Result<Settings, WordsError>
    ensures given { IfOk result (λ settings. words_of.hasse_of file.now (map lines.given options.now) ≡ Some settings) }
    ensures bad { result ≡ Err WordsError.Bad → words_of.hasse_of file.now (map lines.given options.now) ≡ None }
    ensures within { IfOk result (λ settings. words_of.IsWithinLimits settings) }
{
    if !are_among(options, &["given"]) {
        return Err(WordsError::Bad);
    }
    Ok(Settings::Hasse {
        given: given_in(alloc, options)?,
        file: FileName::of(alloc, file)?,
    })
}

fn demo_of(word: &str, options: &[GivenOption]) -> Result<Settings, WordsError>
    ensures given { IfOk result (λ settings. words_of.demo_of word.now (map lines.given options.now) ≡ Some settings) }
    ensures bad { result ≡ Err WordsError.Bad → words_of.demo_of word.now (map lines.given options.now) ≡ None }
    ensures within { IfOk result (λ settings. words_of.IsWithinLimits settings) }
{
    if !are_among(options, &["workers", "store"]) {
        return Err(WordsError::Bad);
    }
    let Some(number) = number_of(word, 20, 0, u64::MAX) else {
        return Err(WordsError::Bad);
    };
    Ok(Settings::Demo {
        number,
        workers: workers_in(options)?,
        places: places_in(options)?,
    })
}

/// The number of workers that is asked for.
fn workers_in(options: &[GivenOption]) -> Result<usize, WordsError>
    ensures given { IfOk result (λ workers. words_of.workers_in (map lines.given options.now) ≡ Some workers) }
    ensures bad { IfErr result (λ error. (error ≡ WordsError.Bad) × (words_of.workers_in (map lines.given options.now) ≡ None)) }
    ensures least { IfOk result (λ workers. 1 ≤ workers) }
    ensures most { IfOk result (λ workers. workers ≤ 64) }
{
    let given = number(options, "workers", 1, 64)?;
    Ok(given.unwrap_or(1) as usize)
}

/// The number of places for contradictions that is asked for.
fn places_in(options: &[GivenOption]) -> Result<usize, WordsError>
    ensures given { IfOk result (λ places. words_of.places_in (map lines.given options.now) ≡ Some places) }
    ensures bad { IfErr result (λ error. (error ≡ WordsError.Bad) × (words_of.places_in (map lines.given options.now) ≡ None)) }
    ensures most { IfOk result (λ places. places ≤ 4096) }
{
    let given = number(options, "store", 0, 4_096)?;
    Ok(given.unwrap_or(1_024) as usize)
}

/// The number of a schedule, if the option was given.
fn schedule_in(options: &[GivenOption]) -> Result<Option<u64>, WordsError>
    ensures given { IfOk result (λ schedule. words_of.schedule_in (map lines.given options.now) ≡ Some schedule) }
    ensures bad { IfErr result (λ error. (error ≡ WordsError.Bad) × (words_of.schedule_in (map lines.given options.now) ≡ None)) }
{
    number(options, "schedule", 0, u64::MAX)
}

/// The constraints that were named as faithfulness constraints, if the option was given.
fn faith_in(alloc: Global, options: &[GivenOption]) -> Result<Option<List<ConId>>, WordsError>
    ensures given { IfOk result (λ faith. words_of.faith_in (map lines.given options.now) ≡ Some faith) }
    ensures bad { result ≡ Err WordsError.Bad → words_of.faith_in (map lines.given options.now) ≡ None }
{
    let Some(text) = value_of(options, "faith")? else {
        return Ok(None);
    };
    Ok(Some(constraints_of(alloc, text)?))
}

/// The file of given pairs, if the option was given. Its name is not empty.
fn given_in(alloc: Global, options: &[GivenOption]) -> Result<Option<FileName>, WordsError>
    ensures given { IfOk result (λ given. words_of.given_in (map lines.given options.now) ≡ Some given) }
    ensures bad { result ≡ Err WordsError.Bad → words_of.given_in (map lines.given options.now) ≡ None }
{
    let Some(text) = value_of(options, "given")? else {
        return Ok(None);
    };
    if text.is_empty() {
        return Err(WordsError::Bad);
    }
    Ok(Some(FileName::of(alloc, text)?))
}

/// The number within these bounds that an option was given, if it was.
fn number(
    options: &[GivenOption],
    name: &str,
    least: u64,
    most: u64,
) -> Result<Option<u64>, WordsError>
    ensures given { IfOk result (λ given. words_of.optional (words_of.number 20 least most) (words_of.values_of name.now (map lines.given options.now)) ≡ Some given) }
    ensures bad { IfErr result (λ error. (error ≡ WordsError.Bad) × (words_of.optional (words_of.number 20 least most) (words_of.values_of name.now (map lines.given options.now)) ≡ None)) }
    ensures least { IfOk result (λ given. IfSome given (λ number. least ≤ number)) }
    ensures most { IfOk result (λ given. IfSome given (λ number. number ≤ most)) }
{
    let Some(text) = value_of(options, name)? else {
        return Ok(None);
    };
    match number_of(text, 20, least, most) {
        Some(number) => Ok(Some(number)),
        None => Err(WordsError::Bad),
    }
}
