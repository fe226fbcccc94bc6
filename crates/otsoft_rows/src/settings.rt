//! Words, and the settings that they give.

use command_words::{Settings, WordsError, settings_of};
use erc_vectors::{ConId, NoMemory};
use memory_runs::words_of;
use std::alloc::{AllocError, Global};
use std::test::Fail;

/// A name, words with a bar between two, and the settings as a text: the command, the file, the workers, the places and the schedule
/// or the constraints, counted from 0, and the file of given pairs.
type Asked = (&'static str, &'static str, &'static str);

/// A name, and words with a bar between two.
type Bad = (&'static str, &'static str);

const ASKED: [Asked; 45] = [
    ("no option", "typology|A", "typology A 1 1024"),
    ("a ranking", "rank|A", "rank A"),
    ("a file of no name", "typology|", "typology  1 1024"),
    ("a file named by a dash", "typology|-", "typology - 1 1024"),
    ("dashes first", "--|typology|A", "typology A 1 1024"),
    ("dashes last", "typology|A|--", "typology A 1 1024"),
    ("a dashed file", "typology|--|-a", "typology -a 1 1024"),
    ("dashes twice", "typology|--|--", "typology -- 1 1024"),
    (
        "a zero in front",
        "typology|A|--workers=02",
        "typology A 2 1024",
    ),
    ("one worker", "typology|A|--workers|1", "typology A 1 1024"),
    (
        "64 workers",
        "typology|A|--workers|64",
        "typology A 64 1024",
    ),
    ("no places", "typology|A|--store|0", "typology A 1 0"),
    (
        "4,096 places",
        "typology|A|--store=4096",
        "typology A 1 4096",
    ),
    (
        "20 digits",
        "typology|A|--workers|00000000000000000003",
        "typology A 3 1024",
    ),
    (
        "options before the command",
        "--store|7|--workers=2|typology|A",
        "typology A 2 7",
    ),
    (
        "options round the words",
        "--store|7|typology|A|--workers|2",
        "typology A 2 7",
    ),
    (
        "options before the dashes",
        "typology|--workers|2|--|A",
        "typology A 2 1024",
    ),
    (
        "the schedule of nought",
        "typology|A|--workers=3|--schedule|0",
        "typology A 3 1024 0",
    ),
    (
        "the greatest schedule",
        "--schedule=18446744073709551615|typology|--workers|3|A",
        "typology A 3 1024 18446744073709551615",
    ),
    (
        "zeros before a schedule",
        "typology|--workers=3|--schedule=00000000000000000042|A",
        "typology A 3 1024 42",
    ),
    ("a ranking behind dashes", "rank|--|A", "rank A"),
    (
        "a command behind dashes",
        "--workers=2|--|typology|A",
        "typology A 2 1024",
    ),
    ("bases", "bases|A", "bases A"),
    ("covers", "hasse|A", "hasse A"),
    ("implications", "torder|A", "torder A 1 1024"),
    (
        "implications with both options",
        "torder|--workers=64|A|--store|0",
        "torder A 64 0",
    ),
    ("one constraint", "rank|A|--faith|1", "rank A 0"),
    ("the last number", "rank|A|--faith=128", "rank A 127"),
    ("one digit of three", "rank|A|--faith|001", "rank A 0"),
    ("zeros in front", "rank|A|--faith=007,7", "rank A 6 6"),
    (
        "numbers in their order",
        "rank|--faith|3,1,2|A",
        "rank A 2 0 1",
    ),
    ("a repeat", "rank|--faith|2,2,2|A", "rank A 1 1 1"),
    (
        "two and three digits",
        "--faith=10,100,99|rank|A",
        "rank A 9 99 98",
    ),
    (
        "a list before the dashes",
        "rank|--faith=4|--|A",
        "rank A 3",
    ),
    ("bases behind dashes", "--|bases|A", "bases A"),
    ("covers behind dashes", "hasse|--|A", "hasse A"),
    (
        "given pairs",
        "bases|A|--given|g.txt",
        "bases A given g.txt",
    ),
    (
        "a dashed file of pairs",
        "hasse|--given=-x|A",
        "hasse A given -x",
    ),
    (
        "the same file twice",
        "torder|A|--given=A|--store=0",
        "torder A 1 0 given A",
    ),
    (
        "given pairs and constraints",
        "rank|--given|g|--faith=3|A",
        "rank A 2 given g",
    ),
    (
        "given pairs and a schedule",
        "--schedule|9|--given|g|typology|A",
        "typology A 1 1024 9 given g",
    ),
    ("the number 0", "demo|0", "demo 0 1 1024"),
    (
        "the last number of a file",
        "demo|18446744073709551615",
        "demo 18446744073709551615 1 1024",
    ),
    (
        "workers of a demonstration",
        "demo|7|--workers=64",
        "demo 7 64 1024",
    ),
    (
        "a number of 20 digits",
        "--store|4096|demo|00000000000000000007",
        "demo 7 1 4096",
    ),
];

const BAD: [Bad; 73] = [
    ("given pairs of no name", "rank|A|--given="),
    ("a dash for given pairs", "rank|A|--given|-x"),
    ("given pairs twice", "rank|A|--given|g|--given|g"),
    ("given pairs of a number", "demo|1|--given|g"),
    ("a command alone", "typology"),
    ("a ranking alone", "rank"),
    ("two files", "typology|A|B"),
    ("an unknown command", "frob|A"),
    ("a shortened command", "typolog|A"),
    ("a dashed command", "-v|typology|A"),
    ("a dashed file", "typology|-a"),
    ("no file behind dashes", "typology|--"),
    ("a second file behind dashes", "typology|A|--|B"),
    ("an option behind dashes", "typology|--|A|--workers=2"),
    ("dashes twice before the command", "--|--|typology|A"),
    ("an unknown option", "typology|A|--work|1"),
    ("an option in capitals", "typology|A|--Workers|1"),
    ("an option without a name", "typology|A|--=x"),
    ("an option of no command", "torder|A|--schedule|1"),
    (
        "a schedule past 64 bits",
        "typology|A|--schedule|18446744073709551616",
    ),
    (
        "a schedule of 21 digits",
        "typology|A|--schedule|000000000000000000001",
    ),
    ("no schedule", "typology|A|--schedule"),
    ("two schedules", "typology|A|--schedule=1|--schedule=1"),
    ("faithfulness of a typology", "typology|A|--faith|1"),
    ("faithfulness of implications", "torder|A|--faith|1"),
    ("faithfulness of bases", "bases|A|--faith|1"),
    ("faithfulness of covers", "hasse|A|--faith=1"),
    ("workers of bases", "bases|A|--workers|1"),
    ("workers of covers", "hasse|--workers=1|A"),
    ("places of a ranking", "rank|A|--store|1"),
    ("two files of covers", "hasse|A|B"),
    ("bases alone", "bases"),
    ("implications alone", "torder"),
    ("a command in capitals", "Hasse|A"),
    ("a demonstration of a word", "demo|A"),
    ("a plus in a number", "demo|+1"),
    ("constraint 0", "rank|A|--faith|0"),
    ("three zeros", "rank|A|--faith|000"),
    ("four digits", "rank|A|--faith|0001"),
    ("constraint 129", "rank|A|--faith|129"),
    ("a later 0", "rank|A|--faith|1,0"),
    ("a later 129", "rank|A|--faith=1,129,2"),
    ("a comma first", "rank|A|--faith|,1"),
    ("a comma last", "rank|A|--faith|1,"),
    ("two commas", "rank|A|--faith|1,,2"),
    ("a comma alone", "rank|A|--faith|,"),
    ("an empty list", "rank|A|--faith="),
    ("a blank in a list", "rank|A|--faith|1, 2"),
    ("a letter in a list", "rank|A|--faith|1,b"),
    ("a plus in a list", "rank|A|--faith|1,+2"),
    ("another separator", "rank|A|--faith|1;2"),
    ("two lists", "rank|A|--faith|1|--faith|2"),
    ("no list", "rank|A|--faith"),
    ("an option of another command", "rank|A|--workers|1"),
    ("no workers", "typology|A|--workers|0"),
    ("65 workers", "typology|A|--workers|65"),
    ("21 digits", "typology|A|--workers|000000000000000000001"),
    ("4,097 places", "typology|A|--store|4097"),
    (
        "workers of 20 nines",
        "typology|A|--workers|99999999999999999999",
    ),
    ("no value", "typology|A|--workers"),
    ("an empty value", "typology|A|--workers="),
    ("an empty word as value", "typology|A|--workers|"),
    ("a dash as value", "typology|A|--store|-"),
    ("a dashed value", "typology|A|--store|-1"),
    ("dashes as value", "typology|A|--store|--|3"),
    ("an option as value", "typology|A|--store|--workers=2"),
    ("a negative value", "typology|A|--store=-1"),
    ("a plus", "typology|A|--store|+1"),
    ("a letter", "typology|A|--store|1k"),
    ("a blank", "typology|A|--store| 1"),
    ("an equals sign twice", "typology|A|--store==1"),
    ("an option twice", "typology|A|--store|1|--store|2"),
    ("the same value twice", "--store=1|typology|A|--store|1"),
];

/// Settings as a text.
fn shown(alloc: Global, settings: &Settings) -> Result<String, AllocError> {
    let mut text = shown_command(alloc, settings)?;
    if let Some(name) = settings.given() {
        write!(text, " given {name}")?;
    }
    Ok(text)
}

/// Settings as a text, without the given pairs.
fn shown_command(alloc: Global, settings: &Settings) -> Result<String, AllocError> {
    match settings {
        Settings::Typology {
            file,
            workers,
            places,
            schedule,
            ..
        } => shown_search(
            alloc,
            "typology",
            file.as_str(),
            *workers,
            *places,
            *schedule,
        ),
        Settings::Torder {
            file,
            workers,
            places,
            ..
        } => shown_search(alloc, "torder", file.as_str(), *workers, *places, None),
        Settings::Rank {
            file,
            faith: None,
            ..
        } => shown_ranking(alloc, file.as_str(), &[]),
        Settings::Rank {
            file,
            faith: Some(faith),
            ..
        } => shown_ranking(alloc, file.as_str(), faith.as_slice()),
        Settings::Demo {
            number,
            workers,
            places,
        } => format!(in alloc; "demo {number} {workers} {places}"),
        Settings::Bases { file, .. } => shown_file(alloc, "bases", file.as_str()),
        Settings::Hasse { file, .. } => shown_file(alloc, "hasse", file.as_str()),
    }
}

fn shown_file(alloc: Global, command: &str, file: &str) -> Result<String, AllocError> {
    format!(in alloc; "{command} {file}")
}

fn shown_search(
    alloc: Global,
    command: &str,
    file: &str,
    workers: usize,
    places: usize,
    schedule: Option<u64>,
) -> Result<String, AllocError> {
    match schedule {
        Some(number) => format!(in alloc; "{command} {file} {workers} {places} {number}"),
        None => format!(in alloc; "{command} {file} {workers} {places}"),
    }
}

fn shown_ranking(alloc: Global, file: &str, faith: &[ConId]) -> Result<String, AllocError> {
    let mut text = shown_file(alloc, "rank", file)?;
    for constraint in faith {
        let number = constraint.0;
        write!(text, " {number}")?;
    }
    Ok(text)
}

/// Whether the words give these settings.
fn are_asked(alloc: Global, words: &str, asked: &str) -> Result<bool, NoMemory> {
    let words = words_of(alloc, words, '|')?;
    match settings_of(alloc, words.as_slice()) {
        Ok(settings) => Ok(shown(alloc, &settings)?.as_str() == asked),
        Err(_) => Ok(false),
    }
}

/// The first row whose words do not give its settings.
fn first_not_asked(alloc: Global, rows: &[Asked]) -> Result<Option<&'static str>, NoMemory> {
    for (name, words, asked) in rows {
        if !are_asked(alloc, words, asked)? {
            return Ok(Some(name));
        }
    }
    Ok(None)
}

#[test]
fn words_give_their_settings(rt: HostRuntime) -> Result<(), Fail> {
    let found = first_not_asked(rt.alloc(), &ASKED)?;
    assert_eq!(rt; found, None);
    Ok(())
}

/// Whether the words give no settings.
fn are_bad(alloc: Global, words: &[String]) -> bool {
    matches!(settings_of(alloc, words), Err(WordsError::Bad))
}

/// The first row whose words give settings.
fn first_not_bad(alloc: Global, rows: &[Bad]) -> Result<Option<&'static str>, NoMemory> {
    for (name, words) in rows {
        let words = words_of(alloc, words, '|')?;
        if !are_bad(alloc, words.as_slice()) {
            return Ok(Some(name));
        }
    }
    Ok(None)
}

#[test]
fn words_give_no_settings(rt: HostRuntime) -> Result<(), Fail> {
    let found = first_not_bad(rt.alloc(), &BAD)?;
    assert_eq!(rt; found, None);
    assert!(rt; are_bad(rt.alloc(), &[]), "no word");
    Ok(())
}
