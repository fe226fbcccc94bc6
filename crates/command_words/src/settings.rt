ghost use Rattle.std.specs.Prelude.{◌≡◌, IfOk, option_map};
ghost use Rattle.command_words.specs.Words.{file_of, given_of, made_of};

use erc_vectors::{ConId, List, NoMemory};
use std::alloc::Global;
use std::marker::Model;

/// The name of a file, as its bytes.
#[derive(Debug, Drop)]
pub struct FileName {
    text: String,
}

impl Model for FileName {
    ghost use Rattle.std.specs.Prelude.{List, ℕ, string_bytes};

    ghost Value = { List ℕ };

    ghost view = { λ name. string_bytes name.text };
}

impl FileName {
    /// The name that these bytes spell.
    pub fn of(alloc: Global, text: &str) -> Result<FileName, NoMemory>
        ensures { IfOk result (λ name. name ≡ text.now) }
    {
        Ok(FileName {
            text: String::from_str(alloc, text)?,
        })
    }

    /// The bytes of the name.
    pub fn as_str(&self) -> &str
        ensures { result.now ≡ self.now }
    {
        self.text.as_str()
    }
}

/// What the words ask for. Where `given` names a file of given pairs, only the rankings that keep them count.
#[derive(Debug, Drop)]
pub enum Settings {
    /// The factorial typology of a file, found by 1 to 64 workers who keep at most `places` contradictions, from 0 to 4,096; where
    /// there is the number of a schedule, by the steps of that schedule.
    Typology {
        file: FileName,
        workers: usize,
        places: usize,
        schedule: Option<u64>,
        given: Option<FileName>,
    },
    /// The implications between the outputs of a file, found by such a search.
    Torder {
        file: FileName,
        workers: usize,
        places: usize,
        given: Option<FileName>,
    },
    /// A hierarchy that makes the winners of a file optimal: the least one, or where faithfulness constraints are named, counted
    /// from 0, the one that keeps these low. A number may stand there twice, and may be that of no constraint of the file.
    Rank {
        file: FileName,
        faith: Option<List<ConId>>,
        given: Option<FileName>,
    },
    /// The two bases of what the winners of a file ask for.
    Bases {
        file: FileName,
        given: Option<FileName>,
    },
    /// The covers of the necessary rankings that the winners of a file ask for.
    Hasse {
        file: FileName,
        given: Option<FileName>,
    },
    /// A summary of the demonstration file of a number, which is made and searched as a file of `Typology` is.
    Demo {
        number: u64,
        workers: usize,
        places: usize,
    },
}

impl Settings {
    /// The file that is read, and no name where none is.
    pub fn file(&self) -> &str
        ensures { result.now ≡ file_of self.now }
    {
        match self {
            Settings::Typology { file, .. } => file.as_str(),
            Settings::Torder { file, .. } => file.as_str(),
            Settings::Rank { file, .. } => file.as_str(),
            Settings::Bases { file, .. } => file.as_str(),
            Settings::Hasse { file, .. } => file.as_str(),
            Settings::Demo { .. } => "",
        }
    }

    /// The file of given pairs that is read, if there is one.
    pub fn given(&self) -> Option<&str>
        ensures { option_map (λ name. name.now) result ≡ given_of self.now }
    {
        let given = match self {
            Settings::Typology { given, .. } => given,
            Settings::Torder { given, .. } => given,
            Settings::Rank { given, .. } => given,
            Settings::Bases { given, .. } => given,
            Settings::Hasse { given, .. } => given,
            Settings::Demo { .. } => return None,
        };
        given.as_ref().map(|name| name.as_str())
    }

    /// The number of the demonstration file that is made, where no file is read.
    pub fn made(&self) -> Option<u64>
        ensures { result ≡ made_of self.now }
    {
        match self {
            Settings::Typology { .. } => None,
            Settings::Torder { .. } => None,
            Settings::Rank { .. } => None,
            Settings::Bases { .. } => None,
            Settings::Hasse { .. } => None,
            Settings::Demo { number, .. } => Some(*number),
        }
    }
}

/// Why no settings were made of the words.
#[derive(Clone, Copy, Debug, PartialEq, Eq)]
pub enum WordsError {
    /// The words give no settings.
    Bad,
    /// There was no memory for what the words hold.
    NoMemory,
}

impl From<NoMemory> for WordsError {
    ghost use Rattle.std.specs.Prelude.{◌≡◌};
    ghost use Rattle.command_words.specs.declared.settings.WordsError.TheVariants as variants;

    ghost from_gives = { λ _ error. error ≡ variants.NoMemory };

    fn from(_error: NoMemory) -> WordsError {
        WordsError::NoMemory
    }
}
