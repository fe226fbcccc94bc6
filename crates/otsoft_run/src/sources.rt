//! The files that a command reads, and why one of them poses nothing.

ghost use Rattle.std.specs.Prelude.{◌≡◌};
ghost use Rattle.otsoft_run.specs.Sources.{name_of, source_of};

use command_words::Settings;
use tableau_file::{FileRefusal, GivenRefusal};

/// A file that a command reads.
#[derive(Clone, Copy, Debug, PartialEq, Eq)]
pub(crate) enum Source {
    /// The file of the tableau.
    Tableau,
    /// The file of the given pairs.
    Given,
}

impl Source {
    /// The name of the file, and no name where the command reads none.
    pub(crate) fn name(self, settings: &Settings) -> &str
        ensures { result.now ≡ name_of settings.now self }
    {
        match self {
            Source::Tableau => settings.file(),
            Source::Given => settings.given().unwrap_or(""),
        }
    }
}

/// Why a file is not accepted.
#[derive(Clone, Copy, Debug, PartialEq, Eq)]
pub(crate) enum SourceRefusal {
    /// The file of the tableau is refused.
    Tableau(FileRefusal),
    /// The file of the given pairs is refused.
    Given(GivenRefusal),
}

impl SourceRefusal {
    /// The file that is refused.
    pub(crate) fn source(self) -> Source
        ensures { result ≡ source_of self }
    {
        match self {
            SourceRefusal::Tableau(_) => Source::Tableau,
            SourceRefusal::Given(_) => Source::Given,
        }
    }
}

/// Why one file poses nothing, where `R` tells a refusal of it.
#[derive(Clone, Copy, Debug, PartialEq, Eq)]
pub(crate) enum SourceError<R> {
    /// It could not be opened or read.
    Fault,
    /// It is not accepted.
    Refused(R),
    /// There was no memory.
    NoMemory,
}

/// Why a command poses nothing.
#[derive(Clone, Copy, Debug, PartialEq, Eq)]
pub(crate) enum PoseError {
    /// A file could not be opened or read.
    Fault(Source),
    /// A file is not accepted.
    Refused(SourceRefusal),
    /// There was no memory.
    NoMemory,
}
