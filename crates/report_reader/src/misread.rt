//! Why a report could not be read on.

ghost use Rattle.std.specs.Prelude.{◌≡◌};
ghost use Rattle.report_reader.specs.declared.misread.Misread.TheVariants.{NoMemory};

use erc_vectors as vectors;

/// There is no memory, or a line does not fit.
#[derive(Clone, Copy, Debug, PartialEq, Eq)]
pub(crate) enum Misread {
    NoMemory,
    /// The number of lines from the one that does not fit to the end, with that of the bytes behind the last LF.
    Left(usize),
}

impl From<vectors::NoMemory> for Misread {
    ghost from_gives = { λ _ e. e ≡ NoMemory };

    fn from(_e: vectors::NoMemory) -> Misread {
        Misread::NoMemory
    }
}
