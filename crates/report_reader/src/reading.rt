//! Reading the report of a factorial typology.

ghost use Rattle.std.specs.Prelude.{◌≡◌, ◌≤◌, length};
ghost use Rattle.report_reader.specs.Grammar as grammar;
ghost use Rattle.report_reader.specs.Grammar.{Gives, IsRead, found};

use crate::blocks::{certificates_at, cuts_at, end_at, head_at, languages_at, line_count};
use crate::misread::Misread;
use refutation::Typology;
use std::alloc::Global;

/// The greatest number of bytes of a report that can be read.
pub const REPORT_LIMIT: usize = 268_435_456;

/// Why a report was not read.
#[derive(Clone, Copy, Debug, PartialEq, Eq)]
pub enum TextError {
    /// This line, from 1 on, is the first that does not fit: it has not the form, the numbers and the ranges that the lines
    /// before it call for in its place, or no LF ends it. Where the bytes end too early it is the line after the last.
    BadLine(u32),
    /// There is no memory for what is read.
    NoMemory,
}

/// The typology that the report of a command `typology` spells, whose lines are those of `typology_text`, judged from the
/// first one on. Numbers have no leading zeros, and none is above 268,435,456. Constraints are 1 to 64, inputs 1 to 1,000, and
/// classes of an input 1 to 200, each with a member at least. A block of at most 4,096 given pairs may stand behind the classes, each of two
/// different constraints; a term `gK` names one of them. A count is the number of the lines of its kind after it, which
/// are numbered from 1 on. Texts may be empty, and have no tab, CR or LF. A hierarchy has each constraint once, ascending in
/// each of its strata, of which none is empty. A certificate has at least one term, and its terms may stand in any order, more
/// than once; no cut need name it. Nothing stands behind the last line, `end`.
///
/// What the report says is not judged beyond that: a mark may be wrong, and a choice no language.
pub fn read_typology_text(alloc: Global, bytes: &[u8]) -> Result<Typology, TextError>
    requires { length bytes.now ≤ REPORT_LIMIT }
    ensures { IsRead bytes.now result }
{
    match report(alloc, bytes) {
        Ok(typology) => Ok(typology),
        Err(Misread::NoMemory) => Err(TextError::NoMemory),
        Err(Misread::Left(left)) => {
            let number = line_count(bytes).saturating_sub(left) + 1;
            Err(TextError::BadLine(number as u32))
        }
    }
}

#[tactic(auto, unfolding(crate::specs::Grammar::report_at))]
fn report(alloc: Global, bytes: &[u8]) -> Result<Typology, Misread>
    ensures { Gives found result (grammar.report_at bytes.now) }
{
    let (head, rest) = head_at(alloc, bytes)?;
    let (languages, rest) = languages_at(alloc, &head, rest)?;
    let (certificates, rest) = certificates_at(alloc, &head, rest)?;
    let (cuts, rest) = cuts_at(alloc, &head, certificates.len(), rest)?;
    let rest = end_at(rest)?;
    if !rest.is_empty() {
        return Err(Misread::Left(line_count(rest)));
    }
    Ok(Typology {
        languages,
        cuts,
        certificates,
    })
}
