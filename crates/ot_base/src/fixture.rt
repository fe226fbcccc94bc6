//! Tableaus for tests, from rows of violations and without a file.

ghost use Rattle.std.specs.Prelude.{◌≡◌, ◌≤◌, IfOk, length, map};
ghost use Rattle.ot_base.specs.Acceptable.{AreRows, IsRow};
ghost use Rattle.ot_base.specs.Fixtures.{candidate_given, candidate_of};
ghost use Rattle.ot_base.specs.declared.limits.TheConstants.{CANDIDATE_LIMIT};

use crate::{CandidateRow, InputRows, Label, Tableau};
use erc_vectors::{List, NoMemory};
use std::alloc::Global;

/// A tableau of constraints with these names and abbreviations, and of these inputs.
pub fn tableau_of(
    alloc: Global,
    names: &[&str],
    abbrevs: &[&str],
    inputs: List<InputRows>,
) -> Result<Tableau, NoMemory>
    ensures names { IfOk result (λ tableau. tableau.names ≡ map (λ text. text.now) names.now) }
    ensures abbrevs { IfOk result (λ tableau. tableau.abbrevs ≡ map (λ text. text.now) abbrevs.now) }
    ensures inputs { IfOk result (λ tableau. tableau.inputs ≡ inputs) }
{
    Ok(Tableau {
        names: labels_of(alloc, names)?,
        abbrevs: labels_of(alloc, abbrevs)?,
        inputs,
    })
}

/// An input of this text, and of these candidates: of each its text, its count in billionths, and its violations. Each stands in
/// line 3.
pub fn input_of<const N: usize>(
    alloc: Global,
    text: &str,
    rows: &[(&str, u64, [u8; N])],
) -> Result<InputRows, NoMemory>
    requires some { 1 ≤ length rows.now }
    requires few { length rows.now ≤ CANDIDATE_LIMIT }
    ensures text { IfOk result (λ input. input.text ≡ text.now) }
    ensures candidates { IfOk result (λ input. input.candidates ≡ map candidate_given rows.now) }
    ensures rows { IfOk result (AreRows N) }
{
    let mut candidates = List::new(alloc);
    for (name, count, violations) in rows {
        candidates.push(row_of(alloc, name, *count, violations)?)?;
    }
    Ok(InputRows {
        text: Label::of(alloc, text.as_bytes())?,
        candidates,
    })
}

fn row_of<const N: usize>(
    alloc: Global,
    text: &str,
    count: u64,
    marks: &[u8; N],
) -> Result<CandidateRow, NoMemory>
    ensures row { IfOk result (λ row. row ≡ candidate_of text.now count marks.now) }
    ensures bounded { IfOk result (IsRow N) }
{
    let mut violations = List::new(alloc);
    for violation in marks {
        violations.push(u32::from(*violation))?;
    }
    Ok(CandidateRow {
        text: Label::of(alloc, text.as_bytes())?,
        count,
        violations,
        line: 3,
    })
}

fn labels_of(alloc: Global, texts: &[&str]) -> Result<List<Label>, NoMemory>
    ensures { IfOk result (λ labels. labels ≡ map (λ text. text.now) texts.now) }
{
    let mut labels = List::new(alloc);
    for text in texts {
        labels.push(Label::of(alloc, text.as_bytes())?)?;
    }
    Ok(labels)
}
