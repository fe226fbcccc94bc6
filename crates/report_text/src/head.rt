//! What every report begins with: the title, the constraints, and the inputs with their classes.

ghost use Rattle.std.specs.Prelude.{◌≡◌, ◌+◌, ◌<◌, ◌≤◌, ◌∷◌, [], ◌++◌, length, codes, decimal, flat_map, map, slice_get, All, OnOk, Some};
ghost use Rattle.ot_theory.specs.Problems.{members_of};
ghost use Rattle.ot_base.specs.Tableaus.{input_of_rows, pair_of, pairs_in};
ghost use Rattle.ot_base.specs.declared.limits.TheConstants.{GIVEN_LIMIT};
ghost use Rattle.report_text.specs.Posed.{Poses};
ghost use Rattle.report_text.specs.Spelling.{line, spaced};
ghost use Rattle.report_text.specs.Reports as reports;

use crate::numbers::put_numbers;
use crate::text::Text;
use erc_vectors::NoMemory;
use ot_base::{ClassId, InId, InputRows, Label, Pair, Tableau};
use violation_profiles::Problem;

/// What stands in the report of a command before the part that is its own: the title, the constraints with their
/// abbreviations and names, the inputs, each with its classes, their profiles and the texts of their members, and the given pairs, where
/// pairs were given.
pub(crate) fn put_head(
    text: &mut Text,
    command: &[u8],
    tableau: &Tableau,
    problem: &Problem,
) -> Result<(), NoMemory>
    requires { Poses tableau.now problem.now }
    ensures { OnOk result (text.new ≡ text.old ++ reports.head command.now tableau.now problem.now) }
{
    put_title(text, command)?;
    put_constraints(text, tableau)?;
    text.count_line(b"inputs", problem.inputs())?;
    for (i, rows) in tableau.inputs.as_slice().iter().enumerate() {
        put_input(text, InId(i as u32), rows, problem)?;
    }
    put_givens(text, problem)
}

/// The number of given pairs, and a line for each, where pairs were given.
fn put_givens(text: &mut Text, problem: &Problem) -> Result<(), NoMemory>
    ensures { OnOk result (text.new ≡ text.old ++ reports.given_lines problem.now) }
{
    if !problem.has_givens() {
        return Ok(());
    }
    put_pairs(text, problem.givens())
}

/// The number of given pairs, and a line for each.
fn put_pairs(text: &mut Text, pairs: &[Pair]) -> Result<(), NoMemory>
    requires { length pairs.now ≤ GIVEN_LIMIT }
    ensures { OnOk result (text.new ≡ text.old ++ reports.pair_lines (pairs_in pairs.now)) }
{
    text.count_line(b"givens", pairs.len())?;
    for (k, pair) in pairs.iter().enumerate() {
        put_pair(text, k + 1, *pair)?;
    }
    Ok(())
}

/// The line of a given pair: its number, and those of its upper and its lower constraint.
fn put_pair(text: &mut Text, number: usize, pair: Pair) -> Result<(), NoMemory>
    ensures { OnOk result (text.new ≡ text.old ++ reports.given_line number (pair_of pair)) }
{
    text.put(b"given")?;
    text.number_field(number)?;
    text.number_field(pair.above.0 as usize + 1)?;
    text.number_field(pair.below.0 as usize + 1)?;
    text.end_line()
}

/// The line that a report begins with.
pub(crate) fn put_title(text: &mut Text, command: &[u8]) -> Result<(), NoMemory>
    ensures { OnOk result (text.new ≡ text.old ++ reports.title command.now) }
{
    text.put(b"otsoft report 1")?;
    text.field(command)?;
    text.end_line()
}

/// The number of constraints, and a line for each.
fn put_constraints(text: &mut Text, tableau: &Tableau) -> Result<(), NoMemory>
    ensures { OnOk result (text.new ≡ text.old ++ reports.constraint_lines tableau.now) }
{
    let names = tableau.names.as_slice();
    let abbreviations = tableau.abbrevs.as_slice();
    text.count_line(b"constraints", names.len())?;
    for k in 0..abbreviations.len().min(names.len()) {
        put_constraint(text, k + 1, &abbreviations[k], &names[k])?;
    }
    Ok(())
}

/// The line of a constraint: its number, its abbreviation and its name.
fn put_constraint(
    text: &mut Text,
    number: usize,
    abbreviation: &Label,
    name: &Label,
) -> Result<(), NoMemory>
    ensures { OnOk result (text.new ≡ text.old ++ line (codes "constraint" ∷ decimal number ∷ abbreviation.now ∷ name.now ∷ [])) }
{
    text.put(b"constraint")?;
    text.number_field(number)?;
    text.field(abbreviation.bytes())?;
    text.field(name.bytes())?;
    text.end_line()
}

/// The line of an input, and those of its classes.
fn put_input(text: &mut Text, i: InId, rows: &InputRows, problem: &Problem) -> Result<(), NoMemory>
    requires within { i.0 < length problem.now.inputs }
    requires posed { slice_get problem.now.inputs i.0 ≡ Some (input_of_rows rows.now) }
    ensures { OnOk result (text.new ≡ text.old ++ reports.input_lines (i.0 + 1) rows.now (input_of_rows rows.now)) }
{
    let number = i.0 as usize + 1;
    let classes = problem.classes(i);
    text.put(b"input")?;
    text.number_field(number)?;
    text.field(rows.text.bytes())?;
    text.number_field(classes)?;
    text.end_line()?;
    for a in 0..classes {
        let class = ClassId(a as u16);
        let profile = problem.profile(i, class);
        let members = problem.members(i, class);
        put_class(text, number, rows, a + 1, profile, members)?;
    }
    Ok(())
}

/// The line of a class: its numbers, its profile, and the texts of its members.
fn put_class(
    text: &mut Text,
    i: usize,
    rows: &InputRows,
    a: usize,
    profile: &[u32],
    members: &[u32],
) -> Result<(), NoMemory>
    requires { members.now ≡ members_of (map (λ row. row.violations) rows.now.candidates) profile.now }
    ensures { OnOk result (text.new ≡ text.old ++ reports.class_line i rows.now a profile.now) }
{
    text.put(b"class")?;
    text.output_field(i, a)?;
    put_profile(text, profile)?;
    put_members(text, rows, members)?;
    text.end_line()
}

/// The violations of a profile with a space between each two, as a field.
#[tactic(auto, using(crate::proofs::Led::led_spaced))]
fn put_profile(text: &mut Text, violations: &[u32]) -> Result<(), NoMemory>
    ensures { OnOk result (text.new ≡ text.old ++ 9 ∷ spaced violations.now) }
{
    if violations.is_empty() {
        return text.byte(b'\t');
    }
    put_numbers(text, b'\t', b' ', violations)
}

/// The texts of the candidates at these positions, each as a field.
fn put_members(text: &mut Text, rows: &InputRows, members: &[u32]) -> Result<(), NoMemory>
    requires { All (λ k. k < length rows.now.candidates) members.now }
    ensures { OnOk result (text.new ≡ text.old ++ flat_map (λ member. 9 ∷ member) (map (reports.text_at rows.now) members.now)) }
{
    let candidates = rows.candidates.as_slice();
    for k in members {
        text.field(candidates[*k as usize].text.bytes())?;
    }
    Ok(())
}
