//! The demonstration file of a number: a tableau to try the program on, which needs no file of a linguist.
//!
//! It has twelve constraints and twenty inputs of five candidates. The inputs belong to four groups, each of which owns three of the
//! constraints; only these have violations, which `number_draws` draws. So rankings inside a group decide its inputs, and the file
//! has at most 1,296 languages, the fourth power of the 6 rankings of three constraints. The file is this project's own.
#![tactic(auto)]

ghost use Rattle.std.specs.Prelude.{◌≡◌, ◌≤◌, ◌∷◌, ◌++◌, ◌==◌, ◌-◌, ◌%◌, if◌then◌else◌, IfOk, OnOk, codes, decimal, flat_map, length, slice_index, Ok};
ghost use Rattle.tableau_file.specs.Reading.{reading};
ghost use Rattle.tableau_file.specs.Rows.{tableau_of};
ghost use Rattle.demonstration_file.specs.declared.TheConstants.{FILE_BYTES};
ghost use Rattle.std.specs.List.{range_with_len};
ghost use Rattle.demonstration_file.specs.Demonstration as made;

mod text;

use crate::text::Text;
use erc_vectors::NoMemory;
use number_draws::Generator;
use ot_base::Label;
use std::alloc::Global;

/// How many constraints the file has.
const CONSTRAINTS: usize = 12;

/// How many inputs the file has.
const INPUTS: usize = 20;

/// How many candidates each input has.
const CANDIDATES: usize = 5;

/// How many groups there are.
const GROUPS: usize = 4;

/// How many constraints each group owns.
const OWNED: usize = 3;

/// A violation is drawn below this number.
const DRAWN_BELOW: usize = 3;

/// How many bytes the file has, whatever its number.
pub const FILE_BYTES: usize = 3_310;

/// The bytes of the demonstration file of a number. `tableau_file` accepts them, and reads them as the tableau of their table.
pub fn demonstration_file(alloc: Global, number: u64) -> Result<Label, NoMemory>
    ensures file { IfOk result (λ file. file ≡ made.demonstration_file number) }
    ensures length { IfOk result (λ file. length file ≡ FILE_BYTES) }
    ensures accepted { IfOk result (λ file. reading file ≡ Ok (tableau_of 12 (made.table number))) }
{
    let mut text = Text::new(alloc);
    put_header(&mut text)?;
    put_header(&mut text)?;
    let mut generator = Generator::new(number);
    for k in 0..INPUTS {
        put_input(&mut text, &mut generator, k + 1)?;
    }
    Ok(text.into_label())
}

/// The line of the names of the constraints, or that of their abbreviations.
fn put_header(text: &mut Text) -> Result<(), NoMemory>
    ensures { OnOk result (text.new ≡ text.old ++ made.line made.header) }
{
    text.put(b"\t\t")?;
    for c in 0..CONSTRAINTS {
        text.put(b"\tC")?;
        text.number(c + 1)?;
    }
    text.put(b"\n")
}

/// The rows of an input, by its number from 1 on.
fn put_input(text: &mut Text, generator: &mut Generator, k: usize) -> Result<(), NoMemory>
    requires { 1 ≤ k }
    ensures rows { OnOk result (text.new ≡ text.old ++ flat_map made.line (made.input_rows generator.old k)) }
    ensures state { OnOk result (generator.new ≡ made.state_after generator.old 15) }
{
    for j in 0..CANDIDATES {
        put_row(text, generator, k, j + 1)?;
    }
    Ok(())
}

/// The row of a candidate of an input, by their numbers from 1 on.
fn put_row(text: &mut Text, generator: &mut Generator, k: usize, j: usize) -> Result<(), NoMemory>
    requires { 1 ≤ k }
    ensures row { OnOk result (text.new ≡ text.old ++ made.line (made.candidate_row generator.old k j)) }
    ensures state { OnOk result (generator.new ≡ made.state_after generator.old 3) }
{
    let drawn = [
        generator.below(DRAWN_BELOW),
        generator.below(DRAWN_BELOW),
        generator.below(DRAWN_BELOW),
    ];
    put_texts(text, k, j)?;
    put_violations(text, (k - 1) % GROUPS, &drawn)?;
    text.put(b"\n")
}

/// The first three cells of a row: the input, the candidate, and the count. The first and the third are empty but on the first row of
/// an input.
fn put_texts(text: &mut Text, k: usize, j: usize) -> Result<(), NoMemory>
    ensures { OnOk result (text.new ≡ text.old ++ made.on_first j (made.input_name k) ++ 9 ∷ made.candidate_name k j ++ 9 ∷ made.on_first j (codes "1")) }
{
    let first = j == 1;
    if first {
        text.put(b"i")?;
        text.number(k)?;
    }
    text.put(b"\ti")?;
    text.number(k)?;
    text.put(b"c")?;
    text.number(j)?;
    text.put(if first { b"\t1" } else { b"\t" })
}

/// The violations of a candidate of an input of a group, each behind a tab.
fn put_violations(text: &mut Text, group: usize, drawn: &[usize; OWNED]) -> Result<(), NoMemory>
    ensures { OnOk result (text.new ≡ text.old ++ flat_map (λ c. 9 ∷ decimal (if made.group_of_constraint c == group then slice_index drawn.now ((c - 1) % 3) else 0)) (range_with_len 1 12)) }
{
    for c in 0..CONSTRAINTS {
        let violation = if c / OWNED == group {
            drawn[c % OWNED]
        } else {
            0
        };
        text.put(b"\t")?;
        text.number(violation)?;
    }
    Ok(())
}
