//! One line as a candidate, behind the inputs of the lines before it.

ghost use Rattle.std.specs.Prelude.{◌≡◌, ◌+◌, ◌<◌, ◌≤◌, ℕ, [], ◌∷◌, ◌++◌, List, true, false, not, map, take, drop, length, OnOk, IfOk, Err, MatchOption, MatchResult};
ghost use Rattle.std.specs.Option.{option_copied};
ghost use Rattle.std.specs.List.{list_all, list_any, prefix_len, range_with_len};
ghost use Rattle.tab_cells.specs.Cells.{is_one_digit, digit_of, text_of};
ghost use Rattle.tableau_file.specs.Numbers.{value_of, is_violation, billionths};
ghost use Rattle.tableau_file.specs.Rows.{texts_of, cell, is_empty, constraint_cells, candidate_of, continues, with_row, is_blank};
ghost use Rattle.tableau_file.specs.Faults.{current, begins_input, candidates_before, all_candidates, input_faults, candidate_faults, number_faults, row_faults, IsFirst};

use crate::Why;
use crate::cells::{has_text, next_text};
use crate::numbers::{count_of, violation_of};
use erc_vectors::{LIMIT, List, NoMemory};
use ot_base::{CANDIDATE_LIMIT, CandidateRow, INPUT_LIMIT, InputRows, Label, ROW_LIMIT};
use std::alloc::Global;
use std::marker::Model;
use tab_cells::Cells;

/// Why a line gives nothing.
#[derive(Clone, Copy, Debug, PartialEq, Eq)]
pub(crate) enum LineError {
    Fault(Why),
    NoMemory,
}

impl From<Why> for LineError {
    ghost use Rattle.std.specs.Prelude.{◌≡◌};
    ghost use Rattle.tableau_file.specs.declared.row.LineError.TheVariants.{Fault};

    ghost from_gives = { λ why error. error ≡ Fault why };

    fn from(why: Why) -> LineError {
        LineError::Fault(why)
    }
}

impl From<NoMemory> for LineError {
    ghost use Rattle.std.specs.Prelude.{◌≡◌};
    ghost use Rattle.tableau_file.specs.declared.row.LineError.TheVariants as variants;

    ghost from_gives = { λ _ error. error ≡ variants.NoMemory };

    fn from(_error: NoMemory) -> LineError {
        LineError::NoMemory
    }
}

/// The inputs so far, and how many candidates they have in all.
#[derive(Debug, Drop)]
pub(crate) struct Inputs {
    list: List<InputRows>,
    candidates: usize,
}

impl Model for Inputs {
    ghost use Rattle.std.specs.Prelude.{◌≡◌, List};
    ghost use Rattle.ot_base.specs.declared.tableau.InputRows as rows;
    ghost use Rattle.tableau_file.specs.Faults.{all_candidates};

    ghost Value = { List rows.InputRows };

    ghost view = { λ inputs. inputs.list };

    ghost invariant = { λ inputs. inputs.candidates ≡ all_candidates inputs.list };
}

impl Inputs {
    pub(crate) fn new(alloc: Global) -> Inputs
        ensures { result ≡ [] }
    {
        Inputs {
            list: List::new(alloc),
            candidates: 0,
        }
    }

    pub(crate) fn into_list(self) -> List<InputRows>
        ensures { result ≡ self }
    {
        let Inputs {
            list,
            candidates: _,
        } = self;
        list
    }

    /// Takes the last input out.
    fn pop(&mut self) -> Option<InputRows>
        ensures { MatchOption result ((self.old ≡ []) × (self.new ≡ [])) (λ last. self.old ≡ self.new ++ last ∷ []) }
    {
        let last = self.list.pop()?;
        self.candidates -= last.candidates.len();
        Some(last)
    }

    /// Puts an input behind the others.
    fn push(&mut self, input: InputRows) -> Result<(), NoMemory>
        requires { all_candidates self.old + length input.candidates ≤ ROW_LIMIT }
        ensures { OnOk result (self.new ≡ self.old ++ input ∷ []) }
    {
        let candidates = input.candidates.len();
        self.list.push(input)?;
        self.candidates += candidates;
        Ok(())
    }

    /// The last input that has begun.
    fn current(&self) -> Option<&InputRows>
        ensures { option_copied result ≡ current self.now }
    {
        self.list.as_slice().last()
    }

    /// Whether a row with this text of its input begins an input.
    fn begins(&self, input: &[u8]) -> bool
        ensures { result ≡ begins_input self.now (input.now ∷ []) }
    {
        match self.current() {
            Some(last) => !continues(last, input),
            None => !input.is_empty(),
        }
    }

    /// The number of candidates that the input of a row with this text has so far.
    fn candidates_before(&self, input: &[u8]) -> usize
        ensures { result ≡ candidates_before self.now (input.now ∷ []) }
    {
        match self.current() {
            Some(last) if continues(last, input) => last.candidates.len(),
            _ => 0,
        }
    }

    /// Tells the first fault of the text of an input.
    fn check_input(&self, input: &[u8]) -> Result<(), Why>
        ensures { MatchResult result (λ _. input_faults self.now (input.now ∷ []) ≡ []) (λ why. IsFirst why (input_faults self.now (input.now ∷ []))) }
    {
        if input.is_empty() && self.list.len() == 0 {
            return Err(Why::NoInput);
        }
        if self.begins(input) && INPUT_LIMIT <= self.list.len() {
            return Err(Why::TooManyInputs);
        }
        Ok(())
    }

    /// Tells the first fault of the text of a candidate, in a row with this text of its input.
    fn check_candidate(&self, input: &[u8], text: &[u8]) -> Result<(), Why>
        ensures faults { MatchResult result (λ _. candidate_faults self.now (input.now ∷ text.now ∷ []) ≡ []) (λ why. IsFirst why (candidate_faults self.now (input.now ∷ text.now ∷ []))) }
        ensures few { OnOk result (all_candidates self.now < ROW_LIMIT) }
    {
        if text.is_empty() {
            return Err(Why::EmptyCandidate);
        }
        if CANDIDATE_LIMIT <= self.candidates_before(input) || ROW_LIMIT <= self.candidates {
            return Err(Why::TooManyCandidates);
        }
        Ok(())
    }

    /// Adds a candidate to the current input, or to a new one with this text.
    fn add(&mut self, alloc: Global, input: &[u8], row: CandidateRow) -> Result<(), NoMemory>
        requires { all_candidates self.old < ROW_LIMIT }
        ensures { OnOk result ((n : ℕ) (line : ℕ × List (List ℕ)) → cell line.1 0 ≡ input.now → candidate_of n line ≡ row → self.new ≡ with_row n self.old line) }
    {
        let Some(mut last) = self.pop() else {
            return self.push(input_of(alloc, input, row, 1)?);
        };
        if continues(&last, input) {
            last.candidates.push(row)?;
            return self.push(last);
        }
        let room = last.candidates.len();
        self.push(last)?;
        self.push(input_of(alloc, input, row, room)?)
    }
}

/// Whether a row with this text of its input continues the input before it.
fn continues(last: &InputRows, input: &[u8]) -> bool
    ensures { result ≡ continues last.now (input.now ∷ []) }
{
    input.is_empty() || input == last.text.bytes()
}

/// A new input with its first candidate, and with room for so many: most inputs have as many as the one before them.
fn input_of(
    alloc: Global,
    text: &[u8],
    row: CandidateRow,
    room: usize,
) -> Result<InputRows, NoMemory>
    ensures { IfOk result (λ input. input ≡ record { text = text.now; candidates = row ∷ [] }) }
{
    let text = Label::of(alloc, text)?;
    let mut candidates = List::from_vec(Vec::with_capacity(alloc, room)?);
    candidates.push(row)?;
    Ok(InputRows { text, candidates })
}

/// Whether all cells of a line are empty.
pub(crate) fn is_blank(line: &[u8]) -> bool
    ensures { result ≡ is_blank (texts_of line.now) }
{
    !has_text(tab_cells::cells(line))
}

/// The violations in the next n cells, or the fault of one that is none.
#[inline(never)]
fn violations_of(alloc: Global, n: usize, cells: &mut Cells<'_>) -> Result<List<u32>, LineError>
    ensures violations { IfOk result (λ violations. violations ≡ map value_of (map (cell (map text_of cells.old)) (range_with_len 0 n))) }
    ensures sound { OnOk result (list_all is_violation (map (cell (map text_of cells.old)) (range_with_len 0 n)) ≡ true) }
    ensures rest { OnOk result (cells.new ≡ drop n cells.old) }
    ensures fault { (why : Why) → result ≡ Err (LineError.Fault why) → (why ≡ Why.BadViolation) × (list_all is_violation (map (cell (map text_of cells.old)) (range_with_len 0 n)) ≡ false) }
{
    let mut violations = digits_of(alloc, n, cells)?;
    let taken = violations.len();
    for _ in taken..n {
        let violation = next_violation(alloc, cells)?;
        violations.push(violation)?;
    }
    Ok(violations)
}

/// The numbers in the next cells as long as each is one digit, at most n, in a list with room for n.
fn digits_of(alloc: Global, n: usize, cells: &mut Cells<'_>) -> Result<List<u32>, NoMemory>
    ensures numbers { IfOk result (λ list. list ≡ map digit_of (take (length list) cells.old)) }
    ensures digits { IfOk result (λ list. length list ≤ prefix_len is_one_digit cells.old) }
    ensures few { IfOk result (λ list. length list ≤ n) }
    ensures rest { IfOk result (λ list. cells.new ≡ drop (length list) cells.old) }
{
    let mut digits = [0; LIMIT];
    digits_in(alloc, n, &mut digits[..n.min(LIMIT)], cells)
}

/// The same, as many as there is room for here.
fn digits_in(
    alloc: Global,
    n: usize,
    digits: &mut [u32],
    cells: &mut Cells<'_>,
) -> Result<List<u32>, NoMemory>
    requires { length digits.old ≤ n }
    ensures numbers { IfOk result (λ list. list ≡ map digit_of (take (length list) cells.old)) }
    ensures digits { IfOk result (λ list. length list ≤ prefix_len is_one_digit cells.old) }
    ensures few { IfOk result (λ list. length list ≤ n) }
    ensures rest { IfOk result (λ list. cells.new ≡ drop (length list) cells.old) }
{
    let taken = cells.take_digits(digits);
    let mut list = Vec::with_capacity(alloc, n)?;
    list.extend_from_slice(&digits[..taken])?;
    Ok(List::from_vec(list))
}

/// The violation in the next cell, or the fault of one that is none. Past the end of the line it is 0.
fn next_violation(alloc: Global, cells: &mut Cells<'_>) -> Result<u32, LineError>
    ensures sound { OnOk result (is_violation (cell (map text_of cells.old) 0) ≡ true) }
    ensures value { IfOk result (λ violation. violation ≡ value_of (cell (map text_of cells.old) 0)) }
    ensures rest { cells.new ≡ drop 1 cells.old }
    ensures fault { (why : Why) → result ≡ Err (LineError.Fault why) → (why ≡ Why.BadViolation) × (is_violation (cell (map text_of cells.old) 0) ≡ false) }
{
    match cells.next() {
        Some(cell) => violation_in(alloc, cell),
        None => Ok(0),
    }
}

/// The violation in a cell, or the fault of one that is none. Most cells are one digit, whose text need not be cut out.
fn violation_in(alloc: Global, cell: &[u8]) -> Result<u32, LineError>
    ensures sound { OnOk result (is_violation (text_of cell.now) ≡ true) }
    ensures value { IfOk result (λ violation. violation ≡ value_of (text_of cell.now)) }
    ensures fault { (why : Why) → result ≡ Err (LineError.Fault why) → (why ≡ Why.BadViolation) × (is_violation (text_of cell.now) ≡ false) }
{
    match cell {
        [digit] if b'0' <= *digit && *digit <= b'9' => Ok(u32::from(*digit - b'0')),
        _ => spelled_violation(alloc, cell),
    }
}

/// The violation that the text of a cell spells.
fn spelled_violation(alloc: Global, cell: &[u8]) -> Result<u32, LineError>
    ensures sound { OnOk result (is_violation (text_of cell.now) ≡ true) }
    ensures value { IfOk result (λ violation. violation ≡ value_of (text_of cell.now)) }
    ensures fault { (why : Why) → result ≡ Err (LineError.Fault why) → (why ≡ Why.BadViolation) × (is_violation (text_of cell.now) ≡ false) }
{
    let text = tab_cells::unquote(alloc, cell)?;
    match violation_of(text.bytes()) {
        Some(violation) => Ok(violation),
        None => Err(LineError::Fault(Why::BadViolation)),
    }
}

/// The count in billionths and the n violations of a line of which the cells from the column of the count on are left, or
/// the first fault in them.
fn numbers_of(alloc: Global, n: usize, mut cells: Cells<'_>) -> Result<(u64, List<u32>), LineError>
    ensures sound { OnOk result ((all : List (List ℕ)) → cells.entry ≡ drop 2 all → number_faults n (map text_of all) ≡ []) }
    ensures count { IfOk result (λ numbers. (all : List (List ℕ)) → cells.entry ≡ drop 2 all → numbers.0 ≡ billionths (cell (map text_of all) 2)) }
    ensures violations { IfOk result (λ numbers. (all : List (List ℕ)) → cells.entry ≡ drop 2 all → numbers.1 ≡ map value_of (constraint_cells n (map text_of all))) }
    ensures fault { (why : Why) → result ≡ Err (LineError.Fault why) → (all : List (List ℕ)) → cells.entry ≡ drop 2 all → IsFirst why (number_faults n (map text_of all)) }
{
    let text = next_text(alloc, &mut cells)?;
    let Some(count) = count_of(text.bytes()) else {
        return Err(LineError::Fault(Why::BadCount));
    };
    let violations = violations_of(alloc, n, &mut cells)?;
    if has_text(cells) {
        return Err(LineError::Fault(Why::ExtraCell));
    }
    Ok((count, violations))
}

/// Adds the candidate of a line of n constraints, which has this number in its file, or tells its first fault.
pub(crate) fn add_row(
    alloc: Global,
    n: usize,
    inputs: &mut Inputs,
    number: u32,
    line: &[u8],
) -> Result<(), LineError>
    ensures sound { OnOk result (row_faults n inputs.old (texts_of line.now) ≡ []) }
    ensures added { OnOk result (inputs.new ≡ with_row n inputs.old (number, texts_of line.now)) }
    ensures fault { (why : Why) → result ≡ Err (LineError.Fault why) → IsFirst why (row_faults n inputs.old (texts_of line.now)) }
{
    let mut cells = tab_cells::cells(line);
    let input = next_text(alloc, &mut cells)?;
    inputs.check_input(input.bytes())?;
    let text = next_text(alloc, &mut cells)?;
    inputs.check_candidate(input.bytes(), text.bytes())?;
    let (count, violations) = numbers_of(alloc, n, cells)?;
    let row = CandidateRow {
        text: Label::of(alloc, text.bytes())?,
        count,
        violations,
        line: number,
    };
    inputs.add(alloc, input.bytes(), row)?;
    Ok(())
}
