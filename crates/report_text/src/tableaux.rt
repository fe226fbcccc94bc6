//! The tableau of each input that has a winner, with its columns in the order of a ranking.

ghost use Rattle.std.specs.Prelude.{◌≡◌, ◌+◌, ◌<◌, ◌≤◌, ◌∷◌, [], ◌++◌, ℕ, List, length, codes, decimal, flat_map, map, take, drop, slice_get, slice_index, IfNone, IfSome, OnOk, Some};
ghost use Rattle.std.specs.Option.{option_map_or};
ghost use Rattle.std.specs.List.{enumerate_from};
ghost use Rattle.ot_theory.specs.Problems.{Input};
ghost use Rattle.ot_theory.specs.Languages.{classes_at, profile_at};
ghost use Rattle.ot_base.specs.declared.limits.TheConstants.{INPUT_LIMIT, CANDIDATE_LIMIT};
ghost use Rattle.ot_theory.specs.Rankings.{IsRanking};
ghost use Rattle.report_text.specs.Posed.{Poses};
ghost use Rattle.report_text.specs.Spelling.{behind, line, marked};
ghost use Rattle.report_text.specs.Reports as reports;

use crate::numbers::put_numbers;
use crate::text::Text;
use erc_vectors::{LIMIT, NoMemory, Order};
use ot_base::{ClassId, InId, InputRows, Tableau};
use violation_profiles::Problem;

/// The tableaux of the inputs that have a winner, in file order.
pub(crate) fn put_tableaux(
    text: &mut Text,
    order: &Order,
    tableau: &Tableau,
    problem: &Problem,
) -> Result<(), NoMemory>
    requires poses { Poses tableau.now problem.now }
    requires few { length tableau.now.inputs ≤ INPUT_LIMIT }
    requires width { length order.now ≡ problem.now.constraints }
    requires ranking { IsRanking (length order.now) order.now }
    ensures { OnOk result (text.new ≡ text.old ++ reports.tableaux order.now tableau.now problem.now) }
{
    for (i, rows) in tableau.inputs.as_slice().iter().enumerate() {
        put_tableau(text, order, InId(i as u32), rows, problem)?;
    }
    Ok(())
}

/// The tableau of an input, and nothing where it has no winner.
fn put_tableau(
    text: &mut Text,
    order: &Order,
    i: InId,
    rows: &InputRows,
    problem: &Problem,
) -> Result<(), NoMemory>
    requires within { i.0 < length problem.now.inputs }
    requires width { length order.now ≡ problem.now.constraints }
    requires ranking { IsRanking (length order.now) order.now }
    ensures { OnOk result ((input : Input) → slice_get problem.now.inputs i.0 ≡ Some input
        → text.new ≡ text.old ++ option_map_or (reports.tableau_lines order.now (i.0 + 1) rows.now input.classes) input.winner []) }
{
    match problem.winner(i) {
        Some(winner) => put_tableau_of(text, order, i, winner, rows, problem),
        None => Ok(()),
    }
}

/// The tableau of an input with a winner: its text, the ranking, and a row for each class.
fn put_tableau_of(
    text: &mut Text,
    order: &Order,
    i: InId,
    winner: ClassId,
    rows: &InputRows,
    problem: &Problem,
) -> Result<(), NoMemory>
    requires within { i.0 < length problem.now.inputs }
    requires class { winner.0 < length (classes_at problem.now i.0) }
    requires width { length order.now ≡ problem.now.constraints }
    requires ranking { IsRanking (length order.now) order.now }
    ensures { OnOk result (text.new ≡ text.old ++ reports.tableau_lines order.now (i.0 + 1) rows.now (classes_at problem.now i.0) winner.0) }
{
    text.put(b"tableau")?;
    text.number_field(i.0 as usize + 1)?;
    text.field(rows.text.bytes())?;
    text.end_line()?;
    put_order(text, order)?;
    put_rows(text, order, i, winner, problem)
}

/// The numbers of the constraints, the highest first.
fn put_order(text: &mut Text, order: &Order) -> Result<(), NoMemory>
    ensures { OnOk result (text.new ≡ text.old ++ line (codes "order" ∷ map (λ c. decimal (c + 1)) order.now)) }
{
    text.put(b"order")?;
    for k in 0..order.width() {
        text.number_field(order.at(k).0 as usize + 1)?;
    }
    text.end_line()
}

/// A row for each class of an input.
fn put_rows(
    text: &mut Text,
    order: &Order,
    i: InId,
    winner: ClassId,
    problem: &Problem,
) -> Result<(), NoMemory>
    requires within { i.0 < length problem.now.inputs }
    requires class { winner.0 < length (classes_at problem.now i.0) }
    requires width { length order.now ≡ problem.now.constraints }
    requires ranking { IsRanking (length order.now) order.now }
    ensures { OnOk result (text.new ≡ text.old
        ++ flat_map (λ (a, profile). reports.row_line order.now winner.0 (profile_at problem.now i.0 winner.0) a profile) (enumerate_from 0 (classes_at problem.now i.0))) }
{
    let winning = in_order(order, problem.profile(i, winner));
    for a in 0..problem.classes(i) {
        let profile = problem.profile(i, ClassId(a as u16));
        put_row(text, order, winner, &winning[..order.width()], a, profile)?;
    }
    Ok(())
}

/// The violations of a profile in the order of a ranking.
fn in_order(order: &Order, profile: &[u32]) -> [u32; LIMIT]
    requires { length profile.now ≡ length order.now }
    ensures { take (length order.now) result ≡ map (slice_index profile.now) order.now }
{
    let mut violations = [0; LIMIT];
    for k in 0..order.width() {
        violations[k] = profile[order.at(k).0 as usize];
    }
    violations
}

/// The row of a class: its number, whether it is the winner, and its violations in the order of the ranking. Those of the winner
/// stand in that order already.
fn put_row(
    text: &mut Text,
    order: &Order,
    winner: ClassId,
    winning: &[u32],
    a: usize,
    profile: &[u32],
) -> Result<(), NoMemory>
    requires winning { length winning.now ≡ length order.now }
    requires profile { length profile.now ≡ length order.now }
    requires ranking { IsRanking (length order.now) order.now }
    requires small { a < CANDIDATE_LIMIT }
    ensures { OnOk result ((w : List ℕ) → winning.now ≡ map (slice_index w) order.now
        → text.new ≡ text.old ++ reports.row_line order.now winner.0 w a profile.now) }
{
    let violations = in_order(order, profile);
    text.put(b"row")?;
    text.number_field(a + 1)?;
    text.field(sign(a == winner.0 as usize))?;
    put_violations(text, winning, &violations[..order.width()])?;
    text.end_line()
}

/// The sign of the winner, and of any other class.
fn sign(wins: bool) -> &'static [u8]
    ensures { result.now ≡ reports.sign wins }
{
    if wins { b">" } else { b"-" }
}

/// The violations of a class, each as a field, with a mark behind the fatal one.
#[tactic(auto, using(crate::proofs::Marked::put_marked, crate::proofs::Marked::put_unmarked))]
fn put_violations(text: &mut Text, winning: &[u32], violations: &[u32]) -> Result<(), NoMemory>
    requires { length violations.now ≡ length winning.now }
    ensures { OnOk result (text.new ≡ text.old ++ marked violations.now winning.now) }
{
    let Some(k) = fatal(winning, violations) else {
        return put_numbers(text, b'\t', b'\t', violations);
    };
    let (upto, behind) = violations.split_at(k + 1);
    put_numbers(text, b'\t', b'\t', upto)?;
    text.put(b"!")?;
    put_numbers(text, b'\t', b'\t', behind)
}

/// The first place at which the violations differ from the winner's.
#[tactic(auto, using(crate::proofs::Marked::marked_same, crate::proofs::Marked::marked_differs, crate::proofs::Marked::marked_past))]
fn fatal(winning: &[u32], violations: &[u32]) -> Option<usize>
    requires { length violations.now ≡ length winning.now }
    ensures some { IfSome result (λ k. k < length violations.now × marked violations.now winning.now
        ≡ behind 9 (take (k + 1) violations.now) ++ codes "!" ++ behind 9 (drop (k + 1) violations.now)) }
    ensures none { IfNone result (marked violations.now winning.now ≡ behind 9 violations.now) }
{
    for k in 0..violations.len() {
        if violations[k] != winning[k] {
            return Some(k);
        }
    }
    None
}
