//! Which step is drawn among those that are enabled.

ghost use Rattle.std.specs.Prelude.{◌≡◌, ◌≤◌, ◌<◌, ◌+◌, [], true, length, count_by, slice_get, take, if◌then◌else◌, IfSome, IfNone, Some};
ghost use Rattle.number_draws.specs.Draws.{next_state};
ghost use Rattle.ot_theory.specs.Rankings.{numbers_below};
ghost use Rattle.search_machine.specs.Machine.{is_empty, is_enabled, is_filled};
ghost use Rattle.search_machine.specs.declared.machine.TheConstants.{WORKER_LIMIT};
ghost use Rattle.search_schedule.specs.Schedules.{IsDrawn, enabled_of, enabled_steps, steps_of};

use number_draws::Generator;
use search_machine::{Machine, Step, WORKER_LIMIT};

/// How many queues are not empty.
fn filled_queues(machine: &Machine) -> usize
    ensures { result ≡ count_by (is_filled machine.now.state.queues) (numbers_below (length machine.now.state.hands)) }
{
    let mut filled = 0;
    for v in 0..machine.workers() {
        filled += one_if(machine.is_filled(v));
    }
    filled
}

fn one_if(condition: bool) -> usize
    ensures { result ≡ (if condition then 1 else 0) }
{
    if condition { 1 } else { 0 }
}

/// How many steps of a worker are enabled, where so many queues are filled. One whose hand is empty may take or steal from each
/// of these. Of one whose hand is not, either Learn or Settle is.
fn enabled_of(machine: &Machine, w: usize, filled: usize) -> usize
    requires worker { w < length machine.now.state.hands }
    requires few { length machine.now.state.hands ≤ WORKER_LIMIT }
    requires filled { filled ≡ count_by (is_filled machine.now.state.queues) (numbers_below (length machine.now.state.hands)) }
    ensures enabled { result ≡ length (enabled_of machine.now.state w) }
    ensures few { result ≤ WORKER_LIMIT + 4 }
{
    let put = one_if(machine.may_put(w));
    if machine.is_idle(w) {
        return filled + put;
    }
    let consult = one_if(machine.may_consult(w));
    consult + 1 + put
}

/// How many steps are enabled, where so many queues are filled.
fn enabled_steps(machine: &Machine, filled: usize) -> usize
    requires few { length machine.now.state.hands ≤ WORKER_LIMIT }
    requires filled { filled ≡ count_by (is_filled machine.now.state.queues) (numbers_below (length machine.now.state.hands)) }
    ensures count { result ≡ length (enabled_steps machine.now.state) }
    ensures empty { result ≡ 0 → is_empty machine.now.state ≡ true }
{
    let mut enabled = 0;
    for w in 0..machine.workers() {
        enabled += enabled_of(machine, w, filled);
    }
    enabled
}

/// The step at a place among all steps of a worker, enabled or not.
fn step_at(workers: usize, w: usize, place: usize) -> Step
    requires few { workers ≤ WORKER_LIMIT }
    requires place { place < workers + 5 }
    ensures { slice_get (steps_of workers w) place ≡ Some result }
{
    if place == 0 {
        return Step::Take(w);
    }
    if place <= workers {
        return Step::Steal(w, place - 1);
    }
    match place - workers - 1 {
        0 => Step::Consult(w),
        1 => Step::Learn(w),
        2 => Step::Settle(w),
        _ => Step::Put(w),
    }
}

/// The place among all steps of a worker from which on some may be enabled: one whose hand is not empty takes and steals nothing.
fn first_of(machine: &Machine, w: usize) -> usize
    requires { length machine.now.state.hands ≤ WORKER_LIMIT }
    ensures few { result ≤ length machine.now.state.hands + 1 }
    ensures none { count_by (is_enabled machine.now.state) (take result (steps_of (length machine.now.state.hands) w)) ≡ 0 }
{
    if machine.is_idle(w) {
        return 0;
    }
    let workers = machine.workers();
    workers + 1
}

/// The step at a place among those of a worker that are enabled.
fn nth_of(machine: &Machine, w: usize, place: usize) -> Option<Step>
    requires few { length machine.now.state.hands ≤ WORKER_LIMIT }
    ensures step { result ≡ slice_get (enabled_of machine.now.state w) place }
    ensures enabled { IfSome result (λ step. is_enabled machine.now.state step ≡ true) }
{
    let workers = machine.workers();
    let first = first_of(machine, w);
    let mut left = place;
    for k in first..workers + 5 {
        let step = step_at(workers, w, k);
        if machine.enabled(step) {
            if left == 0 {
                return Some(step);
            }
            left -= 1;
        }
    }
    None
}

/// The step at a place among those that are enabled, where so many queues are filled.
fn nth_enabled(machine: &Machine, filled: usize, place: usize) -> Option<Step>
    requires few { length machine.now.state.hands ≤ WORKER_LIMIT }
    requires filled { filled ≡ count_by (is_filled machine.now.state.queues) (numbers_below (length machine.now.state.hands)) }
    ensures step { result ≡ slice_get (enabled_steps machine.now.state) place }
    ensures enabled { IfSome result (λ step. is_enabled machine.now.state step ≡ true) }
{
    let mut left = place;
    for w in 0..machine.workers() {
        let enabled = enabled_of(machine, w, filled);
        if left < enabled {
            return nth_of(machine, w, left);
        }
        left -= enabled;
    }
    None
}

/// Draws a step among those that are enabled. None where none is.
pub(crate) fn next_step(machine: &Machine, generator: &mut Generator) -> Option<Step>
    requires few { length machine.now.state.hands ≤ WORKER_LIMIT }
    ensures drawn { IfSome result (λ step. IsDrawn generator.old machine.now.state step) }
    ensures enabled { IfSome result (λ step. is_enabled machine.now.state step ≡ true) }
    ensures generator { IfSome result (λ step. generator.new ≡ next_state generator.old) }
    ensures ended { IfNone result (enabled_steps machine.now.state ≡ []) }
    ensures empty { IfNone result (is_empty machine.now.state ≡ true) }
{
    let filled = filled_queues(machine);
    let enabled = enabled_steps(machine, filled);
    if enabled == 0 {
        return None;
    }
    let place = generator.below(enabled);
    nth_enabled(machine, filled, place)
}
