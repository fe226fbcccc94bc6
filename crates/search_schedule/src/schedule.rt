//! The run of a schedule.

ghost use Rattle.std.specs.Prelude.{◌≡◌, ◌≤◌, true, if◌then◌else◌, IfOk, OnOk};
ghost use Rattle.ot_base.specs.Causes.{next_number};
ghost use Rattle.ot_base.specs.declared.limits.TheConstants.{PLACE_LIMIT};
ghost use Rattle.search_machine.specs.Machine.{Leads, is_empty, is_enabled, is_learn};
ghost use Rattle.search_machine.specs.declared.machine.TheConstants.{WORKER_LIMIT};
ghost use Rattle.search_schedule.specs.Schedules.{IsRunOf};

use crate::choosing::next_step;
use erc_vectors::NoMemory;
use number_draws::Generator;
use search_machine::{Machine, Step};
use std::alloc::Global;
use violation_profiles::Problem;

/// Makes a step that is enabled.
fn make(machine: &mut Machine, step: Step) -> Result<(), NoMemory>
    requires { is_enabled machine.old.state step ≡ true }
    ensures leads { OnOk result (Leads machine.old.problem machine.old.places machine.old.state step machine.new.state) }
    ensures problem { machine.new.problem ≡ machine.old.problem }
    ensures places { machine.new.places ≡ machine.old.places }
    ensures learns { OnOk result (machine.new.learns ≡ (if is_learn step then next_number machine.old.learns else machine.old.learns)) }
{
    machine.step(step).map_err(|_| NoMemory)
}

/// The machine of the search of a problem, with 1 to 64 workers and at most 4,096 places, after all steps of the schedule of a
/// number. No step is enabled any more, so its deeds give the typology, whatever the number is.
pub fn finished_machine<'p>(
    alloc: Global,
    p: &'p Problem,
    workers: usize,
    places: usize,
    number: u64,
) -> Result<Machine<'p>, NoMemory>
    requires some { 1 ≤ workers }
    requires few { workers ≤ WORKER_LIMIT }
    requires places { places ≤ PLACE_LIMIT }
    ensures problem { IfOk result (λ machine. machine.problem ≡ p.now) }
    ensures run { IfOk result (λ machine. IsRunOf p.now workers places number machine.state machine.learns) }
    ensures empty { IfOk result (λ machine. is_empty machine.state ≡ true) }
{
    let mut machine = Machine::new(alloc, p, workers, places)?;
    let mut generator = Generator::new(number);
    while let Some(step) = next_step(&machine, &mut generator) {
        make(&mut machine, step)?;
    }
    Ok(machine)
}
