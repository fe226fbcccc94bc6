//! Schedules: from a number, the steps that the machine of the search makes one after another until none is enabled.
//!
//! At each moment the enabled steps stand in a list, by worker, and for each worker Take, Steal from the first victim on, Consult,
//! Learn, Settle and Put. A number below the length of the list is drawn, and the step at that place is made. The list itself is
//! never written out: its steps are counted, the steals of an idle hand as the queues that are filled, and the drawn one is found
//! by passing over the workers before it. That a schedule ends is proved by a weight of all that waits, which each step lowers.
//! Schedules are this project's own.
#![tactic(auto)]

mod choosing;
mod laws;
mod schedule;

pub use laws::{schedule_has_one_run, schedule_is_a_run};
pub use schedule::finished_machine;
