//! The machine of the search: any number of workers take, steal, judge and settle prefixes of choices, a step at a time and in
//! whatever order.
//!
//! Whatever list of steps it makes, each choice stands in one place, and the deeds of a finished machine are honest and
//! balanced, so that they give the typology: `laws` has these facts. The machine is this project's own. What it judges a prefix
//! by, the least hierarchy or the conditions that no ranking keeps, is after Tesar and Smolensky (Learnability in Optimality
//! Theory, 2000) and Prince (Entailed Ranking Arguments, 2002).
#![tactic(auto)]

mod finding;
mod hand;
mod laws;
mod machine;
mod queue;
mod step;

pub use finding::{fate_for, judge, judge_with};
pub use laws::{
    each_choice_stands_once, facts_are_kept, finished_deeds_tell_all, finished_where_empty,
};
pub use machine::{Machine, WORKER_LIMIT};
pub use refutation::Finding;
pub use step::{Step, StepRefused};
