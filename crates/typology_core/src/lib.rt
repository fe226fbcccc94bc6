//! The core of the search for a typology: the search of one worker, and that of several under the schedule of a number; and, made
//! public here, the deeds of any search, what they give, and the machine of the search.
//!
//! The search of one worker walks through the prefixes of choices depth first and in class order, so that languages, cuts and
//! certificates come in their order and no prefix waits; and it counts how often demotion judges a prefix in a search that
//! opens the shorter ones first and keeps what it learns of refuted ones: the Learn steps of one worker on the machine. A
//! typology is all choices that some ranking makes optimal (factorial typology, after Prince and Smolensky), each with its least
//! hierarchy (Tesar and Smolensky, Learnability in Optimality Theory, 2000), and all shortest refuted prefixes, each with a
//! contradiction that shows it (Prince, Entailed Ranking Arguments, 2002). The cuts, the certificates and the walk are this
//! project's own.
#![tactic(auto)]

mod laws;
mod learning;
mod schedule;
mod search;
mod walk;

pub use laws::{lone_search_has_one_run, lone_search_is_a_run};
pub use ot_base::PLACE_LIMIT;
pub use schedule::run_schedule;
pub use search::{Alone, search_alone, typology_of};
pub use search_deeds::{Deed, Deeds, Fate, deeds_go, gather};
pub use search_machine::{
    Machine, Step, StepRefused, WORKER_LIMIT, each_choice_stands_once, facts_are_kept,
    finished_deeds_tell_all, finished_where_empty,
};
pub use search_schedule::{schedule_has_one_run, schedule_is_a_run};
