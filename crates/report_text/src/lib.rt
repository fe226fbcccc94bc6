//! The texts of reports, whole and as bytes.
//!
//! A report tells what was found of a tableau: its factorial typology, which is the languages, each with a hierarchy of strata
//! (Tesar and Smolensky 2000), and the prefixes of choices that are none, each with conditions that no ranking keeps together
//! and their fusion (Prince 2002); or which class of each input wins (a candidate with its count, as an OTSoft file has it), and
//! the strata of a hierarchy with a tableau of each input whose rows mark the fatal violation of each loser, as tableaux are
//! drawn since Prince and Smolensky (1993). It also lists what all rankings share that make the winners optimal, as covers
//! (Prince 2002) or as two bases (after Brasoveanu and Prince 2011), and which output implies which. Of the demonstration file it
//! tells how much was found. The lines, their fields
//! and their order are this project's own.
//!
//! The report of a typology is read by `report_reader`, whose call stands here too.
#![tactic(auto)]

mod bases;
mod contradiction;
mod demo;
mod hasse;
mod head;
mod hierarchy;
mod laws;
mod numbers;
mod prefixes;
mod rank;
mod tableaux;
mod terms;
mod text;
mod torder;
mod typology;
mod winners;

pub use bases::bases_text;
pub use contradiction::contradiction_text;
pub use demo::demo_text;
pub use hasse::hasse_text;
pub use laws::{
    answer_is_read_back, found_is_printable, report_is_read_back, report_limit_in_digits,
};
pub use rank::rank_text;
pub use report_reader::{REPORT_LIMIT, TextError, read_typology_text};
pub use torder::torder_text;
pub use typology::{compact_typology_text, typology_text};
