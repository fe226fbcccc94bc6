//! The report of a factorial typology, read from its bytes.
//!
//! What is read are the languages, each with a hierarchy of strata (Tesar and Smolensky 2000), the certificates, each the
//! terms of conditions that no ranking keeps together (Prince 2002), and the prefixes of choices that they refute. The lines,
//! their fields and their order are this project's own, and so is the grammar, whose lines are judged from the first one on:
//! `specs/Fields.antt` says what fields spell, `specs/Shapes.antt` what a line has, and `specs/Grammar.antt` which line may
//! stand where. These definitions share nothing with those of writing.
#![tactic(auto)]

mod blocks;
mod fields;
mod lines;
mod misread;
mod pieces;
mod reading;

pub use reading::{REPORT_LIMIT, TextError, read_typology_text};
