//! The lines that a run has begun, its journal, and its answers.
//!
//! A `LineTable` is seen as the lines that were begun, the journal, the oldest entry first, and of each line its number and
//! its answer, if it has one. Each call appends the one entry that it names and changes nothing else of the journal; an
//! answer is kept for its line as it was handed in. `specs/Machine` is the volume machine that a journal is held against:
//! what logical volumes hold, as plain lists of sectors.
#![tactic(auto)]

mod journal;
mod table;

pub use journal::{Answers, EntryKind, Journal, JournalEntry};
pub use table::LineTable;
