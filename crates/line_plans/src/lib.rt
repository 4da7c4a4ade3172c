//! What a line that reads, writes or flushes a volume needs, before it is begun.
//!
//! `prepare` judges the line, cuts it into pieces with what they bring, and takes all its memory, beside what lines under way may still
//! use up. `specs/Judging` has the refusals in their order, `specs/Plans` what a line is to be.
#![tactic(auto)]

mod judging;
mod preparing;

pub use preparing::{NewPiece, Plan, prepare};
