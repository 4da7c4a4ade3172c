//! The label of a physical volume: which of the first four sectors holds lvm2's label header, and the label of what is
//! written.
//!
//! A label is found exactly where one of the sectors 0 to 3 passes every test of lvm2's on-disk format for its own
//! number; the first that does is the label. A refusal is that of the lowest sector that begins like a label.
#![tactic(auto)]

mod read;
mod refusal;
mod seal;

pub use read::{LABEL_SECTORS, LabelFound, begins_like_label, read_label};
pub use refusal::LabelRefusal;
pub use seal::seal_label;
