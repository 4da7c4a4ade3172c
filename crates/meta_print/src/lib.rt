//! The metadata text of a group, in one layout that lvm2 reads.
#![tactic(auto)]

mod group;
mod laws;
mod lvs;
mod names;
mod pvs;
mod segments;
mod text;
mod words;

pub use laws::what_is_printed_is_read_again;
pub use text::{backup_text, printed_len, text_of};
