//! The batches of writes that make a change, and those that clear disks.
//!
//! What a change writes is a list of batches, each lasting before the next begins: the zeros of a new volume; the empty headers of
//! a new physical volume's areas; label sectors; the three of a commit; and those that clear the disks which the group lets go.
//! Label sectors are also written again where the group goes on using their disks.
//! `specs/Batches` has them, `specs/Building` how they are put together, `specs/Sound` for which changes they can be made, and
//! `specs/Laws` what images keep on the way, and have afterwards.
#![tactic(auto)]

mod batches;
mod clears;
mod label_sector;
mod marked_labels;
mod zeros;

pub use batches::{batches_of, label_writes, push_batch, push_text};
pub use clears::{clears_of, push_clears};
pub use marked_labels::push_labels;
pub use zeros::zeros_of;
