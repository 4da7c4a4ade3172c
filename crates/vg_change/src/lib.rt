//! A line that changes something, carried out on disks that were scanned, where nothing else is in flight.
//!
//! The line is judged by `group_ops`, and what it changes is written by the batches of `change_batches`. So at every moment a crash
//! leaves the first so many of them whole, and of the next one each sector old or new. `specs/LineBatches` has the batches of a
//! line, `specs/CarryingOut` what is promised, and `specs/LineLaws` what follows of the metadata areas and labels in every image.
#![tactic(auto)]

mod carrying;
mod fault;

pub use carrying::carry_out;
pub use fault::ChangeFault;
