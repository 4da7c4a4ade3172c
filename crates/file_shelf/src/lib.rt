//! The trusted edge: files as a row of disks, and standard input and output as streams.
//!
//! `FileShelf` meets the contract of a shelf that tells no content: which operations are in flight, which tags they have,
//! how many steps and faults there were. `StdSource` and `StdSink` meet those of streams that tell no bytes. What the
//! operating system does with a call is trusted; what is made of its answer stands in small functions with clauses of
//! their own (`answering.rt`, `trying.rt`, `sizes.rt`, `descriptors.rt`), and the rest is tried by files and streams that fail
//! by plan.
#![tactic(auto)]

mod adjacent;
mod answering;
mod carrier;
mod copying;
mod descriptors;
mod file_shelf;
mod image;
mod locking;
mod opening;
mod sizes;
mod std_streams;
mod transfer;
mod trying;

pub use file_shelf::FileShelf;
pub use image::{Access, ImageFile, OpenCause};
pub use opening::OpenFault;
pub use std_streams::{StdSink, StdSource};
