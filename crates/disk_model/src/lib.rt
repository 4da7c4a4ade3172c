//! The disk model: rows of disks, whose operations are queued and complete in any order.
//!
//! `Shelf` is the trait through which every layer above reads and writes disks. What holds of a shelf stands in
//! `specs/`: `Steps` has the disk steps and what a read gives after them, `CrashValues` what a crash may leave in each
//! sector, `State` all that is known of a shelf and what holds of every one, `Calls` what each call does to it, and
//! `Moments`, `Durability` and `Order` the words in which the layers above state their promises. Each written sector
//! is whole, old or new; a flush that completes well fixes every write that completed well before it was submitted.
//!
//! `run_one` carries one operation out.
#![tactic(auto)]

mod carry_out;
mod fault;
mod ops;
mod shelf;

pub use carry_out::{flush, put_sector, read_span, run_one};
pub use fault::DiskFault;
pub use ops::{Done, Op};
pub use shelf::Shelf;
