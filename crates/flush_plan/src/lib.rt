//! Which completed writes a flush has made stable.
//!
//! A disk keeps what was written to it through a crash once a flush that was submitted after the write's completion has
//! completed well. A `FlushPlan` is told of each write that completed well, of each flush that was submitted, and how that
//! flush went, and says of each write whether it is stable, and of each disk whether a flush is wanted. One flush serves
//! all writes that completed before it was submitted; one that failed isn't wanted again for the same writes.
//!
//! All completed writes have one order, and a disk's marks are places in it. So no call takes longer with more writes held;
//! `wants`, `flushed` and `lost` take longer with more flushes in flight. A write that nobody asks for any more, as one that
//! is stable, is forgotten by a call, so what the plan keeps doesn't grow with what was written.
#![tactic(auto)]

mod laws;
mod plan;
mod records;

pub use laws::stable_is_flushed_after;
pub use plan::FlushPlan;
pub use records::{Flush, Marks, Write};
