//! What waits until writes last.
//!
//! A disk keeps what was written to it through a crash once a flush that was submitted behind the write has completed well. A
//! piece of a line that is through, and a line that flushes its volume, wait for writes on disks; `FlushWaits` keeps them beside
//! the plan of flushes. One flush of a disk is in flight at the most; it serves all that waits there when it is submitted, and
//! also what begins to wait for a write that had completed by then. When it has ended, what it served is released, one by one.
//!
//! Who waits brings the room with him, by a ticket. So no call but `new`, `reserve` and `Ticket::new` takes memory, and none takes
//! longer with more that waits.
#![tactic(auto)]

mod disk_waits;
#[cfg(test)]
mod tests;
mod ticket;
mod waits;

pub use ticket::{Ticket, Waiter, Waiting};
pub use waits::{Awaited, FlushWaits};
