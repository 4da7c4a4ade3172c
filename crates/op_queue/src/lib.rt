//! What every shelf over queued operations has in common: the operations in flight, its counts, and its tags.
//!
//! `OpQueue` is all of a shelf but its disks. A shelf hands it what is reserved and submitted, takes operations out of it
//! to carry them out, and tells it how they went; the clauses say what each call does to the shelf's state, in the words
//! of `disk_model`. It tells no content: a shelf that does adds what it tells to the queue's state.
#![tactic(auto)]

mod queue;

pub use queue::{OpQueue, Waiting, disk_of};
