//! Batches that are carried out one after another, among other operations.
//!
//! A queue has the batches that are still to be carried out, and nothing in flight. Started, it takes the completions of its next
//! batch one by one, until that is through and the queue is at rest again, or an operation failed. Whoever holds the queue
//! decides when the next batch starts: so a commit can be held back before it is published.
//!
//! In `specs/`, `Queues` has what the calls do, and `Lasting` what a queue has made sure of, whatever goes on beside it: in each of
//! its sectors a crash leaves only what the batches that are through leave, over some value that the sector could have at the
//! start, or what the batch on its way writes there. So each image is one on the way of these batches, over a base of its own.
//! `Settling` has sectors that a batch doesn't write, and of which its flushes leave one value, and `Laws` the laws.
#![tactic(auto)]

mod laws;
mod queue;

pub use laws::{queue_laws, settling_laws};
pub use queue::{Queue, TurnStep, Turning};
