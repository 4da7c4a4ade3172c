//! The world: volumes over a shelf, with many lines under way.
//!
//! A line that reads, writes or flushes is begun, cut into pieces, and answered once they are done. Each call is one event: a line
//! is begun, or one operation completes; what may start then starts, and what is done is answered. `begin` takes all memory of its
//! line, and no other call takes any. Each event is a list of acts (`world_acts`), and between events nothing is left to do
//! (`specs/Rest`).
#![tactic(auto)]

mod answering;
mod beginning;
mod data_line;
mod driven;
mod ending;
mod flushing;
mod starting;
mod world;

pub use data_line::{DataLine, runs_beside};
pub use world::{BeginRefused, Begun, Finished, OpenRefused, World};
