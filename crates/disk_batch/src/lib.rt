//! Batches: writes of many spans, many of them in flight at once, and flushes behind them.
//!
//! A batch submits its writes, which complete in any order among other operations: all at once where each has its own
//! sectors. Parts of one text it writes in blocks, a bounded number at once: whenever an operation has completed the next
//! block is filled into the buffer that it brings back, and submitted. Once every write has completed well it submits a
//! flush of each of its disks, and it is through once these have completed well. Where one of its writes fails it submits
//! no flush, and says so once all that it submitted has completed.
//!
//! In `specs/`, `Writes` has what is written, `Parts` and `Blocks` how parts of a text are cut, `Rest` the writes that are
//! still to be submitted, `Views` a batch on its way as the layers above see it, `Submits` and `Batches` what its calls do
//! to the shelf, `Fits` what they ask of it, and `WriteAll` what a whole batch does where nothing else is in flight.
//! `Progress`, `Rounds`, `Flushed` and `Faults` say what a batch has made sure of among other operations, step by step:
//! which values a crash may leave, which disks are flushed, and which counts of faults have risen. Their laws stand in
//! `Laws`, and for any property of values in `proofs/`: `Rounding`, `Calling`, `Beside`, `Flushing`, `Faulting` and
//! `Written`. `InTurn` has batches that are carried out one after another, each lasting before the next begins: a crash
//! leaves the first so many of them whole, and of the next one each sector old or new. `flush_all` flushes each disk and writes
//! nothing (`Flushing`).
#![tactic(auto)]

mod alone;
mod batch;
mod batching;
mod blocks;
mod flush_disks;
mod in_turn;
mod laws;
mod rest;
mod submitting;
mod writes;

pub use alone::write_all;
pub use batch::{Batch, BatchRefused};
pub use batching::{BatchStep, Batching};
pub use flush_disks::flush_all;
pub use in_turn::{reserve_all, reserve_lists, write_in_turn};
pub use laws::batch_laws;
pub use writes::Writes;
