//! The scan of disks: the group in force by the copies of its metadata that the disks hold, and what is stale, stray, old, missing
//! or unread.
//!
//! What a scan finds is a function of the disks' sectors: how each metadata area reads, and the decision over all readings. A
//! scan reads and never writes, and goes on with the other disks where a read fails.
#![tactic(auto)]

mod area;
mod collected;
mod disk;
mod judge;
mod laws;
mod outcome;
mod scanning;
mod text_sectors;

pub use laws::one_reading;
pub use scanning::{ScanStopped, scan};
