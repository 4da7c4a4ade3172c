//! What stands on one disk of lvm2's: its label, its physical volume header and the headers of its metadata areas, as
//! the readers of the crates below tell it.
//!
//! It reads and never writes. What it finds is plain data, which the sectors determine.
#![tactic(auto)]

mod area_headers;
mod contents;
mod find;
mod laws;
mod read_refusal;
mod reading;

pub use contents::{AreaFound, AreasFound, PvFound};
pub use find::find_pv;
pub use laws::one_finding;
pub use read_refusal::ReadRefusal;
pub use reading::{read_into, read_sectors};
