//! The physical volume header of lvm2's on-disk format: the id of a physical volume, the device's size, its data areas
//! and its metadata areas. It follows the label in the label's sector.
//!
//! A sector is read exactly where it has such a header and the areas can lie on the disk, and else refused by the first
//! test that fails. What is written is exactly the header's bytes, and is read again as the same fields.
#![tactic(auto)]

mod checks;
mod extent_list;
mod header;
mod header_read;
mod header_write;
mod list_read;
mod list_write;
mod next_start;
mod refusal;

pub use extent_list::{Extent, Extents};
pub use header::PvHeader;
pub use header_read::read_pv;
pub use header_write::write_pv;
pub use refusal::PvRefusal;
