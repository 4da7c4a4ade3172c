//! The header of a metadata area: where the area lies, and where its committed and its precommitted text stand.
//!
//! A header is read exactly where the sector is lvm2's header for the area at hand, each refusal is that of the first
//! test that fails, and what is written is read again as it was. What a header says of the committed text has one
//! answer.
#![tactic(auto)]

mod entry;
mod header;
mod read;
mod refusal;
mod write;

pub use entry::{HeaderEntry, read_entry};
pub use header::{Locn, MdaHeader};
pub use read::read_mda;
pub use refusal::MdaRefusal;
pub use write::write_mda;
