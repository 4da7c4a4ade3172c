//! The plain data that every layer shares: sectors and lists of them, spans and places on disks, sets and lists of
//! disk numbers, texts, the numbers in a sector, and lvm2's checksum.
//!
//! A number read from a sector is that of its bytes, a put changes its own bytes alone, and the checksum is the
//! bitwise division that lvm2's on-disk format asks for.
#![tactic(auto)]

mod bytes512;
mod checksum;
mod division_table;
mod fields;
mod item_list;
mod places;
mod pv_set;
mod sector_list;
mod shown;
mod span_of;
mod spans;
mod texts;

pub use bytes512::Bytes512;
pub use checksum::{LVM_CRC_START, crc};
pub use fields::{get_u32, get_u64, put_u32, put_u64};
pub use item_list::{ItemList, PvDisks};
pub use places::{At, Piece};
pub use pv_set::PvSet;
pub use sector_list::{Sectors, see_sectors};
pub use shown::{Shown, write_shown};
pub use span_of::span;
pub use spans::{Span, SpanRefusal};
pub use texts::Text;
