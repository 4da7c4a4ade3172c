//! A volume group as plain data, and which tree of a metadata text stands for which group.
#![tactic(auto)]

mod copies;
mod extent_span;
mod group;
mod lv;
mod printable;
mod pv;
mod refusal;
mod segment;
mod status;
mod table;
mod tables;

pub use copies::TryCopy;
pub use extent_span::ExtentSpan;
pub use group::Group;
pub use lv::Lv;
pub use pv::Pv;
pub use refusal::GroupRefusal;
pub use segment::{Leg, Legs, On, SegKind, Segment, Segments};
pub use status::{LvStatus, LvWords, VgStatus, VgWords};
pub use table::{PushRefusal, Table};
pub use tables::{LvRows, LvTable, PvTable};
