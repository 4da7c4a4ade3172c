//! Which free extents a logical volume or a move gets.
//!
//! A request names how many extents are wanted, on how many legs and on which physical volumes. What it is given are free
//! extents in as few parts as the free runs allow, or the first refusal.
#![tactic(auto)]

mod free;
mod giving;
mod laying;
mod more_legs;
mod one_leg;
mod order;
mod part;
mod refusal;
mod request;
mod room;
mod sources;
mod usable;

pub use giving::alloc;
pub use part::{Given, Part, PartRun, PartRuns};
pub use refusal::AllocRefusal;
pub use request::Request;
