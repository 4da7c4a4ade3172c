//! Reads and writes of a volume, cut into pieces at every multiple of eight sectors.
//!
//! Segments, stripes and regions begin at such multiples, so that each piece lies in one of each in every accepted group, and
//! its places on physical volumes lie side by side.
#![tactic(auto)]

mod laws;
mod splitting;

pub use laws::{pieces_cover_requests, pieces_lie_in_one_region};
pub use splitting::{Pieces, split};
