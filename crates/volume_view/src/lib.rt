//! Where each sector of a logical volume stands on physical volumes, and what the volumes of a group hold in an image of disks.
//!
//! A place is followed down through the legs of segments. There is no code here: what holds of the places and views of
//! every group that keeps the rules is said by laws.
#![tactic(auto)]

mod laws;

pub use laws::{pieces_lie_in_one_region, places_lie_apart, places_stand, views_read_primaries};
