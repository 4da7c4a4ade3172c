//! Where a sector of a logical volume stands on physical volumes: the place that is read, those of the other legs of its
//! mirror, and the region there.
//!
//! The places are those of `volume_view`. They are computed without taking memory, and in each volume on the way down the
//! segment is found by halving.
#![tactic(auto)]

mod ats;
mod deciding;
mod descent;
mod legs;
mod met_segment;
mod moving;
mod places_of;
mod primary_place;
mod region;
mod sector_places;
mod segment_search;
mod spot;
mod starts;
mod volume_size;

pub use ats::Ats;
pub use moving::{has_move, is_moving};
pub use places_of::places;
pub use primary_place::{primary, primary_in};
pub use region::MirrorAt;
pub use sector_places::Places;
pub use volume_size::sectors;
