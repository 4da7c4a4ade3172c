//! The leg at which a read goes on.
ghost use Rattle.std.specs.Prelude.{◌≡◌, ◌∷◌, slice_get};
ghost use Rattle.mirror_io.specs.Legs.{next_leg};

use region_log::Region;
use sector_base::At;
use seg_place::Places;

/// Where a read goes on that failed at so many legs, the primary first: at the next leg, in a region whose legs agree; `None`
/// in any other region, and where each leg was tried.
pub fn after_read_fault(places: &Places, state: Region, tried: u32) -> Option<At>
    ensures { result ≡ next_leg places.now.primary places.now.others state tried }
{
    match state {
        Region::Synced => leg(places, tried),
        Region::Unsynced | Region::Copying => None,
    }
}

// The leg with this number, that of the primary being 0.
fn leg(places: &Places, number: u32) -> Option<At>
    ensures { result ≡ slice_get (places.now.primary ∷ places.now.others) number }
{
    if number == 0 {
        Some(places.primary)
    } else {
        places.others.as_slice().get(number as usize - 1).copied()
    }
}
