//! The legs that a piece uses.
ghost use Rattle.std.specs.Prelude.{◌≡◌, ◌≤◌, [], ◌∷◌, length};
ghost use Rattle.mirror_io.specs.Legs.{legs_for};

use region_log::Region;
use seg_place::{Ats, Places};

/// The places that a piece uses, by the state of its region: all legs, the primary first, for a write where they agree, and the
/// primary alone for a read and in any other region.
pub fn legs(places: &Places, state: Region, write: bool) -> Ats
    requires { length places.now.others ≤ 7 }
    ensures { result ≡ legs_for places.now.primary places.now.others state write }
{
    match state {
        Region::Synced if write => all_legs(places),
        Region::Synced | Region::Unsynced | Region::Copying => primary_alone(places),
    }
}

fn all_legs(places: &Places) -> Ats
    requires { length places.now.others ≤ 7 }
    ensures { result ≡ places.now.primary ∷ places.now.others }
{
    let mut legs = primary_alone(places);
    for other in places.others.as_slice() {
        legs.push(*other);
    }
    legs
}

fn primary_alone(places: &Places) -> Ats
    ensures { result ≡ places.now.primary ∷ [] }
{
    let mut legs = Ats::new();
    legs.push(places.primary);
    legs
}
