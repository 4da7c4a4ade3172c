//! Legs of a segment.
ghost use Rattle.std.specs.Prelude.{◌≡◌, map};
ghost use Rattle.conf_text.specs.Items.{items};
ghost use Rattle.meta_model.specs.Keys.{each};
ghost use Rattle.meta_model.specs.Standing.{leg_of, legs};
ghost use Rattle.meta_read.specs.Reading.{Gives, as_pair};

use crate::pairs::required_pairs;
use crate::places::Places;
use crate::refusals::unknown_name;
use conf_text::Section;
use meta_model::{GroupRefusal, Leg, Legs};
use sector_base::ItemList;
use std::alloc::Global;

/// The legs of a key that has to stand, as many as were said.
pub(crate) fn read_legs(
    alloc: Global,
    places: &Places<'_>,
    section: &Section<'_>,
    key: &[u8],
    said: u64,
) -> Result<Legs, GroupRefusal>
    ensures { Gives (legs places.now said key.now (items section.now)) result }
{
    let pairs = required_pairs(alloc, section, key)?;
    let found = pairs.len() as u64;
    if found != said {
        return Err(GroupRefusal::CountDiffers(said, found));
    }
    all_legs(alloc, places, &pairs)
}

// A leg for each pair.
fn all_legs(
    alloc: Global,
    places: &Places<'_>,
    pairs: &[(&[u8], u64)],
) -> Result<Legs, GroupRefusal>
    ensures { Gives (each (leg_of places.now) (map as_pair pairs.now)) result }
{
    let mut legs = Vec::with_capacity(alloc, pairs.len())?;
    for (name, first) in pairs {
        legs.push(read_leg(alloc, places, name, *first)?)?;
    }
    Ok(ItemList::from_vec(legs))
}

// The leg on the volume with this name.
fn read_leg(
    alloc: Global,
    places: &Places<'_>,
    name: &[u8],
    first: u64,
) -> Result<Leg, GroupRefusal>
    ensures { Gives (leg_of places.now (name.now, first)) result }
{
    match places.find(name) {
        Some(on) => Ok(Leg { on, first }),
        None => Err(unknown_name(alloc, name)),
    }
}
