//! Where the next text goes.
ghost use Rattle.std.specs.Prelude.{◌≡◌, ◌≤◌, ◌^◌, IfOk, MatchResult};
ghost use Rattle.mda_header.specs.HeaderBytes.{IsNoneOrInside};
ghost use Rattle.mda_ring.specs.Areas.{IsArea};
ghost use Rattle.mda_ring.specs.NextPlace.{IsApart, IsInRing, IsNext, IsTooLarge};
ghost use Rattle.mda_ring.specs.Ring.{next_offset, room};

use crate::counts::{sectors_for, touched_sectors};
use crate::{Area, Place, RingRefusal};
use mda_header::Locn;

/// The place of the next text, whose stored size is `len` bytes, in an area in which this text is committed. It is
/// refused as `TooLarge` exactly where it needs more sectors than the committed text leaves.
pub fn plan_next(area: &Area, committed: Option<Locn>, len: u64) -> Result<Place, RingRefusal>
    requires area { IsArea area.now }
    requires committed { IsNoneOrInside area.now.size committed }
    requires len { 1 ≤ len }
    ensures placed { MatchResult result (IsNext area.now.size committed len) (IsTooLarge area.now.size committed len) }
    ensures in_ring { IfOk result (IsInRing area.now.size) }
    // The next text leaves each sector of the committed one alone.
    ensures apart { IfOk result (IsApart area.now.size committed) }
{
    let need = sectors_for(len);
    let room = room_beside(area.size, committed);
    if need > room {
        return Err(RingRefusal::TooLarge { need, room });
    }
    Ok(Place {
        offset: offset_behind(area.size, committed),
        sectors: need,
    })
}

// How many sectors the committed text leaves.
fn room_beside(size: u64, committed: Option<Locn>) -> u64
    requires size { (1536 ≤ size) × (size ≤ 2 ^ 49) }
    requires committed { IsNoneOrInside size committed }
    ensures { result ≡ room size committed }
{
    let ring = size / 512 - 1;
    match committed {
        None => ring,
        Some(text) => ring - touched_sectors(size, text.offset, text.size),
    }
}

// Where the next text begins.
fn offset_behind(size: u64, committed: Option<Locn>) -> u64
    requires size { (1536 ≤ size) × (size ≤ 2 ^ 49) }
    requires committed { IsNoneOrInside size committed }
    ensures { result ≡ next_offset size committed }
{
    match committed {
        None => 512,
        Some(text) => {
            let end = 512 * sectors_for(text.offset + text.size);
            512 + (end - 512) % (size - 512)
        }
    }
}
