//! Where an area ends, and the next one begins.
ghost use Rattle.std.specs.Prelude.{◌≡◌, ◌*◌, ◌/◌, map, filter, min};
ghost use Rattle.std.specs.List.{reduce};
ghost use Rattle.pv_header.specs.Areas.{comes_next, next_start, end_of};

use crate::Extent;

/// Where the next of these areas at or after the place begins, and `stop` where none does.
#[tactic(auto, unfolding(crate::specs::Areas::next_start))]
pub fn find_next_start(areas: &[Extent], place: u64, stop: u64) -> u64
    ensures { result ≡ next_start areas.now place stop }
{
    least_from(areas, place).unwrap_or(stop)
}

/// The sector where this area ends, rounded down, on a disk of `disk` sectors: one of size 0 ends where the next of the
/// areas at or after its offset begins, and at the disk's end where there is none.
#[tactic(auto, unfolding(crate::specs::Areas::next_start))]
pub fn end_sector(areas: &[Extent], area: Extent, disk: u64) -> u64
    ensures { result ≡ end_of areas.now (disk * 512) area / 512 }
{
    if area.size == 0 {
        match least_from(areas, area.offset) {
            Some(start) => start / 512,
            None => disk,
        }
    } else {
        area.offset / 512 + area.size / 512 + (area.offset % 512 + area.size % 512) / 512
    }
}

// The least offset of the areas that come next at or after the place.
fn least_from(areas: &[Extent], place: u64) -> Option<u64>
    ensures { result ≡ reduce min (map (λ area. area.offset) (filter (comes_next place) areas.now)) }
{
    areas
        .iter()
        .copied()
        .filter(|area| begins_next(*area, place))
        .map(|area| area.offset)
        .min()
}

// Whether the area comes next at or after the place: one that begins there counts where it has a size of its own.
fn begins_next(area: Extent, place: u64) -> bool
    ensures { result ≡ comes_next place area }
{
    area.offset > place || (area.offset == place && area.size != 0)
}
