//! Reading a list of areas.
ghost use Rattle.std.specs.Prelude.{◌≤◌, ◌^◌, MatchResult};
ghost use Rattle.pv_header.specs.Extents.{IsListAt};
ghost use Rattle.pv_header.specs.PvRefusal.{RefusesList};

use crate::{Extent, Extents, PvRefusal};
use sector_base::{Bytes512, get_u64};
use std::alloc::Global;

/// Reads the list that begins at the place `at`. It is refused as `ListUnended` with its number where it meets the
/// sector's end before its own.
pub fn read_list(
    alloc: Global,
    sector: &Bytes512,
    at: u32,
    number: u32,
) -> Result<Extents, PvRefusal>
    requires { at ≤ 2 ^ 16 }
    ensures { MatchResult result (IsListAt sector.now at) (RefusesList sector.now at number) }
{
    let mut list = Vec::new(alloc);
    let mut place = at;
    while place + 8 <= 512 {
        let offset = get_u64(sector, place);
        if offset == 0 {
            return Ok(Extents::from_vec(list));
        }
        if place + 16 > 512 {
            return Err(PvRefusal::ListUnended(number));
        }
        let size = get_u64(sector, place + 8);
        list.push(Extent { offset, size })?;
        place += 16;
    }
    Err(PvRefusal::ListUnended(number))
}
