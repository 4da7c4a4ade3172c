//! Writing a list of areas.
ghost use Rattle.std.specs.Prelude.{◌≡◌, ◌≤◌, ◌<◌, ◌+◌, ◌*◌, ◌^◌, length, All};
ghost use Rattle.sector_base.specs.Fields.{with_bytes};
ghost use Rattle.pv_header.specs.Extents.{pair_bytes, list_bytes, Fits64};

use crate::Extent;
use sector_base::{Bytes512, put_u64};

/// Puts the pairs of these areas one after another from the place `at` on, and answers the place after them.
pub fn put_list(into: &mut Bytes512, at: u32, list: &[Extent]) -> u32
    requires { at + 16 * length list.now ≤ 512 }
    ensures end { result ≡ at + 16 * length list.now }
    ensures bytes { into.new ≡ with_bytes into.old at (list_bytes list.now) }
    ensures fits { All Fits64 list.now }
{
    let _bytes: &[u8] = into.as_bytes();
    let mut place = at;
    for area in list {
        put_pair(into, place, *area);
        place += 16;
    }
    place
}

// Puts the pair of this area at the place `at`.
fn put_pair(into: &mut Bytes512, at: u32, area: Extent)
    requires { at + 16 ≤ 512 }
    ensures bytes { into.new ≡ with_bytes into.old at (pair_bytes area) }
    ensures fits { Fits64 area }
{
    let _bytes: &[u8] = into.as_bytes();
    put_u64(into, at, area.offset);
    put_u64(into, at + 8, area.size);
}
