//! Which sectors a text stands in.
ghost use Rattle.std.specs.Prelude.{◌≡◌, ℕ, ◌+◌, ◌-◌, ◌/◌, ◌<◌, ◌≤◌, ◌^◌, ◌↔◌, IsTrue, IfSome};
ghost use Rattle.mda_ring.specs.Areas.{IsArea};
ghost use Rattle.mda_ring.specs.Ring.{ring_sector, touched_count};
ghost use Rattle.mda_ring.specs.RingSpans.{IsInArea, IsTouched, nth_sector, ring_spans, span_of_area, spans_count, spans_cover};

use crate::Area;
use crate::counts::touched_sectors;
use sector_base::Span;

/// The one or two spans of the sectors that hold these bytes of the ring, in the order of the bytes: `size` bytes from
/// the byte `offset` of the area on. Where the bytes come round into the sector in which they begin, that sector stands
/// in the first span alone, and the last bytes are read from it.
pub fn spans(area: &Area, offset: u64, size: u64) -> (Span, Option<Span>)
    requires area { IsArea area.now }
    requires behind_header { 512 ≤ offset }
    requires before_end { offset < area.now.size }
    requires has_bytes { 1 ≤ size }
    requires has_room { size ≤ area.now.size - 512 }
    requires not_huge { size ≤ 2 ^ 40 }
    ensures spans { result ≡ ring_spans area.now offset size }

    // They have as many sectors as the bytes touch, in the order of the bytes, and all lie in the area.
    ensures count { spans_count result ≡ touched_count area.now.size offset size }
    ensures order { (k : ℕ) → k < touched_count area.now.size offset size → nth_sector result k ≡ area.now.start / 512 + ring_sector area.now.size offset k }
    ensures in_area { IsInArea area.now result.0 × IfSome result.1 (IsInArea area.now) }

    // They cover exactly the sectors that the bytes touch.
    ensures cover { (pv sector : ℕ) → IsTrue (spans_cover result pv sector) ↔ IsTouched area.now offset size pv sector }
{
    let all = touched_sectors(area.size, offset, size);
    let to_end = area.size / 512 - offset / 512;
    let first = span_of(area, offset / 512, all.min(to_end));
    if to_end < all {
        (first, Some(span_of(area, 1, all - to_end)))
    } else {
        (first, None)
    }
}

// So many sectors of the area, as a span of its disk.
fn span_of(area: &Area, first: u64, count: u64) -> Span
    requires fits { area.now.start / 512 + first < 2 ^ 64 }
    requires count { count < 2 ^ 32 }
    ensures { result ≡ span_of_area area.now first count }
{
    Span {
        pv: area.pv,
        first: area.start / 512 + first,
        count: count as u32,
    }
}
