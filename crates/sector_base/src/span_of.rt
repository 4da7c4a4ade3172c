//! The one way to a span that lies in its disk.
ghost use Rattle.std.specs.Prelude.{◌≡◌, ◌≤◌, ◌<◌, ◌+◌, ◌-◌, ◌^◌, min, ◌↔◌};

use crate::{Span, SpanRefusal};

/// The span of `count` sectors from the sector `first` on, of the disk `pv` of `disk` sectors. It is refused as
/// `Empty` exactly where `count` is 0, and then as `PastEnd` exactly where `first + count` exceeds `disk`.
pub fn span(pv: u32, first: u64, count: u32, disk: u64) -> Result<Span, SpanRefusal>
    ensures empty { (result ≡ Err SpanRefusal.Empty) ↔ (count ≡ 0) }
    ensures past_end { (result ≡ Err (SpanRefusal.PastEnd (min (first + count) (2 ^ 64 - 1)) disk)) ↔ ((0 < count) × (disk < first + count)) }
    ensures ok { (result ≡ Ok (record { pv = pv; first = first; count = count })) ↔ ((0 < count) × (first + count ≤ disk)) }
{
    if count == 0 {
        return Err(SpanRefusal::Empty);
    }
    let end = first.saturating_add(u64::from(count));
    if end > disk || u64::from(count) > disk - first {
        return Err(SpanRefusal::PastEnd { end, disk });
    }
    Ok(Span { pv, first, count })
}
