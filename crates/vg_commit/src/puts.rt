//! The writes of one area.
ghost use Rattle.std.specs.Prelude.{◌≡◌, ◌≤◌, ◌^◌, [], ◌∷◌, ◌++◌, IfOk, OnOk};
ghost use Rattle.mda_header.specs.Header.{IsHeader};
ghost use Rattle.mda_header.specs.HeaderBytes.{CanBeRead, header_bytes};
ghost use Rattle.mda_ring.specs.Areas.{IsArea};
ghost use Rattle.mda_ring.specs.NextPlace.{IsInRing};
ghost use Rattle.mda_ring.specs.Ring.{need};
ghost use Rattle.mda_ring.specs.RingSpans.{ring_spans};
ghost use Rattle.vg_commit.specs.Plans.{parts_on, rest_part};
ghost use Rattle.vg_commit.specs.Written.{header_of, header_put};

use mda_header::{Locn, MdaHeader, write_mda};
use mda_ring::{Area, Place, spans};
use sector_base::{Bytes512, Sectors, Span};
use std::alloc::{AllocError, Global};

// Puts the spans of a text of this stored size at this place of the area behind the others.
pub(crate) fn put_text(
    area: &Area,
    place: Place,
    size: u64,
    list: &mut Vec<(Span, usize)>,
) -> Result<(), AllocError>
    requires area { IsArea area.now }
    requires ring { IsInRing area.now.size place }
    requires size { (1 ≤ size) × (size ≤ 2 ^ 40) }
    requires sectors { place.sectors ≡ need size }
    ensures { OnOk result (list.new.items ≡ list.old.items ++ parts_on (ring_spans area.now place.offset size)) }
{
    let (first, rest) = spans(area, place.offset, size);
    list.push((first, 0))?;
    put_rest(rest, first.count as usize, list)
}

// Puts the second span behind the others, if there is one. It goes on from this sector of the text.
fn put_rest(
    span: Option<Span>,
    from: usize,
    list: &mut Vec<(Span, usize)>,
) -> Result<(), AllocError>
    ensures { OnOk result (list.new.items ≡ list.old.items ++ rest_part span from) }
{
    if let Some(span) = span {
        list.push((span, from))?;
    }
    Ok(())
}

// Puts the write of the area's header with these entries behind the others.
pub(crate) fn put_header(
    alloc: Global,
    area: &Area,
    committed: Option<Locn>,
    precommitted: Option<Locn>,
    list: &mut Vec<(Span, Sectors)>,
) -> Result<(), AllocError>
    ensures put { OnOk result (list.new.items ≡ list.old.items ++ header_put area.now committed precommitted ∷ []) }
    ensures read { CanBeRead (header_of area.now committed precommitted) → IfOk result (λ _. IsHeader (header_bytes (header_of area.now committed precommitted)) (header_of area.now committed precommitted)) }
{
    list.push(header_write(alloc, area, committed, precommitted)?)?;
    Ok(())
}

/// The write of the area's header with these entries. Only memory can be wanting.
pub fn header_write(
    alloc: Global,
    area: &Area,
    committed: Option<Locn>,
    precommitted: Option<Locn>,
) -> Result<(Span, Sectors), AllocError>
    ensures put { IfOk result (λ put. put ≡ header_put area.now committed precommitted) }
    ensures read { CanBeRead (header_of area.now committed precommitted) → IfOk result (λ _. IsHeader (header_bytes (header_of area.now committed precommitted)) (header_of area.now committed precommitted)) }
{
    let header = MdaHeader {
        start: area.start,
        size: area.size,
        committed,
        precommitted,
        ignored: false,
    };
    let mut sector = Bytes512::zeroed();
    write_mda(&header, &mut sector);
    let mut sectors = Vec::with_capacity(alloc, 1)?;
    sectors.push(sector)?;
    let span = Span {
        pv: area.pv,
        first: area.start / 512,
        count: 1,
    };
    Ok((span, Sectors::from_vec(sectors)))
}
