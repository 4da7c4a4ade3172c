//! A text that is placed, put into sectors, gathered and compared; and one that is damaged.
ghost use Rattle.std.specs.Prelude.{◌≡◌};
ghost use Rattle.mda_header.specs.Header.{IsInside};

use crate::counts::touched_sectors;
use crate::{
    Area, Place, RingRefusal, gather, gather_bytes, is_stored_in, plan_next, scatter, spans,
    stored_text,
};
use mda_header::Locn;
use sector_base::{Sectors, Text};
use std::alloc::{AllocError, Global};
use std::process::Abort;

// An area of a header and seven sectors more, from sector 16 of disk 3 on.
const AREA: Area = Area {
    pv: 3,
    start: 8_192,
    size: 4_096,
};

// The checksum of `vg {}` and its zero byte.
const SUM: u32 = 0x182F_C4C4;

// The entry of six bytes at the ring's begin, with this checksum.
fn entry(sum: u32) -> Locn
    ensures inside { IsInside 4096 result }
    ensures offset_is { result.offset ≡ 512 }
    ensures size_is { result.size ≡ 6 }
{
    Locn {
        offset: 512,
        size: 6,
        sum,
    }
}

fn text(alloc: Global) -> Result<Text, AllocError> {
    Ok(Text::from_vec(Vec::from_slice(alloc, b"vg {}")?))
}

// What is gathered from these sectors, if they are as many as the entry's text touches.
fn gathered(
    rt: &impl Abort,
    alloc: Global,
    text: Locn,
    sectors: &Sectors,
) -> Result<Text, RingRefusal>
    requires { IsInside 4096 text }
{
    let touched_count = touched_sectors(4_096, text.offset, text.size);
    assert!(rt; sectors.len() as u64 == touched_count);
    gather(alloc, &AREA, text, sectors)
}

// What is stored in these sectors, if they are as many as the entry's text touches.
fn stored(
    rt: &impl Abort,
    alloc: Global,
    text: Locn,
    sectors: &Sectors,
) -> Result<Vec<u8>, AllocError>
    requires { IsInside 4096 text }
{
    let touched_count = touched_sectors(4_096, text.offset, text.size);
    assert!(rt; sectors.len() as u64 == touched_count);
    gather_bytes(alloc, &AREA, text, sectors)
}

// Whether this text is stored in these sectors, if they are as many as the entry's text touches.
fn is_stored(rt: &impl Abort, bytes: &[u8], text: Locn, sectors: &Sectors) -> bool
    requires { IsInside 4096 text }
{
    let touched_count = touched_sectors(4_096, text.offset, text.size);
    assert!(rt; sectors.len() as u64 == touched_count);
    is_stored_in(bytes, &AREA, text, sectors)
}

// The sectors of the text, at the ring's begin.
fn scattered(rt: &impl Abort, alloc: Global) -> Sectors {
    let text = text(alloc).expect(rt, "memory");
    let place = plan_next(&AREA, None, 6).expect(rt, "there is room");
    assert!(rt; place.offset == 512 && place.sectors == 1);
    scatter(alloc, &text, place).expect(rt, "memory")
}

#[test]
fn what_is_put_is_gathered(rt: HostRuntime) {
    let sectors = scattered(&rt, rt.alloc());
    let text = gathered(&rt, rt.alloc(), entry(SUM), &sectors).expect(&rt, "a text");
    assert!(rt; text.as_bytes() == b"vg {}".as_slice());
    let damaged = gathered(&rt, rt.alloc(), entry(17), &sectors).err();
    let differs = RingRefusal::SumDiffers {
        said: 17,
        found: SUM,
    };
    assert!(rt; damaged == Some(differs));
}

#[test]
fn what_is_stored_is_the_text(rt: HostRuntime) {
    let sectors = scattered(&rt, rt.alloc());
    let bytes = stored(&rt, rt.alloc(), entry(SUM), &sectors).expect(&rt, "memory");
    assert!(rt; is_stored(&rt, b"vg {}", entry(SUM), &sectors));
    assert!(rt; !is_stored(&rt, b"vg {", entry(SUM), &sectors));
    let text = stored_text(bytes, entry(SUM)).expect(&rt, "a text");
    assert!(rt; text.as_bytes() == b"vg {}".as_slice());
}

#[test]
fn a_text_goes_behind_the_committed_one(rt: HostRuntime) {
    let place = plan_next(&AREA, Some(entry(SUM)), 3_072);
    let next = Place {
        offset: 1_024,
        sectors: 6,
    };
    assert!(rt; place == Ok(next));
    let refusal = RingRefusal::TooLarge { need: 7, room: 6 };
    assert!(rt; plan_next(&AREA, Some(entry(SUM)), 3_073) == Err(refusal));
}

#[test]
fn spans_follow_the_bytes(rt: HostRuntime) {
    let (first, rest) = spans(&AREA, 3_584, 1_000);
    assert!(rt; (first.pv, first.first, first.count) == (3, 23, 1));
    assert!(rt; rest.is_some());
}

#[test]
fn a_refusal_prints_its_values(rt: HostRuntime) -> Result<(), AllocError> {
    let refusal = RingRefusal::SumDiffers {
        said: 17,
        found: 0xF597_A6CF,
    };
    let said = format!(in rt.alloc(); "{refusal}")?;
    assert_eq!(rt; said.as_str(), "SumDiffers 00000011 f597a6cf");
    Ok(())
}
