//! A header that is written and read, and one that is refused.
ghost use Rattle.std.specs.Prelude.{◌≡◌, length, IfOk};

use lvm_id::parse_plain;
use pv_header::{Extent, Extents, PvHeader, PvRefusal, read_pv, write_pv};
use sector_base::Bytes512;
use std::alloc::{AllocError, Global};
use std::process::Abort;

const ID: &[u8; 32] = b"00000000100000000100000030000000";

const DATA: Extent = Extent {
    offset: 1_048_576,
    size: 0,
};

const METADATA: Extent = Extent {
    offset: 4_096,
    size: 1_044_480,
};

fn one(alloc: Global, area: Extent) -> Result<Extents, AllocError>
    ensures { IfOk result (λ list. length list ≡ 1) }
{
    Ok(Extents::from_vec(Vec::from_slice(alloc, &[area])?))
}

// A sector of stale bytes with the header of these areas.
fn written(rt: &impl Abort, alloc: Global) -> Bytes512 {
    let header = PvHeader {
        id: parse_plain(ID).expect(rt, "an id"),
        device_bytes: 4_194_304,
        data_areas: one(alloc, DATA).expect(rt, "memory"),
        areas: one(alloc, METADATA).expect(rt, "memory"),
        version: 1,
        flags: 0,
    };
    assert!(rt; header.data_areas.len() < 3);
    assert!(rt; header.areas.len() < 3);
    let mut sector = Bytes512::new([0xAA; 512]);
    write_pv(&header, &mut sector);
    sector
}

#[test]
fn what_is_written_is_read(rt: HostRuntime) {
    let sector = written(&rt, rt.alloc());
    let header = read_pv(rt.alloc(), &sector, 8_192).expect(&rt, "a header");
    assert!(rt; header.device_bytes == 4_194_304);
    assert!(rt; header.data_areas.as_slice() == [DATA].as_slice());
    assert!(rt; header.areas.as_slice() == [METADATA].as_slice());
    assert!(rt; header.data_start(8_192) == 2_048);
    assert!(rt; header.data_end(8_192) == 8_192);
}

#[test]
fn a_list_without_an_end_is_refused(rt: HostRuntime) {
    let sector = Bytes512::new([b'!'; 512]);
    let refusal = read_pv(rt.alloc(), &sector, 8_192).err();
    assert!(rt; refusal == Some(PvRefusal::ListUnended(1)));
}

#[test]
fn a_refusal_prints_its_values(rt: HostRuntime) -> Result<(), AllocError> {
    let refusal = PvRefusal::AreaOutside {
        offset: 1,
        size: 2,
        disk_bytes: 3,
    };
    let said = format!(in rt.alloc(); "{refusal}")?;
    assert_eq!(rt; said.as_str(), "AreaOutside 1 2 3");
    Ok(())
}
