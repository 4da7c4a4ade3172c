//! Writing a header.
ghost use Rattle.std.specs.Prelude.{◌≡◌, ◌+◌, ◌^◌, ◌<◌, ◌≤◌, IfSome};
ghost use Rattle.sector_base.specs.Fields.{with_bytes};
ghost use Rattle.mda_header.specs.Header.{IsHeader};
ghost use Rattle.mda_header.specs.HeaderBytes.{CanBeRead, header_bytes, locn_bytes};

use crate::{Locn, MdaHeader};
use sector_base::{Bytes512, LVM_CRC_START, crc, put_u32, put_u64};

const NO_TEXT: Locn = Locn {
    offset: 0,
    size: 0,
    sum: 0,
};

/// Writes the header over the whole sector. Where each entry that stands is inside of the area, it is read again as it
/// is.
pub fn write_mda(header: &MdaHeader, into: &mut Bytes512)
    ensures bytes { into.new ≡ header_bytes header.now }
    ensures read_again { CanBeRead header.now → IsHeader into.new header.now }
{
    let mut sector = Bytes512::zeroed();
    sector.put(4, b" LVM2 x[5A%r0N*>");
    put_u32(&mut sector, 20, 1);
    put_u64(&mut sector, 24, header.start);
    put_u64(&mut sector, 32, header.size);
    put_locn(&mut sector, 40, header.committed, u32::from(header.ignored));
    put_locn(&mut sector, 64, header.precommitted, 0);
    let sum = crc(LVM_CRC_START, &sector.as_bytes()[4..]);
    put_u32(&mut sector, 0, sum);
    *into = sector;
}

// Writes the entry at this byte.
fn put_locn(sector: &mut Bytes512, at: u32, locn: Option<Locn>, flags: u32)
    requires { at + 24 ≤ 512 }
    ensures bytes { sector.new ≡ with_bytes sector.old at (locn_bytes locn flags) }
    ensures fits { IfSome locn (λ text. text.sum < 2 ^ 32) }
{
    // A sector has 512 bytes, which the proof reads here.
    let _bytes = &sector.as_bytes()[..];
    let locn = locn.unwrap_or(NO_TEXT);
    put_u64(sector, at, locn.offset);
    put_u64(sector, at + 8, locn.size);
    put_u32(sector, at + 16, locn.sum);
    put_u32(sector, at + 20, flags);
}
