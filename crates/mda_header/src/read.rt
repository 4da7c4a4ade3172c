//! Reading a header.
ghost use Rattle.std.specs.Prelude.{◌≡◌, ◌+◌, ◌%◌, ◌≤◌, ◌↔◌, IsTrue, MatchResult, MatchOption, take, drop, codes};
ghost use Rattle.sector_base.specs.Checksum.{checksum, lvm_crc_start};
ghost use Rattle.sector_base.specs.Fields.{field};
ghost use Rattle.mda_header.specs.Header.{HasIgnoredBit, HoldsNothing, IsHeader, IsIgnored, IsInside, IsOfArea, IsRefused, IsSound, locn_at};
ghost use Rattle.mda_header.specs.declared.header.MdaHeader.{MdaHeader as Header};

use crate::{Locn, MdaHeader, MdaRefusal};
use sector_base::{Bytes512, LVM_CRC_START, crc, get_u32, get_u64};

/// Reads the header of the metadata area that begins at the byte `start` of its disk and has `size` bytes. The
/// refusals are tested in the order in which they are listed. A precommitted entry that isn't inside of the area is
/// read as none.
pub fn read_mda(sector: &Bytes512, start: u64, size: u64) -> Result<MdaHeader, MdaRefusal>
    ensures read { MatchResult result
        (λ header. IsHeader sector.now header × (header.start ≡ start) × (header.size ≡ size))
        (IsRefused sector.now start size) }
    // A header of this area is never refused, and has one reading.
    ensures found { (header : Header) → IsHeader sector.now header → header.start ≡ start → header.size ≡ size
        → result ≡ Ok header }
{
    if let Err(refusal) = test_area(sector, start, size) {
        return Err(refusal);
    }
    let committed = get_locn(sector, 40);
    if committed.offset != 0 && !is_inside(&committed, size) {
        return Err(MdaRefusal::LocnOutside {
            offset: committed.offset,
            size: committed.size,
        });
    }
    let precommitted = get_locn(sector, 64);
    Ok(MdaHeader {
        start,
        size,
        committed: if_inside(committed, size),
        precommitted: if_inside(precommitted, size),
        ignored: has_ignored_bit(sector),
    })
}

// Whether the sector is a header for this start and size, whatever its entries are, or the first test that it fails.
fn test_area(sector: &Bytes512, start: u64, size: u64) -> Result<(), MdaRefusal>
    ensures { MatchResult result (λ _. IsOfArea sector.now start size) (IsRefused sector.now start size) }
{
    let said = get_u32(sector, 0);
    let found = covered_sum(sector);
    if said != found {
        return Err(MdaRefusal::BadSum(said, found));
    }
    if !has_magic(sector) {
        return Err(MdaRefusal::BadMagic);
    }
    let version = get_u32(sector, 20);
    if version != 1 {
        return Err(MdaRefusal::BadVersion(version));
    }
    let said_start = get_u64(sector, 24);
    if said_start != start {
        return Err(MdaRefusal::WrongStart(said_start, start));
    }
    let said_size = get_u64(sector, 32);
    if said_size != size {
        return Err(MdaRefusal::SizeBad(said_size, size));
    }
    Ok(())
}

// The checksum of bytes 4 to 512.
fn covered_sum(sector: &Bytes512) -> u32
    ensures { result ≡ checksum lvm_crc_start (drop 4 sector.now) }
{
    crc(LVM_CRC_START, &sector.as_bytes()[4..])
}

// Whether lvm2's magic stands in bytes 4 to 20.
fn has_magic(sector: &Bytes512) -> bool
    ensures { IsTrue result ↔ (take 16 (drop 4 sector.now) ≡ codes " LVM2 x[5A%r0N*>") }
{
    sector.as_bytes()[4..20] == b" LVM2 x[5A%r0N*>"[..]
}

// The fields of the entry at this byte, but its flags.
fn get_locn(sector: &Bytes512, at: u32) -> Locn
    requires { at + 24 ≤ 512 }
    ensures { result ≡ locn_at sector.now at }
{
    Locn {
        offset: get_u64(sector, at),
        size: get_u64(sector, at + 8),
        sum: get_u32(sector, at + 16),
    }
}

// Whether the text lies in an area of this size.
fn is_inside(locn: &Locn, size: u64) -> bool
    ensures { IsTrue result ↔ IsInside size locn.now }
{
    locn.offset >= 512 && locn.offset < size && locn.size > 0 && locn.size <= size - 512
}

// The text where it lies in an area of this size.
fn if_inside(locn: Locn, size: u64) -> Option<Locn>
    ensures { MatchOption result (¬ IsInside size locn) (λ text. (text ≡ locn) × IsInside size locn) }
{
    if is_inside(&locn, size) {
        Some(locn)
    } else {
        None
    }
}

// Whether it is a header of lvm2's version, of whatever area.
fn is_sound(sector: &Bytes512) -> bool
    ensures { IsTrue result ↔ IsSound sector.now }
{
    get_u32(sector, 0) == covered_sum(sector) && has_magic(sector) && get_u32(sector, 20) == 1
}

// Whether it is such a header without a committed text.
pub(crate) fn holds_nothing(sector: &Bytes512) -> bool
    ensures { IsTrue result ↔ HoldsNothing sector.now }
{
    is_sound(sector) && get_u64(sector, 40) == 0
}

// Whether it is such a header, and says that its area is ignored.
pub(crate) fn is_ignored(sector: &Bytes512) -> bool
    ensures { IsTrue result ↔ IsIgnored sector.now }
{
    is_sound(sector) && has_ignored_bit(sector)
}

// The lowest bit of entry 0's flags.
fn has_ignored_bit(sector: &Bytes512) -> bool
    ensures { IsTrue result ↔ HasIgnoredBit sector.now }
{
    get_u32(sector, 60) & 1 == 1
}
