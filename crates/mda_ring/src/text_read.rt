//! Reading a text from sectors.
ghost use Rattle.std.specs.Prelude.{◌≡◌, ℕ, ◌+◌, ◌-◌, ◌==◌, if◌then◌else◌, ◌%◌, ◌^◌, ◌<◌, ◌≤◌, ◌≢◌, ◌↔◌, IsTrue, List, [], ◌∷◌, ◌++◌, length, map, IfErr, IfOk, MatchResult};
ghost use Rattle.std.specs.List.{range_with_len};
ghost use Rattle.sector_base.specs.Checksum.{checksum, lvm_crc_start};
ghost use Rattle.mda_header.specs.Header.{IsInside};
ghost use Rattle.mda_ring.specs.declared.refusal.RingRefusal.TheVariants.{NoMemory};
ghost use Rattle.mda_ring.specs.Areas.{IsArea};
ghost use Rattle.mda_ring.specs.Ring.{need, touched_count};
ghost use Rattle.mda_ring.specs.Texts.{AreRead, IsDamaged, IsTextOf, byte_in, taken_bytes, text_sectors, text_at, without_zero};

use crate::{Area, RingRefusal};
use mda_header::Locn;
use sector_base::{Bytes512, LVM_CRC_START, Sectors, Text, crc};
use std::alloc::{AllocError, Global};

/// The text of the entry, where these are the sectors of its spans, in order. One final zero byte is dropped where it
/// stands. It is refused as `SumDiffers` exactly where the checksum of its bytes, the zero byte among them, isn't that
/// of the entry.
pub fn gather(
    alloc: Global,
    area: &Area,
    locn: Locn,
    sectors: &Sectors,
) -> Result<Text, RingRefusal>
    requires area { IsArea area.now }
    requires entry { IsInside area.now.size locn }
    requires sectors { length sectors.now ≡ touched_count area.now.size locn.offset locn.size }
    ensures gathered { (sector_at : ℕ → List ℕ) → AreRead sector_at area.now.size locn.offset sectors.now
        → MatchResult result
        (IsTextOf locn (text_at sector_at area.now.size locn.offset locn.size))
        (IsDamaged locn (text_at sector_at area.now.size locn.offset locn.size)) }
    // A text that was put into the sectors comes back.
    ensures text_sectors { (text : List ℕ) → sectors.now ≡ text_sectors text (need (length text + 1))
        → locn.offset % 512 ≡ 0 → locn.size ≡ length text + 1 → locn.sum ≡ checksum lvm_crc_start (text ++ 0 ∷ [])
        → MatchResult result (λ gathered. gathered ≡ text) (λ refusal. refusal ≡ NoMemory) }
{
    let bytes = gather_bytes(alloc, area, locn, sectors)?;
    stored_text(bytes, locn)
}

/// The bytes of the entry's text as they are stored, where these are the sectors of its spans, in order.
///
/// # Errors
///
/// Where memory is wanting.
pub fn gather_bytes(
    alloc: Global,
    area: &Area,
    locn: Locn,
    sectors: &Sectors,
) -> Result<Vec<u8>, AllocError>
    requires area { IsArea area.now }
    requires entry { IsInside area.now.size locn }
    requires sectors { length sectors.now ≡ touched_count area.now.size locn.offset locn.size }
    ensures gathered { (sector_at : ℕ → List ℕ) → AreRead sector_at area.now.size locn.offset sectors.now
        → IfOk result (λ bytes. bytes.items ≡ text_at sector_at area.now.size locn.offset locn.size) }
    // A text that was put into the sectors is stored with a zero byte.
    ensures text_sectors { (text : List ℕ) → sectors.now ≡ text_sectors text (need (length text + 1))
        → locn.offset % 512 ≡ 0 → locn.size ≡ length text + 1 → IfOk result (λ bytes. bytes.items ≡ text ++ 0 ∷ []) }
    ensures count { IfOk result (λ bytes. length bytes.items ≡ locn.size) }
    ensures taken { IfOk result (λ bytes. bytes.items ≡ taken_bytes locn sectors.now) }
{
    let skip = (locn.offset % 512) as usize;
    bytes_from(alloc, sectors.as_slice(), skip, locn.size as usize)
}

/// The text that is stored as these bytes, one final zero byte dropped where it stands. It is refused as `SumDiffers`
/// exactly where their checksum, the zero byte among them, isn't that of the entry.
pub fn stored_text(bytes: Vec<u8>, locn: Locn) -> Result<Text, RingRefusal>
    ensures text { MatchResult result (IsTextOf locn bytes.items) (IsDamaged locn bytes.items) }
    ensures damaged { IfErr result (λ refusal. refusal ≢ NoMemory) }
{
    let found = crc(LVM_CRC_START, &bytes);
    if found != locn.sum {
        return Err(RingRefusal::SumDiffers {
            said: locn.sum,
            found,
        });
    }
    Ok(Text::from_vec(drop_zero(bytes)))
}

/// Whether the text is what these sectors of the entry's spans, in order, store for it, one final zero byte dropped where it
/// stands.
pub fn is_stored_in(text: &[u8], area: &Area, locn: Locn, sectors: &Sectors) -> bool
    requires area { IsArea area.now }
    requires entry { IsInside area.now.size locn }
    requires sectors { length sectors.now ≡ touched_count area.now.size locn.offset locn.size }
    ensures { IsTrue result ↔ (text.now ≡ without_zero (taken_bytes locn sectors.now)) }
{
    let sectors = sectors.as_slice();
    let skip = (locn.offset % 512) as usize;
    let count = kept_count(sectors, skip, locn.size as usize);
    text.len() == count && are_at(sectors, skip, text)
}

// So many bytes of the sectors, one behind the other, from the byte `skip` on; behind the last comes the first.
fn bytes_from(
    alloc: Global,
    sectors: &[Bytes512],
    skip: usize,
    count: usize,
) -> Result<Vec<u8>, AllocError>
    requires some { 0 < length sectors.now }
    requires few { length sectors.now < 2 ^ 48 }
    requires fits { skip + count < 2 ^ 64 }
    ensures { IfOk result (λ bytes. bytes.items ≡ map (λ j. byte_in sectors.now (skip + j)) (range_with_len 0 count)) }
{
    let mut bytes = Vec::with_capacity(alloc, count)?;
    while bytes.len() < count {
        let part = part_at(sectors, skip + bytes.len(), count - bytes.len());
        bytes.extend_from_slice(part)?;
    }
    Ok(bytes)
}

// The bytes from this place of the sectors to the end of its sector, but no more than `most`; behind the last sector
// comes the first.
fn part_at(sectors: &[Bytes512], at: usize, most: usize) -> &[u8]
    requires some { 0 < length sectors.now }
    requires few { length sectors.now < 2 ^ 48 }
    ensures bytes { result.now ≡ map (λ j. byte_in sectors.now (at + j)) (range_with_len 0 (length result.now)) }
    ensures more { 0 < most → 0 < length result.now }
    ensures most { length result.now ≤ most }
{
    let place = at % (512 * sectors.len());
    let rest = &sectors[place / 512].as_bytes()[place % 512..];
    &rest[..rest.len().min(most)]
}

// The bytes without one final zero byte.
fn drop_zero(mut bytes: Vec<u8>) -> Vec<u8>
    ensures { result.items ≡ without_zero bytes.items }
{
    if bytes.last() == Some(&0) {
        bytes.pop();
    }
    bytes
}

// How many of so many bytes of the sectors from the byte `skip` on there are without a final zero.
fn kept_count(sectors: &[Bytes512], skip: usize, count: usize) -> usize
    requires some { 0 < length sectors.now }
    requires few { length sectors.now < 2 ^ 48 }
    requires bytes { 0 < count }
    requires fits { skip + count < 2 ^ 64 }
    ensures { result ≡ (if byte_in sectors.now (skip + (count - 1)) == 0 then count - 1 else count) }
{
    let last = byte_at(sectors, skip + (count - 1));
    if last == 0 { count - 1 } else { count }
}

// The byte at this place of the sectors; behind the last comes the first.
fn byte_at(sectors: &[Bytes512], at: usize) -> u8
    requires some { 0 < length sectors.now }
    requires few { length sectors.now < 2 ^ 48 }
    ensures { result ≡ byte_in sectors.now at }
{
    part_at(sectors, at, 1)[0]
}

// Whether these are the bytes of the sectors from the byte `skip` on.
fn are_at(sectors: &[Bytes512], skip: usize, bytes: &[u8]) -> bool
    requires some { 0 < length sectors.now }
    requires few { length sectors.now < 2 ^ 48 }
    requires fits { skip + length bytes.now < 2 ^ 64 }
    ensures { IsTrue result ↔ (bytes.now ≡ map (λ j. byte_in sectors.now (skip + j)) (range_with_len 0 (length bytes.now))) }
{
    let mut done = 0;
    while done < bytes.len() {
        let part = part_at(sectors, skip + done, bytes.len() - done);
        if &bytes[done..done + part.len()] != part {
            return false;
        }
        done += part.len();
    }
    true
}
