//! Finding the label.
ghost use Rattle.std.specs.Prelude.{◌≡◌, ◌↔◌, IsTrue, MatchResult, codes, drop, take};
ghost use Rattle.sector_base.specs.Checksum.{checksum, lvm_crc_start};
ghost use Rattle.sector_base.specs.Fields.{field};
ghost use Rattle.pv_label.specs.First.{first_refusal};
ghost use Rattle.pv_label.specs.Label.{BeginsLikeLabel, IsFirstLabel, IsLabel, IsLabelRefusal, IsRefused};

use crate::LabelRefusal;
use sector_base::{Bytes512, LVM_CRC_START, crc, get_u32, get_u64};

/// How many sectors may hold the label of a disk, from its first on.
pub const LABEL_SECTORS: u32 = 4;

/// Where the label is.
#[derive(Clone, Copy, Debug, Drop, PartialEq, Eq)]
pub struct LabelFound {
    /// The number of its sector, 0 to 3.
    pub sector: u32,
}

/// Finds the label among the sectors 0 to 3 of a disk: the first that passes every test. Where none passes, the
/// refusal is that of the lowest sector that begins with `LABELONE`, and `NoLabel` where none does. The tests come in
/// this order: `WrongSector`, `BadSum`, `BadOffset`, `BadType`.
pub fn read_label(sectors: &[Bytes512; 4]) -> Result<LabelFound, LabelRefusal>
    ensures { MatchResult result (λ found. IsFirstLabel sectors.now found.sector) (IsLabelRefusal sectors.now) }
{
    let mut refusal = LabelRefusal::NoLabel;
    for number in 0..LABEL_SECTORS {
        match test_label(&sectors[number as usize], number) {
            Ok(()) => return Ok(LabelFound { sector: number }),
            Err(cause) => refusal = first_of(refusal, cause),
        }
    }
    Err(refusal)
}

// The refusal of a sector before, or else that of this one.
fn first_of(before: LabelRefusal, cause: LabelRefusal) -> LabelRefusal
    ensures { result ≡ first_refusal before cause }
{
    match before {
        LabelRefusal::NoLabel => cause,
        _ => before,
    }
}

// Whether the sector is a label for the sector of this number, or the first test that it fails.
fn test_label(sector: &Bytes512, number: u32) -> Result<(), LabelRefusal>
    ensures { MatchResult result (λ _. IsLabel sector.now number) (IsRefused sector.now number) }
{
    if !begins_like_label(sector) {
        return Err(LabelRefusal::NoLabel);
    }
    let said = get_u64(sector, 8);
    if said != u64::from(number) {
        return Err(LabelRefusal::WrongSector(said, number));
    }
    if !agrees_with_sum(sector) {
        return Err(LabelRefusal::BadSum(number));
    }
    let offset = get_u32(sector, 20);
    if offset != 32 {
        return Err(LabelRefusal::BadOffset(offset));
    }
    if !has_type(sector) {
        return Err(LabelRefusal::BadType);
    }
    Ok(())
}

/// Whether the sector begins with `LABELONE`.
pub fn begins_like_label(sector: &Bytes512) -> bool
    ensures { IsTrue result ↔ BeginsLikeLabel sector.now }
{
    sector.as_bytes()[..8] == b"LABELONE"[..]
}

// Whether the checksum is that of bytes 20 to 512.
fn agrees_with_sum(sector: &Bytes512) -> bool
    ensures { IsTrue result ↔ (field 4 sector.now 16 ≡ checksum lvm_crc_start (drop 20 sector.now)) }
{
    get_u32(sector, 16) == crc(LVM_CRC_START, &sector.as_bytes()[20..])
}

// Whether the label is of lvm2's type.
fn has_type(sector: &Bytes512) -> bool
    ensures { IsTrue result ↔ (take 8 (drop 24 sector.now) ≡ codes "LVM2 001") }
{
    sector.as_bytes()[24..32] == b"LVM2 001"[..]
}
