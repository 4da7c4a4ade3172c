//! Why a sector isn't the header of a metadata area.
ghost use Rattle.std.specs.Prelude.{◌≡◌, Some};
ghost use Rattle.sector_base.specs.Shown.{shown_text};
ghost use Rattle.mda_header.specs.ShownMda.{shown_mda};

use sector_base::{Shown, write_shown};
use std::fmt;
use thiserror::Error;

/// Why a sector isn't the header of the area at hand: the first test that it fails.
#[derive(Clone, Copy, Debug, Drop, PartialEq, Eq, Error)]
pub enum MdaRefusal {
    /// The header says the first checksum, and its bytes have the second.
    BadSum(u32, u32),
    /// The header doesn't have lvm2's magic.
    BadMagic,
    /// The header is of this version, and not of version 1.
    BadVersion(u32),
    /// The header says that its area begins at the first byte, and it was looked for at the second.
    WrongStart(u64, u64),
    /// The header says the first size in bytes, and the area has the second.
    SizeBad(u64, u64),
    /// The committed text doesn't lie in the area, behind its header sector. Both numbers are in bytes.
    LocnOutside { offset: u64, size: u64 },
}

impl MdaRefusal {
    /// Its name.
    pub fn kind(&self) -> &'static str
        ensures { result.now ≡ (shown_mda self.now).0 }
    {
        match self {
            MdaRefusal::BadSum(_, _) => "BadSum",
            MdaRefusal::BadMagic => "BadMagic",
            MdaRefusal::BadVersion(_) => "BadVersion",
            MdaRefusal::WrongStart(_, _) => "WrongStart",
            MdaRefusal::SizeBad(_, _) => "SizeBad",
            MdaRefusal::LocnOutside { .. } => "LocnOutside",
        }
    }
}

/// The kind, and the values in the order of the fields, separated by single spaces.
impl fmt::Display for MdaRefusal {
    ghost output = { λ refusal. Some (shown_text (shown_mda refusal)) };

    fn fmt<W: fmt::Write>(&self, f: &mut fmt::Formatter<W>) -> fmt::Result {
        let kind = self.kind();
        match *self {
            MdaRefusal::BadSum(said, found) => write_shown(
                f,
                kind,
                &[Shown::Sum(said), Shown::Sum(found)],
            ),
            MdaRefusal::BadMagic => write_shown(f, kind, &[]),
            MdaRefusal::BadVersion(version) => write_shown(
                f,
                kind,
                &[Shown::Number(u64::from(version))],
            ),
            MdaRefusal::WrongStart(said, start) => write_shown(
                f,
                kind,
                &[Shown::Number(said), Shown::Number(start)],
            ),
            MdaRefusal::SizeBad(said, size) => write_shown(
                f,
                kind,
                &[Shown::Number(said), Shown::Number(size)],
            ),
            MdaRefusal::LocnOutside { offset, size } => write_shown(
                f,
                kind,
                &[Shown::Number(offset), Shown::Number(size)],
            ),
        }
    }
}
