//! Why a sector isn't read as a header.
ghost use Rattle.std.specs.Prelude.{◌≡◌, Some};
ghost use Rattle.pv_header.specs.declared.refusal.PvRefusal.TheVariants.{NoMemory};
ghost use Rattle.sector_base.specs.Shown.{shown_text};
ghost use Rattle.pv_header.specs.ShownPv.{shown_pv};

use sector_base::{Shown, write_shown};
use std::alloc::{AllocError, AllocFailed};
use std::fmt;
use thiserror::Error;

/// Why a sector isn't read as a header, in the order of the tests.
#[derive(Clone, Copy, Debug, PartialEq, Eq, Error)]
pub enum PvRefusal {
    /// Memory is wanting.
    NoMemory,
    /// The character at this place of the id, from 0, is no digit, letter, `!` or `#`.
    BadId(usize),
    /// The list meets the sector's end before its own: 1 the data areas, 2 the metadata areas, 3 the bootloader areas.
    ListUnended(u32),
    /// The area, in bytes, ends past the disk's end.
    AreaOutside {
        offset: u64,
        size: u64,
        disk_bytes: u64,
    },
    /// The metadata area isn't made of whole sectors, begins below byte 2,048, or is smaller than 1,536 bytes.
    AreaShape {
        offset: u64,
        size: u64,
    },
    /// The areas at these offsets share a byte.
    AreasOverlap {
        first: u64,
        second: u64,
    },
    /// There is a bootloader area, the first at this offset.
    Bootloader(u64),
}

/// The kind, and the values in the order of the fields, separated by single spaces.
impl fmt::Display for PvRefusal {
    ghost output = { λ refusal. Some (shown_text (shown_pv refusal)) };

    fn fmt<W: fmt::Write>(&self, f: &mut fmt::Formatter<W>) -> fmt::Result {
        match *self {
            PvRefusal::NoMemory => write_shown(f, "NoMemory", &[]),
            PvRefusal::BadId(place) => write_shown(f, "BadId", &[Shown::Number(place as u64)]),
            PvRefusal::ListUnended(list) => write_shown(
                f,
                "ListUnended",
                &[Shown::Number(u64::from(list))],
            ),
            PvRefusal::AreaOutside {
                offset,
                size,
                disk_bytes,
            } => write_shown(
                f,
                "AreaOutside",
                &[
                    Shown::Number(offset),
                    Shown::Number(size),
                    Shown::Number(disk_bytes),
                ],
            ),
            PvRefusal::AreaShape { offset, size } => write_shown(
                f,
                "AreaShape",
                &[Shown::Number(offset), Shown::Number(size)],
            ),
            PvRefusal::AreasOverlap { first, second } => write_shown(
                f,
                "AreasOverlap",
                &[Shown::Number(first), Shown::Number(second)],
            ),
            PvRefusal::Bootloader(offset) => write_shown(f, "Bootloader", &[Shown::Number(offset)]),
        }
    }
}

impl From<AllocError> for PvRefusal {
    ghost from_gives = { λ _ e. e ≡ NoMemory };

    fn from(_e: AllocError) -> PvRefusal {
        PvRefusal::NoMemory
    }
}

impl<T: Drop> From<AllocFailed<T>> for PvRefusal {
    ghost from_gives = { λ _ e. e ≡ NoMemory };

    fn from(_e: AllocFailed<T>) -> PvRefusal {
        PvRefusal::NoMemory
    }
}
