//! The mark in the header of a physical volume that says that a group uses it.
ghost use Rattle.std.specs.Prelude.{◌≡◌};
ghost use Rattle.group_plan.specs.Marks.{marked, marked_flags};

use pv_header::PvHeader;

/// The header with version 2, and with the lowest flag, which says that a group uses the physical volume, or without it.
pub fn marked(header: PvHeader, in_use: bool) -> PvHeader
    ensures { result ≡ marked in_use header }
{
    let PvHeader {
        id,
        device_bytes,
        data_areas,
        areas,
        flags,
        ..
    } = header;
    PvHeader {
        id,
        device_bytes,
        data_areas,
        areas,
        version: 2,
        flags: marked_flags(flags, in_use),
    }
}

// The flags with the lowest one, or without it.
fn marked_flags(flags: u32, in_use: bool) -> u32
    ensures { result ≡ marked_flags in_use flags }
{
    if in_use { flags | 1 } else { flags - flags % 2 }
}
