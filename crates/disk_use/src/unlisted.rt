//! Of disks that were scanned, one that a group uses which wasn't found.
ghost use Rattle.std.specs.Prelude.{◌≡◌, ◌≤◌, ◌<◌, length, true, MatchOption};
ghost use Rattle.std.specs.Bool.{MatchBool};
ghost use Rattle.disk_use.specs.Unlisted.{AreListed, IsUnlisted, is_marked_at, is_marked_disk};
ghost use Rattle.disk_use.specs.Uses.{IsAmong};

use crate::look::is_marked;
use crate::marked::is_among;
use disk_contents::PvFound;
use vg_found::{Disk, Found};

/// The first disk whose label says that a group uses it (PV_EXT_USED of lvm2's on-disk format), where no group was found that
/// lists it or whose stray it is.
pub fn first_unlisted(found: &Found) -> Option<u32>
    requires { length found.now.disks ≤ 64 }
    ensures { MatchOption result (AreListed found.now) (IsUnlisted found.now) }
{
    for number in 0..found.disks.len() {
        if is_unlisted(found, number as u32) {
            return Some(number as u32);
        }
    }
    None
}

// Whether it is such a disk.
fn is_unlisted(found: &Found, number: u32) -> bool
    requires { number < length found.now.disks }
    ensures { MatchBool result (IsUnlisted found.now number) (is_marked_at found.now number ≡ true → IsAmong found.now number) }
{
    is_marked_disk(found.disks.get(number as usize)) && !is_among(found, number)
}

// Whether the label of the disk says that a group uses it.
fn is_marked_disk(disk: &Disk) -> bool
    ensures { result ≡ is_marked_disk disk.now }
{
    match &disk.contents {
        Some(PvFound::Whole { header, .. }) => is_marked(header),
        _ => false,
    }
}
