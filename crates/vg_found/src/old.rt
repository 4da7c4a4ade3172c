//! The disks of a group whose headers are of an older version than 2.
ghost use Rattle.std.specs.Prelude.{◌≡◌, ◌≤◌, ◌<◌, length, IsTrue};
ghost use Rattle.std.specs.FinSet as set;
ghost use Rattle.vg_found.specs.Disks.{has_old_header, is_old, old_among};

use crate::Disk;
use disk_contents::PvFound;
use sector_base::PvSet;

/// Those of these numbers at which there is a disk whose header is of an older version than 2.
pub fn old_disks(disks: &[Disk], numbers: &[u32]) -> PvSet
    requires few { length disks.now ≤ 64 }
    ensures { result ≡ set.from_list (old_among disks.now numbers.now) }
{
    let mut old = PvSet::new();
    for at in (0..numbers.len()).rev() {
        if is_old(disks, numbers[at]) {
            old.insert(numbers[at]);
        }
    }
    old
}

// Whether there is a disk with this number that has such a header.
fn is_old(disks: &[Disk], number: u32) -> bool
    ensures value { result ≡ is_old disks.now number }
    ensures below { IsTrue result → number < length disks.now }
{
    match disks.get(number as usize) {
        Some(disk) => has_old_header(disk),
        None => false,
    }
}

// Whether the header on a disk is of an older version than 2.
fn has_old_header(disk: &Disk) -> bool
    ensures { result ≡ has_old_header disk.now }
{
    if let Some(PvFound::Whole { header, .. }) = &disk.contents {
        header.version < 2
    } else {
        false
    }
}
