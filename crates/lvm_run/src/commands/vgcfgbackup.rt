//! vgcfgbackup: the metadata of a group, as a backup.
ghost use Rattle.std.specs.Prelude.{◌≡◌, ◌≤◌, ℕ, List, Option, length};
ghost use Rattle.vg_found.specs.Shape.{HasShape};
ghost use Rattle.lvm_run.specs.Backup.{IsBackedUp, IsWholeBackedUp};
ghost use Rattle.lvm_run.specs.Commands.Vgcfgbackup.{vgcfgbackup};
ghost use Rattle.lvm_run.specs.Disks.{AreDisks};
ghost use Rattle.lvm_run.specs.Meets.{Meets};

use crate::outcome::Outcome;
use crate::scanned::{partial_ending, scan_ending};
use disk_model::Shelf;
use line_answers::{Answer, DiskNames, OpRefusal};
use meta_model::Group;
use meta_print::backup_text;
use sector_base::Text;
use std::alloc::{AllocError, Global};
use vg_found::Found;
use vg_scan::scan;

/// Scans the disks and prints the backup of the group in force, at this time, where the line names it and it is whole. It
/// submits reads alone.
pub fn run_vgcfgbackup<S: Shelf>(
    alloc: Global,
    shelf: &mut S,
    names: &DiskNames,
    vg: Text,
    now: u64,
) -> Outcome
    requires disks { AreDisks (length names.now) (S.state shelf.old) }
    requires some { 1 ≤ length names.now }
    requires few { length names.now ≤ 64 }
    ensures { (id : Option (List ℕ)) → Meets (vgcfgbackup vg) (record { names = names.now; sizes = (S.state shelf.old).sizes; id = id; now = now })
        (S.state shelf.old) result (S.state shelf.new) }
{
    match scan(alloc, shelf) {
        Ok(found) => back_up_found(alloc, found, vg, now),
        Err(stopped) => Outcome::Ended(scan_ending(stopped)),
    }
}

// The backup of what was found, where that is whole.
fn back_up_found(alloc: Global, found: Found, vg: Text, now: u64) -> Outcome
    requires { HasShape found }
    ensures { IsWholeBackedUp found vg now result }
{
    match found.whole() {
        Ok(whole) => match &whole.found().group {
            Some(group) => back_up(alloc, group.group(), vg, now),
            None => Outcome::Answered(1, Answer::Refused(OpRefusal::UnknownGroup(vg))),
        },
        Err(refused) => Outcome::Ended(partial_ending(refused)),
    }
}

// The backup of the group, where it has the name.
fn back_up(alloc: Global, group: &Group, vg: Text, now: u64) -> Outcome
    ensures { IsBackedUp group.now vg now result }
{
    if group.name.as_bytes() != vg.as_bytes() {
        return Outcome::Answered(1, Answer::Refused(OpRefusal::UnknownGroup(vg)));
    }
    match backup_text(alloc, group, now) {
        Ok(text) => Outcome::Reported { text, whole: true },
        Err(AllocError) => Outcome::Answered(1, Answer::NoMemory),
    }
}
