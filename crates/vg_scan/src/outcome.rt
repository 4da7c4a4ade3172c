//! What the readings of all disks come to.
ghost use Rattle.std.specs.Prelude.{◌≡◌, ◌≤◌, [], length, option_map, unwrap_or, IfOk, MatchResult};
ghost use Rattle.scan_rules.specs.Answers.{IsRefusedBy};
ghost use Rattle.scan_rules.specs.Decision.{decide_scan};
ghost use Rattle.vg_scan.specs.Outcome.{IsOutcome, listed_disks};
ghost use Rattle.vg_scan.specs.Scanned.{HaveShapes};

use meta_read::Unknown;
use scan_rules::{Decided, GroupCopy, Readings, ScanRefusal, decide};
use sector_base::{ItemList, PvDisks, PvSet, Text};
use std::alloc::{AllocError, Global};
use vg_check::Checked;
use vg_found::{Disk, DiskTable, Found, disks_of, held_areas, old_disks};

// What the readings of these disks come to, of which some are unread.
pub(crate) fn found_of(
    alloc: Global,
    readings: Readings,
    disks: Vec<Disk>,
    unread: PvSet,
) -> Result<Found, ScanRefusal>
    requires some { 1 ≤ length disks.items }
    requires few { length disks.items ≤ 64 }
    requires shapes { HaveShapes disks.items unread readings.disks }
    ensures { MatchResult result (IsOutcome disks.items unread readings.disks) (IsRefusedBy (decide_scan readings.disks)) }
{
    let decided = decide(alloc, readings)?;
    let areas = held_areas(alloc, &disks)?;
    let Decided {
        copy,
        stale,
        strays,
        missing,
    } = decided;
    let disk_of = pv_disks(alloc, &copy, &disks)?;
    let old = old_disks(&disks, disk_of.as_slice());
    let (group, text, unknown) = parts_of(alloc, copy);
    Ok(Found {
        group,
        text,
        unknown,
        disks: DiskTable::from_vec(disks),
        areas,
        stale,
        strays,
        old,
        missing,
        disk_of,
        unread,
    })
}

// The disks of the physical volumes of the group whose copy was found; without a copy there are none.
fn pv_disks(alloc: Global, copy: &Option<GroupCopy>, disks: &[Disk]) -> Result<PvDisks, AllocError>
    requires { length disks.now ≤ 64 }
    ensures { IfOk result (λ numbers. numbers ≡ listed_disks (option_map (λ found. found.group) copy.now) disks.now) }
{
    match copy {
        Some(copy) => disks_of(alloc, copy.group.group(), disks),
        None => Ok(PvDisks::from_vec(Vec::new(alloc))),
    }
}

// The group of a copy, its text and the paths of its keys that are passed over; without a copy there are none.
fn parts_of(alloc: Global, copy: Option<GroupCopy>) -> (Option<Checked>, Option<Text>, Unknown)
    ensures group { result.0 ≡ option_map (λ found. found.group) copy }
    ensures text { result.1 ≡ option_map (λ found. found.text) copy }
    ensures unknown { result.2 ≡ unwrap_or (option_map (λ found. found.passed) copy) [] }
{
    match copy {
        Some(copy) => (Some(copy.group), Some(copy.text), copy.passed),
        None => (None, None, ItemList::from_vec(Vec::new(alloc))),
    }
}
