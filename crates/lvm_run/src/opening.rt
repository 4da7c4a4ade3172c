//! The disks are flushed and scanned, before a command changes something.
ghost use Rattle.std.specs.Prelude.{◌≡◌, ◌≤◌, length, is_ok, MatchResult};
ghost use Rattle.disk_model.specs.Idle.{IsIdleAgain};
ghost use Rattle.disk_model.specs.Since.{BetweenRecords};
ghost use Rattle.vg_found.specs.Shape.{HasShape};
ghost use Rattle.lvm_run.specs.Disks.{AreDisks};
ghost use Rattle.lvm_run.specs.Scan.{IsOpenCause, IsOpened, IsTakenAsFound, OpensDisks};

use crate::ending::Ending;
use crate::scanned::{partial_ending, scan_ending};
use disk_batch::flush_all;
use disk_model::Shelf;
use std::alloc::{AllocError, Global};
use vg_found::{Found, Whole};
use vg_scan::scan;

/// Flushes all disks, scans them, and gives what is found, where each disk was read and the group is whole. Nothing is
/// written.
pub fn open_disks<S: Shelf>(alloc: Global, shelf: &mut S) -> Result<Whole, Ending>
    requires disks { AreDisks (length (S.state shelf.old).sizes) (S.state shelf.old) }
    requires some { 1 ≤ length (S.state shelf.old).sizes }
    requires few { length (S.state shelf.old).sizes ≤ 64 }
    ensures again { IsIdleAgain (S.state shelf.old) (S.state shelf.new) }
    ensures cause { MatchResult result (λ whole. IsOpened (S.state shelf.old) whole (S.state shelf.new)) (IsOpenCause (S.state shelf.old) (S.state shelf.new)) }
    ensures told { BetweenRecords (λ old new. OpensDisks (S.state shelf.old).sizes old (is_ok result) new) (S.state shelf.old).told (S.state shelf.new).told }
{
    if let Err(AllocError) = shelf.reserve(u64::from(shelf.count()), 0) {
        return Err(Ending::NoMemory);
    }
    if let Err(fault) = flush_all(shelf) {
        return Err(Ending::OpenFailed(fault.pv));
    }
    match scan(alloc, shelf) {
        Ok(found) => taken(found),
        Err(stopped) => Err(scan_ending(stopped)),
    }
}

// What was found, where it is whole.
fn taken(found: Found) -> Result<Whole, Ending>
    requires { HasShape found }
    ensures { IsTakenAsFound found result }
{
    match found.whole() {
        Ok(whole) => Ok(whole),
        Err(refused) => Err(partial_ending(refused)),
    }
}
