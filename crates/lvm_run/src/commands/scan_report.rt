//! pvs, vgs, lvs and vgck: reports on what a scan of the disks finds.
ghost use Rattle.std.specs.Prelude.{◌≡◌, ◌≤◌, ℕ, List, Option, length, IfOk};
ghost use Rattle.vg_found.specs.Shape.{HasShape};
ghost use Rattle.lvm_run.specs.Disks.{AreDisks};
ghost use Rattle.lvm_run.specs.History.{reports_scan};
ghost use Rattle.lvm_run.specs.Meets.{Meets};
ghost use Rattle.lvm_run.specs.ScanReport.{IsReported, scan_report, text_of};

use crate::outcome::Outcome;
use crate::scanned::scan_ending;
use command_table::Command;
use disk_model::Shelf;
use line_answers::{Answer, DiskNames};
use lvm_report::{lvs, pvs, vgck, vgs};
use sector_base::Text;
use std::alloc::{AllocError, Global};
use vg_found::Found;
use vg_scan::scan;

/// A report on what a scan finds.
#[derive(Clone, Copy, Debug, Drop, PartialEq, Eq)]
pub enum ScanReport {
    /// pvs(8).
    Pvs,
    /// vgs(8).
    Vgs,
    /// lvs(8).
    Lvs,
    /// vgck(8).
    Vgck,
}

/// Whether the command reports on what a scan finds, and does nothing else.
pub fn reports_scan(command: &Command) -> bool
    ensures { result ≡ reports_scan command.now }
{
    matches!(
        command,
        Command::Pvs | Command::Vgs | Command::Lvs | Command::Vgck | Command::Vgcfgbackup { .. }
    )
}

/// Scans the disks and reports on what is found, whatever is missing or unread. It submits reads alone.
pub fn run_scan_report<S: Shelf>(
    alloc: Global,
    shelf: &mut S,
    names: &DiskNames,
    report: ScanReport,
) -> Outcome
    requires disks { AreDisks (length names.now) (S.state shelf.old) }
    requires some { 1 ≤ length names.now }
    requires few { length names.now ≤ 64 }
    ensures { (id : Option (List ℕ)) (now : ℕ) → Meets (scan_report report) (record { names = names.now; sizes = (S.state shelf.old).sizes; id = id; now = now })
        (S.state shelf.old) result (S.state shelf.new) }
{
    match scan(alloc, shelf) {
        Ok(found) => reported(alloc, &found, names, report),
        Err(stopped) => Outcome::Ended(scan_ending(stopped)),
    }
}

// The report on what was found.
fn reported(alloc: Global, found: &Found, names: &DiskNames, report: ScanReport) -> Outcome
    requires { HasShape found.now }
    ensures { IsReported report found.now names.now result }
{
    match text_of(alloc, found, names, report) {
        Ok(text) => Outcome::Reported {
            text,
            whole: found.unread.is_empty(),
        },
        Err(AllocError) => Outcome::Answered(1, Answer::NoMemory),
    }
}

// The text of the report on what was found.
fn text_of(
    alloc: Global,
    found: &Found,
    names: &DiskNames,
    report: ScanReport,
) -> Result<Text, AllocError>
    requires { HasShape found.now }
    ensures { IfOk result (λ text. text ≡ text_of report found.now names.now) }
{
    match report {
        ScanReport::Pvs => pvs(alloc, found, names),
        ScanReport::Vgs => vgs(alloc, found),
        ScanReport::Lvs => lvs(alloc, found),
        ScanReport::Vgck => vgck(alloc, found, names),
    }
}
