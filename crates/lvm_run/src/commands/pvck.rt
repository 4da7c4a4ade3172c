//! pvck: the report on a disk.
ghost use Rattle.std.specs.Prelude.{◌≡◌, ◌≤◌, ℕ, List, Option, length};
ghost use Rattle.lvm_run.specs.Commands.Pvck.{pvck};
ghost use Rattle.lvm_run.specs.Disks.{AreDisks};
ghost use Rattle.lvm_run.specs.Meets.{Meets};

use crate::ending::Ending;
use crate::outcome::Outcome;
use disk_contents::ReadRefusal;
use disk_model::Shelf;
use line_answers::{Answer, DiskNames, OpRefusal};
use lvm_report::pvck;
use sector_base::Text;
use std::alloc::Global;

/// Reports what stands on the disk that the line calls `pv`. It submits reads alone.
pub fn run_pvck<S: Shelf>(alloc: Global, shelf: &mut S, names: &DiskNames, pv: Text) -> Outcome
    requires disks { AreDisks (length names.now) (S.state shelf.old) }
    requires few { length names.now ≤ 64 }
    ensures { (id : Option (List ℕ)) (now : ℕ) → Meets (pvck pv) (record { names = names.now; sizes = (S.state shelf.old).sizes; id = id; now = now })
        (S.state shelf.old) result (S.state shelf.new) }
{
    let Some(disk) = names.number_of(pv.as_bytes()) else {
        return Outcome::Answered(1, Answer::Refused(OpRefusal::UnknownPv(pv)));
    };
    match pvck(alloc, shelf, disk) {
        Ok(text) => Outcome::Reported { text, whole: true },
        Err(ReadRefusal::ReadFailed(fault)) => Outcome::Ended(Ending::ScanReadFailed(fault.pv)),
        Err(ReadRefusal::NoMemory) => Outcome::Answered(1, Answer::NoMemory),
    }
}
