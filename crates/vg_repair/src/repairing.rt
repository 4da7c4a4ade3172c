//! A repair.
ghost use Rattle.std.specs.Prelude.{◌≡◌, [], MatchResult};
ghost use Rattle.disk_model.specs.Idle.{IsIdleAgain};
ghost use Rattle.disk_model.specs.Since.{BetweenRecords};
ghost use Rattle.vg_found.specs.Shape.{HasShape};
ghost use Rattle.change_batches.specs.Sound.{sizes_of};
ghost use Rattle.vg_repair.specs.Batches.{repair_batches};
ghost use Rattle.vg_repair.specs.Building.{IsMade};
ghost use Rattle.vg_repair.specs.Laws.{KeepsImages, StraysAreOthers};
ghost use Rattle.vg_repair.specs.Repaired.{repaired_of};
ghost use Rattle.vg_repair.specs.Repairing.{HasBegun, IsFault, IsRepaired, Repairs};
ghost use Rattle.vg_repair.specs.Stale.{IsCause, stale_areas, text_of};

use crate::RepairFault;
use crate::batches::batches_of;
use crate::repaired::repaired;
use disk_batch::{Batch, reserve_all, write_in_turn};
use disk_model::Shelf;
use std::alloc::Global;
use vg_found::Whole;

/// Writes the text that was found, byte for byte, to each stale area, brings up the header of each old disk, and clears each
/// stray, on the disks that were scanned, where nothing else is in flight; and gives what is found then. All memory is taken
/// before anything is written. Where nothing is stale, no disk is old and there is no stray, nothing is written.
///
/// # Errors
///
/// `TooLarge` exactly where a stale area can't take the text beside its committed one, with the disk of the first such area,
/// the sectors that it needs and those that there are; `Pv` only where an operation failed on that disk in this call;
/// `NoMemory` where memory is wanting.
pub fn repair<S: Shelf>(alloc: Global, whole: Whole, shelf: &mut S) -> Result<Whole, RepairFault>
    requires idle { (S.state shelf.old).in_flight ≡ [] }
    requires disks { (S.state shelf.old).sizes ≡ sizes_of whole.disks }
    ensures again { IsIdleAgain (S.state shelf.old) (S.state shelf.new) }
    ensures cause { MatchResult result (IsRepaired whole (S.state shelf.old) (S.state shelf.new)) (IsFault whole (S.state shelf.old) (S.state shelf.new)) }
    ensures told { BetweenRecords (Repairs (repair_batches whole) result) (S.state shelf.old).told (S.state shelf.new).told }
    // In every image that a crash leaves on the way.
    ensures images { HasBegun result → StraysAreOthers whole → KeepsImages whole }
{
    let (batches, repaired) = match prepared(alloc, whole) {
        Ok(prepared) => prepared,
        Err(fault) => return Err(fault),
    };
    if let Err(_) = reserve_all(&batches, shelf) {
        return Err(RepairFault::NoMemory);
    }
    match write_in_turn(batches, shelf) {
        Ok(()) => Ok(repaired),
        Err(pv) => Err(RepairFault::Pv(pv)),
    }
}

// The batches of the repair, and what is found once they are carried out.
fn prepared(alloc: Global, whole: Whole) -> Result<(Vec<Batch>, Whole), RepairFault>
    ensures { MatchResult result
        (λ prepared. HasShape whole × IsMade whole prepared.0.items × (prepared.1 ≡ repaired_of whole))
        (IsCause (text_of whole) (stale_areas whole)) }
{
    let found = whole.into_found();
    let batches = batches_of(alloc, &found)?;
    let repaired = repaired(alloc, found)?;
    Ok((batches, repaired))
}
