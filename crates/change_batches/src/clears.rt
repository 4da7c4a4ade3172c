//! The batches that clear the disks which a group lets go: their label sectors, without the flag that says that a group uses
//! them, and then the headers of their areas, in which no text stands.
ghost use Rattle.std.specs.Prelude.{◌≡◌, map, All, IfOk, OnOk};
ghost use Rattle.disk_batch.specs.Batches.{writes_of};
ghost use Rattle.disk_batch.specs.InTurn.{CanRun};
ghost use Rattle.group_plan.specs.Cleared.{cleared_areas, unused_labels};
ghost use Rattle.group_plan.specs.State.{IsState};
ghost use Rattle.change_batches.specs.Batches.{clear_batches, clear_put};
ghost use Rattle.change_batches.specs.Building.{AreClearsAdded, AreScanned};
ghost use Rattle.change_batches.specs.Sound.{sizes_of, FitsFields};

use crate::batches::push_batch;
use crate::marked_labels::push_labels;
use disk_batch::Batch;
use group_plan::{Change, GroupState};
use mda_header::Locn;
use mda_ring::Area;
use sector_base::{PvSet, Sectors, Span};
use std::alloc::{AllocError, Global};
use vg_commit::header_write;
use vg_found::Disk;

/// The batches that clear the disks which the group of this state lets go by the change. Only memory can be wanting.
pub fn clears_of(
    alloc: Global,
    state: &GroupState,
    change: &Change,
) -> Result<Vec<Batch>, AllocError>
    requires { IsState state.now }
    ensures writes { IfOk result (λ batches. map writes_of batches.items ≡ clear_batches change.now.cleared state.now.disks state.now.areas) }
    ensures can_run { IfOk result (λ batches. All (CanRun (sizes_of state.now.disks)) batches.items) }
    ensures fields { OnOk result (All FitsFields (unused_labels change.now.cleared state.now.disks)) }
{
    let mut batches = Vec::new(alloc);
    push_clears(
        alloc,
        state.disks.as_slice(),
        state.areas.as_slice(),
        change.cleared,
        &mut batches,
    )?;
    Ok(batches)
}

/// Puts the batches that clear these of the disks, which have these areas, behind the others. Only memory can be wanting.
pub fn push_clears(
    alloc: Global,
    disks: &[Disk],
    areas: &[(Area, Option<Locn>)],
    cleared: PvSet,
    batches: &mut Vec<Batch>,
) -> Result<(), AllocError>
    requires { AreScanned disks.now areas.now }
    ensures { OnOk result (AreClearsAdded cleared disks.now areas.now batches.old.items batches.new.items) }
{
    push_labels(alloc, disks, cleared, false, batches)?;
    let headers = clear_writes(alloc, areas, cleared)?;
    push_batch(alloc, headers, batches)?;
    Ok(())
}

// The writes of empty headers to the areas on the cleared disks.
fn clear_writes(
    alloc: Global,
    areas: &[(Area, Option<Locn>)],
    cleared: PvSet,
) -> Result<Vec<(Span, Sectors)>, AllocError>
    ensures { IfOk result (λ list. list.items ≡ map clear_put (cleared_areas cleared areas.now)) }
{
    let mut list = Vec::new(alloc);
    for (area, _) in areas {
        if cleared.contains(area.pv) {
            list.push(header_write(alloc, area, None, None)?)?;
        }
    }
    Ok(list)
}
