//! The batch of label sectors that are written again, with the mark that a group uses the physical volume or without it.
ghost use Rattle.std.specs.Prelude.{◌≡◌, ◌≤◌, length, IfOk, OnOk};
ghost use Rattle.vg_found.specs.Disks.{held_areas};
ghost use Rattle.group_plan.specs.Cleared.{marked_label, marked_labels};
ghost use Rattle.change_batches.specs.Building.{AreLabelsAdded, AreScanned};
ghost use Rattle.change_batches.specs.Sound.{sizes_of};

use crate::batches::{label_writes, push_batch};
use disk_batch::Batch;
use disk_contents::PvFound;
use group_plan::{NewLabel, copied_header, marked};
use sector_base::PvSet;
use std::alloc::{AllocError, Global};
use vg_found::Disk;

/// Puts the batch of the label sectors of these of the disks, with the mark or without it, behind the others, if there is one
/// of them. Only memory can be wanting.
pub fn push_labels(
    alloc: Global,
    disks: &[Disk],
    among: PvSet,
    in_use: bool,
    batches: &mut Vec<Batch>,
) -> Result<(), AllocError>
    requires { AreScanned disks.now (held_areas 0 disks.now) }
    ensures { OnOk result (AreLabelsAdded (marked_labels in_use among disks.now) (sizes_of disks.now) batches.old.items batches.new.items) }
{
    let labels = marked_labels(alloc, disks, among, in_use)?;
    let list = label_writes(alloc, &labels)?;
    push_batch(alloc, list, batches)?;
    Ok(())
}

// The label sectors of these of the disks.
fn marked_labels(
    alloc: Global,
    disks: &[Disk],
    among: PvSet,
    in_use: bool,
) -> Result<Vec<NewLabel>, AllocError>
    requires few { length disks.now ≤ 64 }
    ensures { IfOk result (λ labels. labels.items ≡ marked_labels in_use among disks.now) }
{
    let mut labels = Vec::new(alloc);
    for (number, disk) in disks.iter().enumerate() {
        if let Some(label) = marked_label(alloc, number as u32, disk, among, in_use)? {
            labels.push(label)?;
        }
    }
    Ok(labels)
}

// That of this disk, where it is one of them and holds a physical volume.
fn marked_label(
    alloc: Global,
    pv: u32,
    disk: &Disk,
    among: PvSet,
    in_use: bool,
) -> Result<Option<NewLabel>, AllocError>
    ensures { IfOk result (λ label. label ≡ marked_label in_use among (pv, disk.now)) }
{
    if !among.contains(pv) {
        return Ok(None);
    }
    match &disk.contents {
        Some(PvFound::Whole { label, header, .. }) => Ok(Some(NewLabel {
            disk: pv,
            sector: *label,
            header: marked(copied_header(alloc, header)?, in_use),
        })),
        _ => Ok(None),
    }
}
