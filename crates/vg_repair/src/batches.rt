//! The batches of a repair.
ghost use Rattle.std.specs.Prelude.{◌≡◌, ◌<◌, All, MatchResult, unwrap_or};
ghost use Rattle.vg_found.specs.Shape.{HasShape};
ghost use Rattle.vg_commit.specs.Preparing.{area_disks};
ghost use Rattle.change_batches.specs.Building.{AreHeld};
ghost use Rattle.vg_repair.specs.Building.{AreRewritten, IsMade};
ghost use Rattle.vg_repair.specs.Stale.{IsCause, stale_areas, text_of};

use crate::RepairFault;
use crate::areas::{have_room, stale_areas};
use change_batches::{push_clears, push_labels, push_text};
use disk_batch::Batch;
use mda_ring::Areas;
use sector_base::{PvSet, Text};
use std::alloc::Global;
use vg_found::Found;

// The batches of the repair of what was found. The error is `TooLarge` exactly where a stale area can't take the text; else
// only memory can be wanting.
pub(crate) fn batches_of(alloc: Global, found: &Found) -> Result<Vec<Batch>, RepairFault>
    requires { HasShape found.now }
    ensures { MatchResult result (λ batches. IsMade found.now batches.items) (IsCause (text_of found.now) (stale_areas found.now)) }
{
    let mut batches = Vec::new(alloc);
    let stale = stale_areas(alloc, found.disks.as_slice(), found.stale.as_slice())?;
    let none = Text::from_vec(Vec::new(alloc));
    push_rewrites(alloc, &stale, text_or(&found.text, &none), &mut batches)?;
    push_labels(alloc, found.disks.as_slice(), found.old, true, &mut batches)?;
    push_clears(
        alloc,
        found.disks.as_slice(),
        found.areas.as_slice(),
        found.strays,
        &mut batches,
    )?;
    Ok(batches)
}

// The text, or where there is none this one.
fn text_or<'a>(text: &'a Option<Text>, none: &'a Text) -> &'a Text
    ensures { result.now ≡ unwrap_or text.now none.now }
{
    match text {
        Some(text) => text,
        None => none,
    }
}

// Adds the three batches of a commit of the text to these areas, if there are any.
fn push_rewrites(
    alloc: Global,
    areas: &Areas,
    text: &Text,
    batches: &mut Vec<Batch>,
) -> Result<(), RepairFault>
    requires { AreHeld areas.now }
    ensures { MatchResult result (λ _. AreRewritten text.now areas.now batches.old.items batches.new.items) (IsCause text.now areas.now) }
{
    if areas.len() == 0 {
        return Ok(());
    }
    have_room(areas.as_slice(), text)?;
    push_text(alloc, areas, disks_of(areas), text, batches)?;
    Ok(())
}

// The disks of the areas.
fn disks_of(areas: &Areas) -> PvSet
    requires { All (λ area. area.0.pv < 64) areas.now }
    ensures { result ≡ area_disks areas.now }
{
    let mut disks = PvSet::new();
    for (area, _) in areas.as_slice() {
        disks.insert(area.pv);
    }
    disks
}
