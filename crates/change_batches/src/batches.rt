//! The batches of a change.
ghost use Rattle.std.specs.Prelude.{◌≡◌, ◌<◌, ◌++◌, ℕ, List, length, flat_map, map, All, IfOk, OnOk, None};
ghost use Rattle.conf_text.specs.Printed.{printed};
ghost use Rattle.meta_print.specs.Layout.{tree_of};
ghost use Rattle.disk_batch.specs.Batches.{writes_of};
ghost use Rattle.disk_batch.specs.InTurn.{CanRun};
ghost use Rattle.disk_batch.specs.Writes.{disks_in};
ghost use Rattle.vg_commit.specs.Preparing.{AreCommitted, IsPrepared};
ghost use Rattle.vg_commit.specs.TooLarge.{first_too_large};
ghost use Rattle.group_plan.specs.Judging.{set_of};
ghost use Rattle.change_batches.specs.Batches.{area_puts, change_batches, label_put};
ghost use Rattle.change_batches.specs.Building.{Is, IsAdded, IsOnFew, IsTextAdded, areas_on, disks_written};
ghost use Rattle.change_batches.specs.Sound.{CanLabel, CanMake, FitsFields, IsReadAgain, LiesOn};

use crate::label_sector::{area_write, label_write};
use disk_batch::{Batch, Writes};
use group_plan::{Change, NewLabel, set_of};
use mda_header::Locn;
use mda_ring::{Area, Areas};
use meta_model::Group;
use meta_print::text_of;
use sector_base::{PvDisks, PvSet, Sectors, Span, Text};
use std::alloc::{AllocError, Global};
use vg_commit::{CommitRefusal, Prepared, prepare_text};

/// The batches of the change behind its zeros, at this time, on disks that have these areas. Only memory can be wanting.
pub fn batches_of(
    alloc: Global,
    areas: &Areas,
    change: &Change,
    now: u64,
) -> Result<Vec<Batch>, AllocError>
    requires { CanMake areas.now change.now now }
    ensures writes { IfOk result (λ batches. map writes_of batches.items ≡ change_batches change.now areas.now now) }
    ensures read_again { OnOk result (IsReadAgain areas.now change.now now) }
    ensures can_run { (sizes : List ℕ) → LiesOn sizes areas.now change.now → IfOk result (λ batches. All (CanRun sizes) batches.items) }
{
    let mut batches = Vec::new(alloc);
    if change.group.is_none() {
        push_batch(
            alloc,
            area_writes(alloc, change.labels.as_slice())?,
            &mut batches,
        )?;
    }
    push_batch(
        alloc,
        label_writes(alloc, change.labels.as_slice())?,
        &mut batches,
    )?;
    if let Some(group) = &change.group {
        push_commit(
            alloc,
            areas,
            &change.disk_of,
            group.group(),
            now,
            &mut batches,
        )?;
    }
    Ok(batches)
}

// The writes of the headers of all areas of new physical volumes.
fn area_writes(alloc: Global, labels: &[NewLabel]) -> Result<Vec<(Span, Sectors)>, AllocError>
    ensures { IfOk result (λ list. list.items ≡ flat_map area_puts labels.now) }
{
    let mut list = Vec::new(alloc);
    for label in labels {
        push_areas(alloc, label, &mut list)?;
    }
    Ok(list)
}

// Adds those behind this label.
fn push_areas(
    alloc: Global,
    label: &NewLabel,
    list: &mut Vec<(Span, Sectors)>,
) -> Result<(), AllocError>
    ensures { OnOk result (list.new.items ≡ list.old.items ++ area_puts label.now) }
{
    for area in label.header.areas.as_slice() {
        list.push(area_write(alloc, label.disk, area)?)?;
    }
    Ok(())
}

/// The writes of label sectors, one for each label, in their order. Only memory can be wanting.
pub fn label_writes(alloc: Global, labels: &[NewLabel]) -> Result<Vec<(Span, Sectors)>, AllocError>
    requires { All CanLabel labels.now }
    ensures writes { IfOk result (λ list. list.items ≡ map label_put labels.now) }
    ensures fits { OnOk result (All FitsFields labels.now) }
{
    let mut list = Vec::with_capacity(alloc, labels.len())?;
    for label in labels {
        list.push(label_write(alloc, label)?)?;
    }
    Ok(list)
}

/// Puts a batch of these writes, which flushes their disks, behind the others. Where there is no write it puts none. Only
/// memory can be wanting.
pub fn push_batch(
    alloc: Global,
    list: Vec<(Span, Sectors)>,
    batches: &mut Vec<Batch>,
) -> Result<(), AllocError>
    requires { All IsOnFew list.items }
    ensures { OnOk result (IsAdded list.items batches.old.items batches.new.items) }
{
    if list.is_empty() {
        return Ok(());
    }
    let disks = disks_of(&list);
    let batch = new_batch(alloc, list, disks)?;
    batches.push(batch)?;
    Ok(())
}

// A batch of these writes, with flushes of these disks.
fn new_batch(alloc: Global, list: Vec<(Span, Sectors)>, disks: PvSet) -> Result<Batch, AllocError>
    requires { 0 < length (disks_in disks) }
    ensures { IfOk result (Is list.items disks) }
{
    match Batch::new(alloc, Writes::from_vec(list), disks) {
        Ok(batch) => Ok(batch),
        Err(_) => Err(AllocError),
    }
}

// The disks of the writes.
fn disks_of(list: &[(Span, Sectors)]) -> PvSet
    requires { All IsOnFew list.now }
    ensures { result ≡ set_of (disks_written list.now) }
{
    let mut disks = PvSet::new();
    for (span, _) in list {
        disks.insert(span.pv);
    }
    disks
}

// Adds the three batches of the commit of the group to the areas on these disks.
fn push_commit(
    alloc: Global,
    areas: &Areas,
    disk_of: &PvDisks,
    group: &Group,
    now: u64,
    batches: &mut Vec<Batch>,
) -> Result<(), AllocError>
    requires listed { All (λ pv. pv < 64) disk_of.now }
    requires committed { AreCommitted (areas_on (set_of disk_of.now) areas.now) (set_of disk_of.now) }
    requires room { first_too_large (printed (tree_of group.now now)) (areas_on (set_of disk_of.now) areas.now) ≡ None }
    ensures { OnOk result (IsTextAdded (printed (tree_of group.now now)) (areas_on (set_of disk_of.now) areas.now) (set_of disk_of.now) batches.old.items batches.new.items) }
{
    let flush = set_of(disk_of.as_slice());
    let areas = areas_on(alloc, areas.as_slice(), flush)?;
    let text = text_of(alloc, group, now)?;
    push_text(alloc, &areas, flush, &text, batches)
}

/// Puts the three batches of the commit of the text, which has room in each of the areas, behind the others: the first flushes
/// these disks, the others those of the areas. Only memory can be wanting.
pub fn push_text(
    alloc: Global,
    areas: &Areas,
    flush: PvSet,
    text: &Text,
    batches: &mut Vec<Batch>,
) -> Result<(), AllocError>
    requires committed { AreCommitted areas.now flush }
    requires room { first_too_large text.now areas.now ≡ None }
    ensures { OnOk result (IsTextAdded text.now areas.now flush batches.old.items batches.new.items) }
{
    let (texts, headers, publish) = prepared(alloc, areas, flush, text)?.into_batches();
    batches.push(texts)?;
    batches.push(headers)?;
    batches.push(publish)?;
    Ok(())
}

// The commit of the text.
fn prepared(alloc: Global, areas: &Areas, flush: PvSet, text: &Text) -> Result<Prepared, AllocError>
    requires committed { AreCommitted areas.now flush }
    requires room { first_too_large text.now areas.now ≡ None }
    ensures { IfOk result (λ prepared. IsPrepared prepared areas.now flush text.now) }
{
    match prepare_text(alloc, areas, flush, text) {
        Ok(prepared) => Ok(prepared),
        Err(CommitRefusal::NoMemory) => Err(AllocError),
        Err(CommitRefusal::TooLarge { .. }) => unreachable!(),
    }
}

// The areas on disks of the set.
fn areas_on(
    alloc: Global,
    areas: &[(Area, Option<Locn>)],
    disks: PvSet,
) -> Result<Areas, AllocError>
    ensures { IfOk result (λ list. list ≡ areas_on disks areas.now) }
{
    let mut list = Vec::new(alloc);
    for (area, entry) in areas {
        if disks.contains(area.pv) {
            list.push((*area, *entry))?;
        }
    }
    Ok(Areas::from_vec(list))
}
