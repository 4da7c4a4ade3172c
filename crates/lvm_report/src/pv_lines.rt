//! The lines of pvs: a disk each.
ghost use Rattle.std.specs.Prelude.{◌≡◌, ◌<◌, ◌++◌, IfOk, IfSome, Some, codes, length};
ghost use Rattle.extent_map.specs.AllFree.{AreAllFree};
ghost use Rattle.id_index.specs.Ids.{pvs_by_id};
ghost use Rattle.vg_found.specs.Shape.{HasShape};
ghost use Rattle.volume_rules.specs.Rules.{IsAccepted};
ghost use Rattle.lvm_report.specs.Reports.{disk_line, pv_line, pv_line_in, pv_line_of, pvs_text};
ghost use Rattle.lvm_report.specs.Volumes.{number_with, numbers_in};

use crate::columns::{put_last, put_left, put_right};
use crate::runs::total;
use disk_contents::PvFound;
use extent_map::{FreeRuns, all_free_runs};
use id_index::{IdMap, pvs_by_id};
use line_answers::DiskNames;
use lvm_id::LvmId;
use meta_model::Group;
use std::alloc::{AllocError, Global};
use vg_check::Checked;
use vg_found::Found;

/// Appends a line for each disk with a physical volume, and for each that is unread.
pub fn put_disks(
    alloc: Global,
    text: &mut Vec<u8>,
    found: &Found,
    names: &DiskNames,
) -> Result<(), AllocError>
    requires { HasShape found.now }
    ensures { IfOk result (λ _. text.new.items ≡ text.old.items ++ pvs_text found.now names.now) }
{
    let numbers = numbers_in(alloc, &found.group)?;
    let free = free_in(alloc, &found.group)?;
    for number in 0..found.disks.len() {
        let name = names.bytes_of(number as u32);
        let disk = found.disks.get(number);
        put_disk(text, &found.group, &numbers, &free, name, &disk.contents)?;
    }
    Ok(())
}

// Appends the line of the disk with this name, if it has one.
fn put_disk(
    text: &mut Vec<u8>,
    group: &Option<Checked>,
    numbers: &IdMap,
    free: &FreeRuns,
    name: &[u8],
    contents: &Option<PvFound>,
) -> Result<(), AllocError>
    requires numbers { numbers.now ≡ numbers_in group.now }
    requires free { IfSome group.now (λ group. AreAllFree group free.now) }
    ensures { IfOk result (λ _. text.new.items ≡ text.old.items ++ disk_line group.now name.now contents.now) }
{
    match contents {
        None => put_unread(text, name),
        Some(PvFound::Whole { header, .. }) => put_pv(text, group, numbers, free, name, &header.id),
        Some(PvFound::NoLabel(_) | PvFound::NoHeader { .. }) => Ok(()),
    }
}

// Appends the line of an unread disk.
fn put_unread(text: &mut Vec<u8>, name: &[u8]) -> Result<(), AllocError>
    ensures { IfOk result (λ _. text.new.items ≡ text.old.items ++ name.now ++ codes " unreadable\n") }
{
    text.extend_from_slice(name)?;
    text.extend_from_slice(b" unreadable\n")
}

// Appends the line of the physical volume with this id on the disk with this name.
fn put_pv(
    text: &mut Vec<u8>,
    group: &Option<Checked>,
    numbers: &IdMap,
    free: &FreeRuns,
    name: &[u8],
    id: &LvmId,
) -> Result<(), AllocError>
    requires numbers { numbers.now ≡ numbers_in group.now }
    requires free { IfSome group.now (λ group. AreAllFree group free.now) }
    ensures { IfOk result (λ _. text.new.items ≡ text.old.items ++ pv_line_of group.now name.now id.now) }
{
    match group {
        Some(checked) => put_pv_in(text, checked.group(), numbers, free, name, id),
        None => put_line(text, name, b"-", 0, 0),
    }
}

// The same where there is a group.
fn put_pv_in(
    text: &mut Vec<u8>,
    group: &Group,
    numbers: &IdMap,
    free: &FreeRuns,
    name: &[u8],
    id: &LvmId,
) -> Result<(), AllocError>
    requires accepted { IsAccepted group.now }
    requires numbers { numbers.now ≡ pvs_by_id 0 group.now.pvs }
    requires free { AreAllFree group.now free.now }
    ensures { IfOk result (λ _. text.new.items ≡ text.old.items ++ pv_line_in group.now name.now (number_with group.now id.now)) }
{
    match numbers.get(id) {
        Some(number) => put_listed(text, group, free, name, number),
        None => put_line(text, name, b"-", 0, 0),
    }
}

// Appends the line of the group's physical volume with this number.
fn put_listed(
    text: &mut Vec<u8>,
    group: &Group,
    free: &FreeRuns,
    name: &[u8],
    number: u32,
) -> Result<(), AllocError>
    requires accepted { IsAccepted group.now }
    requires free { AreAllFree group.now free.now }
    requires listed { number < length group.now.pvs }
    ensures { IfOk result (λ _. text.new.items ≡ text.old.items ++ pv_line_in group.now name.now (Some number)) }
{
    let (_, pv) = group.pvs.get(number as usize);
    let free = total(free.get(number as usize).as_slice());
    put_line(text, name, group.name.as_bytes(), pv.pe_count, free)
}

// The numbers of the group's physical volumes by their ids; of those with one id that of the first.
fn numbers_in(alloc: Global, group: &Option<Checked>) -> Result<IdMap, AllocError>
    ensures { IfOk result (λ numbers. numbers ≡ numbers_in group.now) }
{
    match group {
        Some(checked) => pvs_by_id(alloc, &checked.group().pvs),
        None => Ok(IdMap::new(alloc)),
    }
}

// The free runs of the group's physical volumes, where there is a group.
fn free_in(alloc: Global, group: &Option<Checked>) -> Result<FreeRuns, AllocError>
    ensures { IfOk result (λ free. IfSome group.now (λ group. AreAllFree group free)) }
{
    match group {
        Some(checked) => all_free_runs(alloc, checked.group()),
        None => Ok(FreeRuns::from_vec(Vec::new(alloc))),
    }
}

// Appends a line.
fn put_line(
    text: &mut Vec<u8>,
    name: &[u8],
    group: &[u8],
    extents: u64,
    free: u64,
) -> Result<(), AllocError>
    ensures { IfOk result (λ _. text.new.items ≡ text.old.items ++ pv_line name.now group.now extents free) }
{
    put_left(text, 20, name)?;
    put_left(text, 16, group)?;
    put_right(text, 10, extents)?;
    put_last(text, 10, free)
}
