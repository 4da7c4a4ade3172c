//! The disks of a group's physical volumes.
ghost use Rattle.std.specs.Prelude.{◌≡◌, ◌≤◌, length, IfOk};
ghost use Rattle.vg_found.specs.Disks.{disk_with, disks_of, header_on, headers_by_id, put_header};

use crate::Disk;
use disk_contents::PvFound;
use id_index::IdMap;
use lvm_id::LvmId;
use meta_model::Group;
use sector_base::PvDisks;
use std::alloc::{AllocError, Global};

/// The disk of each physical volume of the group: the first whose header has its id, or the number of disks where none
/// has.
///
/// # Errors
///
/// Where memory is wanting.
pub fn disks_of(alloc: Global, group: &Group, disks: &[Disk]) -> Result<PvDisks, AllocError>
    requires few { length disks.now ≤ 64 }
    ensures { IfOk result (λ numbers. numbers ≡ disks_of group.now disks.now) }
{
    let by_id = headers_by_id(alloc, disks)?;
    let mut numbers = Vec::with_capacity(alloc, group.pvs.len())?;
    for number in 0..group.pvs.len() {
        let (_, pv) = group.pvs.get(number);
        numbers.push(disk_with(&by_id, disks, &pv.id))?;
    }
    Ok(PvDisks::from_vec(numbers))
}

// The number of each disk by the id of its header; of those with one id that of the first. Only memory can be wanting.
fn headers_by_id(alloc: Global, disks: &[Disk]) -> Result<IdMap, AllocError>
    requires few { length disks.now ≤ 64 }
    ensures { IfOk result (λ by_id. by_id ≡ headers_by_id 0 disks.now) }
{
    let mut by_id = IdMap::new(alloc);
    for number in (0..disks.len()).rev() {
        put_header(&mut by_id, number as u32, &disks[number])?;
    }
    Ok(by_id)
}

// Puts the disk's number at the id of its header, where it has one. Only memory can be wanting.
fn put_header(by_id: &mut IdMap, number: u32, disk: &Disk) -> Result<(), AllocError>
    ensures { IfOk result (λ _. by_id.new ≡ put_header number (header_on disk.now.contents) by_id.old) }
{
    if let Some(PvFound::Whole { header, .. }) = &disk.contents {
        by_id.insert(&header.id, number)?;
    }
    Ok(())
}

// The first of the disks whose header has this id, or the number of disks.
fn disk_with(by_id: &IdMap, disks: &[Disk], id: &LvmId) -> u32
    requires few { length disks.now ≤ 64 }
    requires by_id { by_id.now ≡ headers_by_id 0 disks.now }
    ensures { result ≡ disk_with disks.now id.now }
{
    by_id.get(id).unwrap_or(disks.len() as u32)
}
