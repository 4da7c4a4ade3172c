//! The world of what a scan of one disk finds.
ghost use Rattle.std.specs.Prelude.{◌≡◌, IfOk, IsTrue, [], length};
ghost use Rattle.disk_model.specs.Idle.{IsIdleAgain};
ghost use Rattle.io_core.specs.Rest.{LiesOn};
ghost use Rattle.world_rows.specs.OneDisk.{IsOneDisk, IsWithin};

use disk_model::Shelf;
use io_core::{OpenRefused, World};
use meta_model::Group;
use sector_base::PvDisks;
use std::alloc::Global;
use std::io;
use std::io::ErrorKind;
use vg_found::{ScanRefused, Whole};
use vg_scan::scan;

/// The world of what a scan of the disk finds: a group with one physical volume, whose extents lie on the disk.
pub fn open_world<S: Shelf + Drop>(alloc: Global, disk: S) -> io::Result<World<S>> {
    let mut disk = disk;
    if !is_one_disk(&mut disk) {
        return Err(io::Error::other("it isn't one disk with nothing in flight"));
    }
    match found_whole(alloc, &mut disk) {
        Ok(whole) => world_of(alloc, whole, disk),
        Err(e) => Err(e),
    }
}

// Whether it is one disk of 8 to 2^40 sectors, with nothing in flight.
fn is_one_disk<S: Shelf>(disk: &mut S) -> bool
    ensures { IsTrue result → IsOneDisk (S.state disk.new) }
{
    if disk.settle().is_some() || disk.count() != 1 {
        return false;
    }
    let sectors = disk.sectors(0);
    8 <= sectors && sectors <= 1 << 40
}

// What a scan of the disk finds, where that is whole.
fn found_whole<S: Shelf>(alloc: Global, disk: &mut S) -> io::Result<Whole>
    requires { IsOneDisk (S.state disk.old) }
    ensures { IsIdleAgain (S.state disk.old) (S.state disk.new) }
{
    let Ok(found) = scan(alloc, disk) else {
        return Err(io::Error::other("the scan is refused"));
    };
    match found.whole() {
        Ok(whole) => Ok(whole),
        Err(refused) => Err(not_whole(refused)),
    }
}

// The world of what was found, where that lies on the disk.
fn world_of<S: Shelf + Drop>(alloc: Global, whole: Whole, disk: S) -> io::Result<World<S>>
    requires idle { (S.state disk).in_flight ≡ [] }
    requires one { length (S.state disk).sizes ≡ 1 }
{
    if !lies_on(&whole, &disk) {
        return Err(not_on_it(whole, disk));
    }
    match World::open(alloc, whole, disk) {
        Ok(world) => Ok(world),
        Err(refused) => Err(not_opened(refused)),
    }
}

// Whether what was found is a group with one physical volume, whose extents lie on the disk.
fn lies_on<S: Shelf>(whole: &Whole, disk: &S) -> bool
    requires { length (S.state disk.now).sizes ≡ 1 }
    ensures { IsTrue result → LiesOn (S.state disk.now).sizes whole.now }
{
    match &whole.found().group {
        Some(checked) => is_within(checked.group(), whole.disk_of(), disk.sectors(0)),
        None => false,
    }
}

// Whether the group has one physical volume, on disk 0, whose extents end within so many sectors.
fn is_within(group: &Group, disk_of: &PvDisks, sectors: u64) -> bool
    ensures { IsTrue result → IsWithin group.now disk_of.now sectors }
{
    if group.pvs.len() != 1 || disk_of.len() != 1 || *disk_of.get(0) != 0 {
        return false;
    }
    let (_, pv) = group.pvs.get(0);
    match pv.pe_count.checked_mul(group.extent_size) {
        Some(extents) => sectors >= extents && sectors - extents >= pv.pe_start,
        None => false,
    }
}

// What was found isn't whole.
fn not_whole(_refused: ScanRefused) -> io::Error {
    io::Error::other("what is found isn't whole")
}

// What was found isn't one physical volume on the disk.
fn not_on_it<S: Drop>(_whole: Whole, _disk: S) -> io::Error {
    io::Error::other("it has no group of one physical volume")
}

// There was no memory for the world.
fn not_opened<S: Drop>(_refused: OpenRefused<S>) -> io::Error {
    io::Error::from(ErrorKind::OutOfMemory)
}
