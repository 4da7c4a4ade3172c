//! What is whole, and the areas of small tables.
ghost use Rattle.std.specs.Prelude.{◌≡◌, ◌≤◌, ◌<◌, ℕ, true, Some, None, [], length, slice_get, All, IfOk};
ghost use Rattle.std.specs.FinSet as set;
ghost use Rattle.vg_found.specs.declared.disk.Disk.{Disk as DiskOf};
ghost use Rattle.vg_found.specs.Disks.{areas_on, header_on};
ghost use Rattle.vg_found.specs.Shape.{HasShape, IsDisk, IsUnread};

use disk_contents::{AreaFound, AreasFound, PvFound};
use lvm_id::{LvmId, parse_plain};
use mda_header::{HeaderEntry, Locn, MdaRefusal};
use mda_ring::Areas;
use pv_header::{Extent, Extents, PvHeader, PvRefusal};
use sector_base::{ItemList, PvDisks, PvSet};
use std::alloc::{AllocError, Global};
use std::process::Abort;
use std::test::Fail;
use vg_found::{Disk, DiskTable, Found, Ids, held_areas};

fn id(rt: &impl Abort) -> LvmId {
    parse_plain(b"00000000100000000100000030000000").expect(rt, "an id")
}

// What was found on disks without a header.
fn without_group(alloc: Global, disks: Vec<Disk>, unread: PvSet, missing: Ids) -> Found
    requires some { 1 ≤ length disks.items }
    requires few { length disks.items ≤ 64 }
    requires each { (pv : ℕ) (disk : DiskOf) → slice_get disks.items pv ≡ Some disk → IsDisk pv disk × IsUnread unread pv disk }
    requires bare { All (λ disk. (header_on disk.contents ≡ None) × (areas_on disk.contents ≡ [])) disks.items }
    requires below { (pv : ℕ) → set.contains unread pv ≡ true → pv < length disks.items }
    ensures { HasShape result }
{
    Found {
        group: None,
        text: None,
        unknown: ItemList::from_vec(Vec::new(alloc)),
        disks: DiskTable::from_vec(disks),
        areas: Areas::from_vec(Vec::new(alloc)),
        stale: ItemList::from_vec(Vec::new(alloc)),
        strays: PvSet::new(),
        old: PvSet::new(),
        missing,
        disk_of: PvDisks::from_vec(Vec::new(alloc)),
        unread,
    }
}

// A disk without a header that can be read.
fn bare_disk(alloc: Global, missing: Ids) -> Result<Found, AllocError>
    ensures { IfOk result HasShape }
{
    let disk = Disk {
        sectors: 8,
        contents: Some(PvFound::NoHeader {
            label: 1,
            refusal: PvRefusal::ListUnended(1),
        }),
    };
    let disks = vec![in alloc; disk]?;
    Ok(without_group(alloc, disks, PvSet::new(), missing))
}

#[test]
fn where_all_is_there_it_is_whole(rt: HostRuntime) -> Result<(), Fail> {
    let missing = Ids::from_vec(Vec::new(rt.alloc()));
    match bare_disk(rt.alloc(), missing)?.whole() {
        Ok(whole) => {
            assert_eq!(rt; whole.disk_of().len(), 0);
            assert_eq!(rt; whole.found().disks.len(), 1);
            assert!(rt; whole.into_found().unread.is_empty());
        }
        Err(_) => panic!(rt; "not whole"),
    }
    Ok(())
}

fn area(offset: u64, entry: HeaderEntry) -> AreaFound {
    AreaFound {
        area: Extent {
            offset,
            size: 4_096,
        },
        header: Err(MdaRefusal::BadMagic),
        entry,
    }
}

const TEXT: Locn = Locn {
    offset: 512,
    size: 479,
    sum: 17,
};

// A disk with an area that is ignored, and one with this entry.
fn disk(rt: &impl Abort, alloc: Global, entry: HeaderEntry) -> Result<Disk, AllocError> {
    let areas = vec![in alloc; area(4_096, HeaderEntry::Ignored), area(8_192, entry)]?;
    let header = PvHeader {
        id: id(rt),
        device_bytes: 0,
        data_areas: Extents::from_vec(Vec::new(alloc)),
        areas: Extents::from_vec(Vec::new(alloc)),
        version: 2,
        flags: 0,
    };
    Ok(Disk {
        sectors: 64,
        contents: Some(PvFound::Whole {
            label: 1,
            header,
            areas: AreasFound::from_vec(areas),
        }),
    })
}

#[test]
fn areas_are_held_but_ignored_ones(rt: HostRuntime) -> Result<(), Fail> {
    let first = disk(&rt, rt.alloc(), HeaderEntry::Text(TEXT))?;
    let second = Disk {
        sectors: 8,
        contents: None,
    };
    let third = disk(&rt, rt.alloc(), HeaderEntry::Refused(MdaRefusal::BadMagic))?;
    let disks = vec![in rt.alloc(); first, second, third]?;
    let held = held_areas(rt.alloc(), &disks)?;
    assert_eq!(rt; held.len(), 2);
    let held = held.as_slice();
    assert_eq!(rt;
        (held[0].0.pv, held[0].0.start, held[0].1),
        (0, 8_192, Some(TEXT))
    );
    assert_eq!(rt;
        (held[1].0.pv, held[1].0.start, held[1].1),
        (2, 8_192, None)
    );
    Ok(())
}
