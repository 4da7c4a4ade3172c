//! A snapshot is taken, sectors are set, and the store is opened from what a crash may leave.
ghost use Rattle.std.specs.Prelude.{◌≡◌, length, IfOk};

use cow_store::{CowRefusal, CowStore, MemVols, Vols};
use dev_shelf::{Fail as Failure, Images};
use sector_base::{Bytes512, Sectors};
use std::alloc::Global;
use std::test::Fail;

// An origin of 32 sectors and a store of so many, all zeros, and the operations that fail.
fn volumes(alloc: Global, store: u32, fails: Vec<Failure>) -> Result<MemVols, Fail>
    ensures { IfOk result (λ vols. length (⟦<MemVols as Vols>⟧.state vols).sizes ≡ 2) }
{
    let mut disks = Vec::new(alloc);
    disks.push(Sectors::zeroed(alloc, 32)?)?;
    disks.push(Sectors::zeroed(alloc, store)?)?;
    Ok(MemVols::new(alloc, Images::from_vec(disks), fails)?)
}

// A sector that is all of this byte.
fn of(byte: u8) -> Bytes512 {
    Bytes512::new([byte; 512])
}

#[test]
fn two_slots_hold_two_chunks(rt: HostRuntime) -> Result<(), Fail> {
    let alloc = rt.alloc();
    let vols = volumes(alloc, 24, Vec::new(alloc))?;
    let Ok(mut store) = CowStore::take(alloc, vols) else {
        panic!(rt; "not taken");
    };
    assert_eq!(rt; store.set(3, &of(7)), Ok(()));
    assert_eq!(rt; store.old(3), Ok(of(0)));
    assert_eq!(rt; store.new_value(3), Ok(of(7)));
    assert_eq!(rt; store.set(8, &of(1)), Ok(()));
    assert_eq!(rt; store.set(16, &of(1)), Err(CowRefusal::Full(2)));
    assert_eq!(rt; store.set(4, &of(2)), Ok(()));
    assert_eq!(rt; store.old(4), Ok(of(0)));
    assert_eq!(rt; store.old(8), Ok(of(0)));
    assert_eq!(rt;
        store.old(32),
        Err(CowRefusal::PastEnd {
            end: 33,
            length: 32
        })
    );
    assert_eq!(rt; store.flush(), Ok(()));
    let vols = store.finish();
    let Ok(mut store) = CowStore::open(alloc, vols) else {
        panic!(rt; "not opened");
    };
    assert_eq!(rt; store.old(3), Ok(of(0)));
    assert_eq!(rt; store.new_value(8), Ok(of(1)));
    Ok(())
}

#[test]
fn small_stores_and_foreign_heads(rt: HostRuntime) -> Result<(), Fail> {
    let alloc = rt.alloc();
    let small = CowStore::take(alloc, volumes(alloc, 9, Vec::new(alloc))?);
    assert_eq!(rt;
        small.err().map(|r| r.why),
        Some(CowRefusal::StoreTooSmall { need: 10, have: 9 })
    );
    let none = CowStore::open(alloc, volumes(alloc, 24, Vec::new(alloc))?);
    assert_eq!(rt; none.err().map(|r| r.why), Some(CowRefusal::NoHead));
    Ok(())
}

#[test]
fn a_fault_spends_the_store(rt: HostRuntime) -> Result<(), Fail> {
    let alloc = rt.alloc();
    let mut fails = Vec::new(alloc);
    // Taking uses up seven operations, of which the last has the number 6.
    fails.push(Failure { tag: 7, fresh: 0 })?;
    let Ok(mut store) = CowStore::take(alloc, volumes(alloc, 24, fails)?) else {
        panic!(rt; "not taken");
    };
    assert_eq!(rt; store.set(3, &of(7)), Err(CowRefusal::Fault(0)));
    assert_eq!(rt; store.old(3), Err(CowRefusal::Spent));
    assert_eq!(rt; store.flush(), Err(CowRefusal::Spent));
    Ok(())
}

// What the sector 3 of the snapshot is, where this image is opened.
fn opened_old(alloc: Global, images: Images) -> Result<Option<Bytes512>, Fail> {
    if images.len() != 2 {
        return Ok(None);
    }
    let vols = MemVols::new(alloc, images, Vec::new(alloc))?;
    match CowStore::open(alloc, vols) {
        Ok(store) => {
            let mut store = store;
            Ok(store.old(3).ok())
        }
        Err(_) => Ok(None),
    }
}

#[test]
fn at_each_moment_the_snapshot_is_what_the_origin_was(rt: HostRuntime) -> Result<(), Fail> {
    let alloc = rt.alloc();
    let Ok(mut store) = CowStore::take(alloc, volumes(alloc, 24, Vec::new(alloc))?) else {
        panic!(rt; "not taken");
    };
    assert_eq!(rt; store.set(3, &of(7)), Ok(()));
    let vols = store.finish();
    let end = vols.moments();
    assert!(rt; end < 100);
    for moment in 14..end + 1 {
        for choice in 0..3u64 {
            let choices = vec![in alloc; choice; 40]?;
            let images = vols.images_at(moment, &choices)?;
            assert_eq!(rt; opened_old(alloc, images)?, Some(of(0)));
        }
    }
    Ok(())
}
