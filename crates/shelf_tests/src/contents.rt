//! A span of a disk in memory that is read, and a read that fails.
ghost use Rattle.std.specs.Prelude.{◌≡◌, length, IfOk};

use crate::disks::shelf_of_one;
use dev_shelf::{Fail as Failure, Shelf};
use disk_contents::{ReadRefusal, read_sectors};
use disk_model::DiskFault;
use sector_base::{Bytes512, Sectors, Span};
use std::alloc::{AllocError, Global};
use std::test::Fail;

// A disk of 64 sectors, of which the sector 16 is all of one byte, and the others are zeros.
fn disk(alloc: Global) -> Result<Sectors, AllocError>
    ensures { IfOk result (λ disk. length disk ≡ 64) }
{
    let mut disk = Sectors::zeroed(alloc, 64)?;
    disk.set(16, Bytes512::new([7; 512]));
    Ok(disk)
}

#[test]
fn a_span_is_read(rt: HostRuntime) -> Result<(), Fail> {
    let alloc = rt.alloc();
    let span = Span {
        pv: 0,
        first: 8,
        count: 9,
    };
    let mut fails = Vec::new(alloc);
    fails.push(Failure { tag: 1, fresh: 0 })?;
    let mut shelf = shelf_of_one(alloc, disk(alloc)?, fails)?;
    let sectors = read_sectors(alloc, &mut shelf, span)?;
    assert_eq!(rt; sectors.len(), 9);
    assert_eq!(rt; sectors.get(0), Bytes512::zeroed());
    assert_eq!(rt; sectors.get(8), Bytes512::new([7; 512]));
    let again = read_sectors(alloc, &mut shelf, span);
    assert_eq!(rt;
        again.err(),
        Some(ReadRefusal::ReadFailed(DiskFault { pv: 0 }))
    );
    assert_eq!(rt; (shelf.steps(), shelf.faults(0)), (4, 1));
    Ok(())
}

#[test]
fn a_refused_read_prints_why(rt: HostRuntime) -> Result<(), Fail> {
    let failed = ReadRefusal::ReadFailed(DiskFault { pv: 3 });
    let rows = [
        (ReadRefusal::NoMemory, "no memory"),
        (failed, "an operation of disk 3 failed"),
    ];
    for (refusal, text) in rows {
        let said = format!(in rt.alloc(); "{refusal}")?;
        assert_eq!(rt; said.as_str(), text);
    }
    Ok(())
}
