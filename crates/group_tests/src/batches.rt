//! What no clause says: that a batch is made where memory is ample.
ghost use Rattle.std.specs.Prelude.{◌<◌, length};
ghost use Rattle.disk_batch.specs.Writes.{disks_in};

use disk_batch::{Batch, Writes};
use sector_base::{PvSet, Sectors, Span};
use std::test::Fail;

// The set of disk 3.
fn disk_3() -> PvSet
    ensures some { 0 < length (disks_in result) }
{
    let mut flush = PvSet::new();
    flush.insert(3);
    flush
}

#[test]
fn a_batch_is_made_with_ample_memory(rt: HostRuntime) -> Result<(), Fail> {
    let alloc = rt.alloc();
    let mut list = Vec::new(alloc);
    let span = Span {
        pv: 3,
        first: 7,
        count: 2,
    };
    list.push((span, Sectors::zeroed(alloc, 2)?))?;
    match Batch::new(alloc, Writes::from_vec(list), disk_3()) {
        Ok(batch) => assert_eq!(rt; batch.needs(), (2, 2)),
        Err(_) => return Err("no memory")?,
    }
    Ok(())
}
