//! A disk in memory that is in use by its signature, and a read that fails. The other cases are tried on the built program.
ghost use Rattle.std.specs.Prelude.{◌≡◌, length, IfOk};

use crate::disks::shelf_of_one;
use command_table::{Command, Request};
use dev_shelf::Fail as Failure;
use disk_use::{InUse, Use, UseRefusal, find_use};
use line_answers::DiskNames;
use sector_base::{Bytes512, Sectors, Text};
use std::alloc::{AllocError, Global};
use std::process::Abort;
use std::test::Fail;

// A disk of 64 sectors, with the two bytes of an ext file system in their place.
fn ext(alloc: Global) -> Result<Sectors, AllocError>
    ensures { IfOk result (λ disk. length disk ≡ 64) }
{
    let mut sector = Bytes512::zeroed();
    sector.put(56, &[0x53, 0xEF]);
    let mut disk = Sectors::zeroed(alloc, 64)?;
    disk.set(2, sector);
    Ok(disk)
}

fn disk_names(alloc: Global) -> Result<DiskNames, AllocError>
    ensures { IfOk result (λ names. length names ≡ 1) }
{
    let a = String::from_str(alloc, "a")?;
    Ok(DiskNames::from_vec(vec![in alloc; a]?))
}

fn pvcreate(alloc: Global) -> Result<Request, AllocError> {
    let pv = Text::from_vec(Vec::from_slice(alloc, b"a")?);
    Ok(Request::One(Command::Pvcreate {
        pv,
        metadata_copies: 1,
    }))
}

// What is found of this disk, on which these operations fail, where pvcreate takes it.
fn found(
    alloc: Global,
    disk: Sectors,
    fails: Vec<Failure>,
) -> Result<Result<Option<InUse>, UseRefusal>, AllocError>
    requires { length disk ≡ 64 }
{
    let mut shelf = shelf_of_one(alloc, disk, fails)?;
    let names = disk_names(alloc)?;
    let request = pvcreate(alloc)?;
    Ok(find_use(alloc, &mut shelf, &names, &request))
}

// Stops unless the disk is in use by its signature.
fn assert_used(rt: &impl Abort, found: Result<Option<InUse>, UseRefusal>) {
    match found {
        Ok(Some(found)) => assert!(rt; found.pv == 0 && matches!(found.by, Use::Signature(_))),
        _ => panic!(rt; "a disk in use"),
    }
}

#[test]
fn a_disk_with_a_signature_is_in_use(rt: HostRuntime) -> Result<(), Fail> {
    let alloc = rt.alloc();
    let disk = ext(alloc)?;
    assert_used(&rt, found(alloc, disk, Vec::new(alloc))?);
    Ok(())
}

#[test]
fn a_failed_read_is_refused(rt: HostRuntime) -> Result<(), Fail> {
    let alloc = rt.alloc();
    let mut fails = Vec::new(alloc);
    fails.push(Failure { tag: 0, fresh: 0 })?;
    let refused = found(alloc, ext(alloc)?, fails)?.err();
    assert!(rt; refused == Some(UseRefusal::ReadFailed(0)));
    Ok(())
}
