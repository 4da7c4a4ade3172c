//! Disks in memory: some with a signature, blank and short ones, two signatures on one, and reads that fail.
ghost use Rattle.std.specs.Prelude.{◌<◌, ◌≡◌, ◌≤◌, ◌+◌, ◌^◌, length, IfOk};

use crate::disks::shelf_of_one;
use dev_shelf::{Fail as Failure, Shelf};
use disk_contents::ReadRefusal;
use disk_model::DiskFault;
use disk_signature::{Kind, find_signature};
use sector_base::{Bytes512, Sectors};
use std::alloc::{AllocError, Global};
use std::test::Fail;

// How many sectors a disk has here. The last multiple of 128 is 8,448, and the last of 8 that 16 sectors follow is 8,480.
const SECTORS: u32 = 8_500;

// A kind, the sector, the byte in it, and the bytes there.
struct Expected(Kind, usize, usize, &'static [u8]);

// One in the first sectors, one behind them, one at a place that is counted from the end, and one in the last sector. All of them
// are tried on the built program.
static EXPECTED: [Expected; 4] = [
    Expected(Kind::Ext, 2, 56, b"S\xef"),
    Expected(Kind::Btrfs, 128, 64, b"_BHRfS_M"),
    Expected(Kind::MdRaid, 8_480, 0, b"\xfcN+\xa9"),
    Expected(Kind::Gpt, 8_499, 0, b"EFI PART"),
];

// What the disk tells.
fn kind_on(alloc: Global, disk: Sectors) -> Result<Option<Kind>, Fail>
    requires { length disk < 2 ^ 32 }
{
    let mut shelf = shelf_of_one(alloc, disk, Vec::new(alloc))?;
    Ok(find_signature(alloc, &mut shelf, 0)?)
}

// A sector with these bytes.
fn sector_with(at: usize, bytes: &[u8]) -> Bytes512
    requires { at + length bytes.now ≤ 512 }
{
    let mut sector = Bytes512::zeroed();
    sector.put(at, bytes);
    sector
}

// A disk with these bytes there.
fn disk_with(alloc: Global, sector: usize, at: usize, bytes: &[u8]) -> Result<Sectors, AllocError>
    requires sector { sector < 8500 }
    requires within { at + length bytes.now ≤ 512 }
    ensures { IfOk result (λ disk. length disk ≡ 8500) }
{
    let mut disk = Sectors::zeroed(alloc, SECTORS)?;
    disk.set(sector, sector_with(at, bytes));
    Ok(disk)
}

#[test]
fn each_signature_is_found(rt: HostRuntime) -> Result<(), Fail> {
    let alloc = rt.alloc();
    for Expected(kind, sector, at, bytes) in &EXPECTED {
        assert!(rt; *sector < 8_500 && *at < 512 && bytes.len() <= 512 - *at);
        let disk = disk_with(alloc, *sector, *at, bytes)?;
        assert_eq!(rt; kind_on(alloc, disk)?, Some(*kind));
    }
    Ok(())
}

#[test]
fn a_blank_disk_has_none(rt: HostRuntime) -> Result<(), Fail> {
    let alloc = rt.alloc();
    for sectors in 0..40u32 {
        assert_eq!(rt; kind_on(alloc, Sectors::zeroed(alloc, sectors)?)?, None);
    }
    Ok(())
}

#[test]
fn a_boot_sector_is_told_by_its_file_system(rt: HostRuntime) -> Result<(), Fail> {
    let alloc = rt.alloc();
    let mut boot = sector_with(82, b"FAT32   ");
    boot.put(510, b"U\xaa");
    let mut disk = Sectors::zeroed(alloc, 1)?;
    disk.set(0, boot);
    let found = kind_on(alloc, disk)?.map(Kind::name);
    assert_eq!(rt; found, Some("FAT file system"));
    Ok(())
}

#[test]
fn a_failed_read_is_answered(rt: HostRuntime) -> Result<(), Fail> {
    let alloc = rt.alloc();
    // The first of 76 reads and the last one.
    for tag in [0, 75u64] {
        let mut fails = Vec::new(alloc);
        fails.push(Failure { tag, fresh: 0 })?;
        let mut shelf = shelf_of_one(alloc, Sectors::zeroed(alloc, SECTORS)?, fails)?;
        let answer = find_signature(alloc, &mut shelf, 0);
        assert_eq!(rt; answer, Err(ReadRefusal::ReadFailed(DiskFault { pv: 0 })));
        assert_eq!(rt; shelf.steps(), 2 * tag + 2);
    }
    Ok(())
}
