//! The scan of all disks.
ghost use Rattle.std.specs.Prelude.{◌≡◌, ◌≤◌, ◌<◌, ◌++◌, ℕ, ◌^◌, [], ◌∷◌, length, slice_index_or, IfOk, MatchResult};
ghost use Rattle.disk_model.specs.Idle.{IsIdleAgain};
ghost use Rattle.disk_model.specs.Since.{BetweenRecords};
ghost use Rattle.scan_rules.specs.Readings.{AreasAreOf};
ghost use Rattle.scan_rules.specs.declared.decision.ScanRefusal.TheVariants.{NoMemory};
ghost use Rattle.vg_scan.specs.Disks.{ReadsDisk, pv_read};
ghost use Rattle.vg_scan.specs.Scanned.{IsScannedDisk, unread_with};
ghost use Rattle.vg_scan.specs.Scans.{IsScan, IsScanRefused, ReadsFew};

use crate::collected::Collected;
use crate::disk::read_disk;
use crate::outcome::found_of;
use disk_contents::{PvFound, ReadRefusal};
use disk_model::Shelf;
use scan_rules::{DiskRead, PvRead, ScanRefusal};
use sector_base::PvSet;
use std::alloc::{AllocError, AllocFailed, Global};
use vg_found::{Disk, Found};

/// Why no group is taken from the disks, and which of them are unread.
#[derive(Debug, Drop)]
pub struct ScanStopped {
    pub why: ScanRefusal,
    pub unread: PvSet,
}

impl From<AllocError> for ScanStopped {
    ghost from_gives = { λ _ stopped. stopped.why ≡ NoMemory };

    fn from(_e: AllocError) -> ScanStopped {
        ScanStopped {
            why: ScanRefusal::NoMemory,
            unread: PvSet::new(),
        }
    }
}

impl<T: Drop> From<AllocFailed<T>> for ScanStopped {
    ghost from_gives = { λ _ stopped. stopped.why ≡ NoMemory };

    fn from(_e: AllocFailed<T>) -> ScanStopped {
        ScanStopped {
            why: ScanRefusal::NoMemory,
            unread: PvSet::new(),
        }
    }
}

/// Scans the disks: finds the group in force by the copies of its metadata, which of its disks' headers are old, and what is
/// stale, stray, missing or unread. It goes on with the other disks where a read of one fails; such a disk is taken as empty
/// and named unread.
///
/// # Errors
///
/// The first of these that holds: two disks have a physical volume with one id; no area has an accepted copy, and one
/// was refused; a copy was accepted, and the text of another area agrees with its checksum but is refused; copies of
/// two groups were accepted; two copies with the greatest sequence number have different texts; a physical volume of
/// the group doesn't lie well on its disk, or no disk that the group lists holds its copy. `NoMemory` where memory is
/// wanting.
pub fn scan<S: Shelf>(alloc: Global, shelf: &mut S) -> Result<Found, ScanStopped>
    requires some { 1 ≤ length (S.state shelf.old).sizes }
    requires few { length (S.state shelf.old).sizes ≤ 64 }
    requires least { (number : ℕ) → number < length (S.state shelf.old).sizes → 8 ≤ slice_index_or (S.state shelf.old).sizes number 0 }
    requires most { (number : ℕ) → number < length (S.state shelf.old).sizes → slice_index_or (S.state shelf.old).sizes number 0 ≤ 2 ^ 40 }
    requires idle { (S.state shelf.old).in_flight ≡ [] }
    ensures scan { MatchResult result
        (λ found. IsScan (S.state shelf.old) found (S.state shelf.new))
        (λ stopped. IsScanRefused (S.state shelf.old) stopped.why stopped.unread (S.state shelf.new)) }
    ensures again { IsIdleAgain (S.state shelf.old) (S.state shelf.new) }
    ensures reads { BetweenRecords (ReadsFew (S.state shelf.old).sizes) (S.state shelf.old).told (S.state shelf.new).told }
{
    let mut collected = Collected::new(alloc);
    let mut disks = Vec::new(alloc);
    let mut unread = PvSet::new();
    for number in 0..shelf.count() {
        let disk = scan_disk(alloc, shelf, number, &mut collected)?;
        name_unread(&mut unread, number, &disk);
        disks.push(disk)?;
    }
    match found_of(alloc, collected.into_readings(), disks, unread) {
        Ok(found) => Ok(found),
        Err(why) => Err(ScanStopped { why, unread }),
    }
}

// Names the disk unread where nothing is known of what stands there.
fn name_unread(unread: &mut PvSet, number: u32, disk: &Disk)
    requires { number < 64 }
    ensures { unread.new ≡ unread_with unread.old number disk.now }
{
    if disk.contents.is_none() {
        unread.insert(number);
    }
}

// Reads the disk and takes in what it holds, or that it is unread. It is one of at most 64.
fn scan_disk<S: Shelf>(
    alloc: Global,
    shelf: &mut S,
    number: u32,
    collected: &mut Collected,
) -> Result<Disk, AllocError>
    requires idle { (S.state shelf.old).in_flight ≡ [] }
    requires disk { number < length (S.state shelf.old).sizes }
    requires least { 8 ≤ slice_index_or (S.state shelf.old).sizes number 0 }
    requires most { slice_index_or (S.state shelf.old).sizes number 0 ≤ 2 ^ 40 }
    requires room { length collected.old.disks < 64 }
    ensures disk { IfOk result
        (λ disk. IsScannedDisk number (S.state shelf.old) collected.old.disks disk collected.new.disks (S.state shelf.new)) }
    ensures reads { BetweenRecords (ReadsDisk number (slice_index_or (S.state shelf.old).sizes number 0)) (S.state shelf.old).told (S.state shelf.new).told }
    ensures again { IsIdleAgain (S.state shelf.old) (S.state shelf.new) }
{
    let sectors = shelf.sectors(number);
    match read_disk(alloc, shelf, number, collected) {
        Ok((contents, read)) => take_in(collected, sectors, Some(contents), read),
        Err(ReadRefusal::ReadFailed(_)) => take_in(collected, sectors, None, None),
        Err(ReadRefusal::NoMemory) => Err(AllocError),
    }
}

// Takes in what was read of the next disk.
fn take_in(
    collected: &mut Collected,
    sectors: u64,
    contents: Option<PvFound>,
    read: Option<PvRead>,
) -> Result<Disk, AllocError>
    requires room { length collected.old.disks < 64 }
    requires numbers { AreasAreOf (length collected.old.copies) read }
    ensures { IfOk result (λ disk. (disk ≡ record { sectors = sectors; contents = contents })
        × (collected.new.disks
        ≡ collected.old.disks ++ record { sectors = sectors; pv = pv_read collected.old.copies read } ∷ [])) }
{
    collected.push_disk(DiskRead { sectors, pv: read })?;
    Ok(Disk { sectors, contents })
}
