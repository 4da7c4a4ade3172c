//! A disk in memory, from the text that says it.
use dev_shelf::{Images, MemShelf, ShelfPlan};
use sector_base::Sectors;
use std::alloc::Global;
use std::io;

/// How many sectors the disk has: 2,048 before the first extent, and 32 extents of 8.
const SECTORS: u32 = 2304;

/// The disk that this text says. Its oldest operation completes first.
pub fn disk_of(alloc: Global, text: &str) -> io::Result<MemShelf> {
    let mut disks = Vec::new(alloc);
    disks.push(sectors_of(alloc, text)?)?;
    let plan = ShelfPlan {
        picks: Vec::new(alloc),
        fails: Vec::new(alloc),
        holds: Vec::new(alloc),
        limit: 0,
    };
    Ok(MemShelf::new(alloc, Images::from_vec(disks), plan)?)
}

// The sectors of the disk that this text says.
fn sectors_of(alloc: Global, text: &str) -> io::Result<Sectors> {
    let mut disk = Sectors::zeroed(alloc, SECTORS)?;
    for line in text.split('\n') {
        if !line.is_empty() && !put_line(alloc, &mut disk, line) {
            return Err(io::Error::other("a line of the disk has no place and bytes"));
        }
    }
    Ok(disk)
}

// Puts what the line says, and whether it says a place and bytes of one sector of the disk.
fn put_line(alloc: Global, disk: &mut Sectors, line: &str) -> bool {
    let Some((place, digits)) = line.split_once(' ') else {
        return false;
    };
    match (place.parse(), hex::decode(alloc, digits)) {
        (Ok(place), Ok(bytes)) => put_bytes(disk, place, &bytes),
        _ => false,
    }
}

// Puts these bytes at this place, and whether they stand in one sector of the disk.
fn put_bytes(disk: &mut Sectors, place: usize, bytes: &[u8]) -> bool {
    let number = place / 512;
    let at = place % 512;
    if number >= disk.len() || bytes.len() > 512 - at {
        return false;
    }
    let mut sector = disk.get(number);
    sector.put(at, bytes);
    disk.set(number, sector);
    true
}
