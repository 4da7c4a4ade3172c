//! The sectors of all disks of a row, and how they are written beside the runs.
use crate::commit::commit;
use dev_shelf::{Images, MemShelf, Shelf};
use pv_label::seal_label;
use row_text::EditKind;
use sector_base::{Bytes512, Sectors, put_u32};
use std::alloc::{AllocError, Global};

/// A disk each sector of which begins with its number.
pub fn numbered(alloc: Global, sectors: u32) -> Result<Sectors, AllocError> {
    let mut list = Vec::new(alloc);
    for number in 0..sectors {
        let mut sector = Bytes512::zeroed();
        put_u32(&mut sector, 0, number);
        list.push(sector)?;
    }
    Ok(Sectors::from_vec(list))
}

/// The disks as they were when the run began.
pub fn opened(alloc: Global, shelf: &MemShelf) -> Result<Images, AllocError> {
    shelf.images_at(0, &Vec::new(alloc))
}

// A number that is 1 less than a multiple of each up to 40, so that it takes the last one of up to so many values.
const LAST_VALUE: u64 = 5_342_931_457_063_199;

/// The disks as the run left them: of each sector its last value.
pub fn left(alloc: Global, shelf: &MemShelf) -> Result<Images, AllocError> {
    let mut sectors = 0u64;
    for disk in 0..shelf.count() {
        sectors = sectors.saturating_add(shelf.sectors(disk));
    }
    let choices = vec![in alloc; LAST_VALUE; sectors as usize]?;
    shelf.images_at(shelf.moments(), &choices)
}

/// The disks as a crash at this moment may leave them, if there is this moment: of the values of a sector the one that the next
/// bit of the choice takes.
pub fn crashed(
    alloc: Global,
    shelf: &MemShelf,
    moment: u64,
    choice: u64,
) -> Result<Option<Images>, AllocError> {
    if moment > shelf.moments() {
        return Ok(None);
    }
    let choices = bits_of(alloc, choice)?;
    Ok(Some(shelf.images_at(moment, &choices)?))
}

// The bits of the number, the lowest first.
fn bits_of(alloc: Global, number: u64) -> Result<Vec<u64>, AllocError> {
    let mut bits = Vec::new(alloc);
    let mut rest = number;
    for _ in 0..64u32 {
        bits.push(rest % 2)?;
        rest /= 2;
    }
    Ok(bits)
}

/// The disks with what is written on them, if they have the place.
pub fn edited(
    alloc: Global,
    images: Images,
    kind: &EditKind,
) -> Result<Option<Images>, AllocError> {
    let mut disks = images.into_vec();
    if is_written(alloc, &mut disks, kind)? {
        Ok(Some(Images::from_vec(disks)))
    } else {
        Ok(None)
    }
}

// Writes on the disks. Whether they have the place.
fn is_written(alloc: Global, disks: &mut [Sectors], kind: &EditKind) -> Result<bool, AllocError> {
    match kind {
        EditKind::Put {
            disk,
            sector,
            at,
            bytes,
        } => Ok(is_put(disks, *disk, *sector, *at, bytes)),
        EditKind::Seal { disk, sector } => Ok(is_sealed(disks, *disk, *sector)),
        EditKind::Commit {
            text,
            disks: numbers,
            bytes,
        } => is_committed(alloc, disks, text, numbers, *bytes),
        EditKind::Crash { .. } => Ok(false),
    }
}

fn is_put(disks: &mut [Sectors], disk: u32, sector: usize, at: usize, bytes: &[u8]) -> bool {
    let Some(disk) = disks.get_mut(disk as usize) else {
        return false;
    };
    if sector >= disk.len() || at > 512 || bytes.len() > 512 - at {
        return false;
    }
    let mut changed = disk.get(sector);
    changed.put(at, bytes);
    disk.set(sector, changed);
    true
}

fn is_sealed(disks: &mut [Sectors], disk: u32, sector: usize) -> bool {
    let Some(disk) = disks.get_mut(disk as usize) else {
        return false;
    };
    if sector >= disk.len() || sector >= 4 {
        return false;
    }
    let mut label = disk.get(sector);
    seal_label(&mut label, sector as u32);
    disk.set(sector, label);
    true
}

fn is_committed(
    alloc: Global,
    disks: &mut [Sectors],
    text: &[u8],
    numbers: &[u32],
    bytes: Option<u64>,
) -> Result<bool, AllocError> {
    let mut all = true;
    for number in numbers {
        all &= match disks.get_mut(*number as usize) {
            Some(disk) => commit(alloc, disk, text, bytes)?,
            None => false,
        };
    }
    Ok(all)
}
