//! The lines that say which disks a row has.
use crate::line::first_word;
use crate::row::{DiskPlan, DiskStart, Row};
use crate::stop::{Stop, failed, failed_at};
use crate::values::number32;
use std::alloc::{AllocError, Global};

/// The fewest sectors of a disk, and the most.
const FEWEST: u32 = 8;

const MOST: u32 = 1 << 30;

/// Reads the line of a disk: its name, and how many sectors it has or which row left it.
pub fn disk(alloc: Global, rows: &mut [Row], line: usize, rest: &str) -> Result<DiskPlan, Stop> {
    let (name, rest) = first_word(rest);
    let start = match rest.strip_prefix("like ") {
        Some(title) => left(alloc, rows, line, name, title)?,
        None => new(alloc, line, rest)?,
    };
    let name = String::from_str(alloc, name)?;
    Ok(DiskPlan { line, name, start })
}

// A new disk.
fn new(alloc: Global, line: usize, rest: &str) -> Result<DiskStart, Stop> {
    let (count, more) = first_word(rest);
    let sectors = number32(alloc, line, count)?;
    if !(FEWEST..=MOST).contains(&sectors) {
        return Err(failed_at(alloc, line, "a disk has 8 to 2^30 sectors", count));
    }
    match more {
        "" => Ok(DiskStart::Blank(sectors)),
        "numbered" => Ok(DiskStart::Numbered(sectors)),
        _ => Err(failed_at(
            alloc,
            line,
            "behind the sectors of a disk stands numbered",
            more,
        )),
    }
}

// A disk as an earlier row left it.
fn left(
    alloc: Global,
    rows: &mut [Row],
    line: usize,
    name: &str,
    title: &str,
) -> Result<DiskStart, Stop> {
    let Some(row) = row_of(rows, title) else {
        return Err(failed_at(alloc, line, "no earlier row has this title", title));
    };
    match kept_disk(rows, row, name) {
        Some(disk) => Ok(DiskStart::Left { row, disk }),
        None => Err(failed_at(alloc, line, "that row has no such disk", name)),
    }
}

// The number of the row with this title.
fn row_of(rows: &[Row], title: &str) -> Option<usize> {
    rows.iter().position(|row| row.title.as_str() == title)
}

// The number of the row's disk with this name; the row's disks are kept then.
fn kept_disk(rows: &mut [Row], row: usize, name: &str) -> Option<u32> {
    let row = rows.get_mut(row)?;
    row.is_kept = true;
    for (number, disk) in (0..u32::MAX).zip(row.disks.iter()) {
        if disk.name.as_str() == name {
            return Some(number);
        }
    }
    None
}

/// All disks of the row with this title, as it leaves them.
pub fn disks_like(
    alloc: Global,
    rows: &mut [Row],
    line: usize,
    title: &str,
) -> Result<Vec<DiskPlan>, Stop> {
    let Some(number) = row_of(rows, title) else {
        return Err(failed_at(alloc, line, "no earlier row has this title", title));
    };
    match rows.get_mut(number) {
        Some(row) => {
            row.is_kept = true;
            Ok(all_left(alloc, row, number, line)?)
        }
        None => Err(failed(alloc, line, "no earlier row has this title")),
    }
}

// All disks of this row, as it leaves them.
fn all_left(
    alloc: Global,
    row: &Row,
    number: usize,
    line: usize,
) -> Result<Vec<DiskPlan>, AllocError> {
    let mut disks = Vec::new(alloc);
    for (disk, plan) in (0..u32::MAX).zip(row.disks.iter()) {
        disks.push(DiskPlan {
            line,
            name: plan.name.clone()?,
            start: DiskStart::Left { row: number, disk },
        })?;
    }
    Ok(disks)
}
