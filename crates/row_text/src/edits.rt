//! The lines that write on the disks.
use crate::line::{first_word, words_in};
use crate::row::{DiskPlan, Edit, EditKind, disk_named};
use crate::stop::{Stop, failed, failed_at};
use crate::texts::Texts;
use crate::values::{bytes_in, number, place};
use std::alloc::Global;

/// Whether the word begins a line of this kind.
pub fn is_edit(word: &str) -> bool {
    matches!(word.as_bytes(), b"put" | b"seal" | b"commit" | b"crash")
}

/// Reads such a line.
pub fn edit(
    alloc: Global,
    texts: &Texts,
    disks: &[DiskPlan],
    line: usize,
    word: &str,
    rest: &str,
) -> Result<Edit, Stop> {
    let kind = match word {
        "put" => put(alloc, disks, line, rest)?,
        "seal" => seal(alloc, disks, line, rest)?,
        "commit" => commit(alloc, texts, disks, line, rest)?,
        "crash" => crash(alloc, line, rest)?,
        _ => return Err(failed_at(alloc, line, "no word of a row", word)),
    };
    Ok(Edit { line, kind })
}

fn put(alloc: Global, disks: &[DiskPlan], line: usize, rest: &str) -> Result<EditKind, Stop> {
    let (name, rest) = first_word(rest);
    let (sector, rest) = first_word(rest);
    let (at, bytes) = first_word(rest);
    Ok(EditKind::Put {
        disk: disk_named(alloc, disks, line, name)?,
        sector: place(alloc, line, sector)?,
        at: place(alloc, line, at)?,
        bytes: bytes_in(alloc, line, bytes)?,
    })
}

fn seal(alloc: Global, disks: &[DiskPlan], line: usize, rest: &str) -> Result<EditKind, Stop> {
    let (name, sector) = first_word(rest);
    Ok(EditKind::Seal {
        disk: disk_named(alloc, disks, line, name)?,
        sector: place(alloc, line, sector)?,
    })
}

fn crash(alloc: Global, line: usize, rest: &str) -> Result<EditKind, Stop> {
    let (moment, choice) = first_word(rest);
    Ok(EditKind::Crash {
        moment: number(alloc, line, moment)?,
        choice: number(alloc, line, choice)?,
    })
}

fn commit(
    alloc: Global,
    texts: &Texts,
    disks: &[DiskPlan],
    line: usize,
    rest: &str,
) -> Result<EditKind, Stop> {
    let (name, rest) = first_word(rest);
    let (names, bytes) = match rest.split_once(" bytes ") {
        Some((names, count)) => (names, Some(number(alloc, line, count)?)),
        None => (rest, None),
    };
    let mut text = Vec::new(alloc);
    texts.append(alloc, line, name, &mut text)?;
    let disks = disks_named(alloc, disks, line, names)?;
    Ok(EditKind::Commit { text, disks, bytes })
}

// The numbers of the disks with these names.
fn disks_named(
    alloc: Global,
    disks: &[DiskPlan],
    line: usize,
    names: &str,
) -> Result<Vec<u32>, Stop> {
    let names = words_in(alloc, names)?;
    let mut numbers = Vec::new(alloc);
    for name in names.iter() {
        numbers.push(disk_named(alloc, disks, line, name)?)?;
    }
    if numbers.is_empty() {
        return Err(failed(alloc, line, "a text is committed on a disk"));
    }
    Ok(numbers)
}
