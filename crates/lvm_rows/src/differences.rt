//! In what a run differs from what is expected of it.
use crate::images::{left, opened};
use crate::run::EndedRun;
use crate::shown::{first_difference, shown};
use byte_streams::read_all;
use dev_shelf::{Images, Shelf};
use line_table::{EntryKind, Journal};
use row_text::{DiskExpectation, DiskFact, Expectation, Failure, Run, Sites, What};
use sector_base::{Bytes512, Sectors};
use std::alloc::{AllocError, Global};

/// The first difference, if there is one.
pub fn difference(
    alloc: Global,
    run: &Run,
    ran: &mut EndedRun,
) -> Result<Option<Failure>, AllocError> {
    let status = ran.ended.status;
    if let Some(what) = first_difference(alloc, &run.expected.output, ran.out.bytes())? {
        let what = format!(in alloc; "{what} (status {status})")?;
        return Ok(Some(Failure {
            line: run.line,
            what,
        }));
    }
    if status != run.expected.status {
        let what = format!(in alloc; "the status is {status}, wanted {}", run.expected.status)?;
        return Ok(Some(Failure {
            line: run.line,
            what,
        }));
    }
    if let Some(failure) = other_difference(alloc, &run.expected.others, ran)? {
        return Ok(Some(failure));
    }
    if run.expected.disks.is_empty() {
        return Ok(None);
    }
    let before = opened(alloc, &ran.ended.shelf)?;
    let after = left(alloc, &ran.ended.shelf)?;
    disk_difference(alloc, &run.expected.disks, &before, &after)
}

// The first one in what isn't seen on the disks.
fn other_difference(
    alloc: Global,
    others: &[Expectation],
    ran: &mut EndedRun,
) -> Result<Option<Failure>, AllocError> {
    for other in others {
        if let Some(what) = difference_in(alloc, &other.what, ran)? {
            let line = other.line;
            return Ok(Some(Failure { line, what }));
        }
    }
    Ok(None)
}

fn difference_in(
    alloc: Global,
    what: &What,
    ran: &mut EndedRun,
) -> Result<Option<String>, AllocError> {
    match what {
        What::Steps(wanted) => differs(alloc, "steps", *wanted, ran.ended.shelf.steps()),
        What::Forced(wanted) => {
            differs(
                alloc,
                "forced operations",
                *wanted,
                ran.ended.shelf.forced(),
            )
        }
        What::Left(wanted) => unread(alloc, *wanted, ran),
        What::Journal(wanted) => journal(alloc, wanted, ran.ended.journal()),
        What::Answers(wanted) => {
            differs(alloc, "answers", *wanted, ran.ended.answers().len() as u64)
        }
    }
}

// Says where there aren't as many as wanted.
fn differs(alloc: Global, of: &str, wanted: u64, is: u64) -> Result<Option<String>, AllocError> {
    if wanted == is {
        return Ok(None);
    }
    Ok(Some(format!(in alloc; "{is} {of}, wanted {wanted}")?))
}

fn unread(alloc: Global, wanted: u64, ran: &mut EndedRun) -> Result<Option<String>, AllocError> {
    match read_all(alloc, &mut ran.source) {
        Ok(text) => differs(alloc, "bytes left", wanted, text.as_bytes().len() as u64),
        Err(_) => Ok(Some(String::from_str(alloc, "the source can't be read to its end")?)),
    }
}

fn journal(
    alloc: Global,
    wanted: &[(EntryKind, u64)],
    journal: &Journal,
) -> Result<Option<String>, AllocError> {
    let same = wanted.len() == journal.len()
        && journal.iter().zip(wanted.iter()).all(|(entry, wanted)| entry.line == 0
            && entry.kind == wanted.0
            && entry.moment == wanted.1);
    if same {
        return Ok(None);
    }
    let mut text = String::from_str(alloc, "the journal is")?;
    for entry in journal.iter() {
        let entry = format!(in alloc; " {}@{}", name_of(entry.kind), entry.moment)?;
        text.push_str(entry.as_str())?;
    }
    if journal.is_empty() {
        text.push_str(" none")?;
    }
    Ok(Some(text))
}

fn name_of(kind: EntryKind) -> &'static str {
    match kind {
        EntryKind::Begun => "begun",
        EntryKind::Took => "took",
        EntryKind::Failed => "failed",
        EntryKind::Answered => "answered",
    }
}

// The first difference on the disks.
fn disk_difference(
    alloc: Global,
    facts: &[DiskExpectation],
    before: &Images,
    after: &Images,
) -> Result<Option<Failure>, AllocError> {
    for fact in facts {
        if let Some(what) = difference_on(alloc, &fact.what, before, after)? {
            let line = fact.line;
            return Ok(Some(Failure { line, what }));
        }
    }
    Ok(None)
}

fn difference_on(
    alloc: Global,
    fact: &DiskFact,
    before: &Images,
    after: &Images,
) -> Result<Option<String>, AllocError> {
    match fact {
        DiskFact::Has {
            disk,
            sector,
            at,
            bytes,
        } => has(alloc, disk_of(after, *disk), *sector, *at, bytes),
        DiskFact::Zero { disk, first, count } => zero(alloc, disk_of(after, *disk), *first, *count),
        DiskFact::Rest { disk, sector, at } => rest(alloc, disk_of(after, *disk), *sector, *at),
        DiskFact::Same {
            one,
            other,
            first,
            count,
        } => same(
            alloc,
            disk_of(after, *one),
            disk_of(after, *other),
            *first,
            *count,
        ),
        DiskFact::Changed { disk, spans } => {
            changed(alloc, disk_of(before, *disk), disk_of(after, *disk), spans)
        }
        DiskFact::Unchanged => unchanged(alloc, before, after),
    }
}

// The sectors of the disk, none where there is no such disk.
fn disk_of(images: &Images, disk: u32) -> &[Bytes512] {
    match images.as_slice().get(disk as usize) {
        Some(sectors) => sectors.as_slice(),
        None => &[],
    }
}

fn no_place(alloc: Global) -> Result<Option<String>, AllocError> {
    Ok(Some(String::from_str(alloc, "the disk has no such place")?))
}

// The bytes of the sector from this place on.
fn bytes_from(disk: &[Bytes512], sector: usize, at: usize) -> Option<&[u8]> {
    let bytes: &[u8] = disk.get(sector)?.as_bytes();
    bytes.get(at..)
}

fn has(
    alloc: Global,
    disk: &[Bytes512],
    sector: usize,
    at: usize,
    wanted: &[u8],
) -> Result<Option<String>, AllocError> {
    let bytes = match bytes_from(disk, sector, at) {
        Some(bytes) => bytes.get(..wanted.len()),
        None => None,
    };
    let Some(bytes) = bytes else {
        return no_place(alloc);
    };
    if bytes == wanted {
        return Ok(None);
    }
    let bytes = shown(alloc, bytes)?;
    let text = format!(in alloc; "sector {sector} has from byte {at} on {bytes}")?;
    Ok(Some(text))
}

fn rest(
    alloc: Global,
    disk: &[Bytes512],
    sector: usize,
    at: usize,
) -> Result<Option<String>, AllocError> {
    let Some(bytes) = bytes_from(disk, sector, at) else {
        return no_place(alloc);
    };
    match bytes.iter().position(|byte| *byte != 0) {
        None => Ok(None),
        Some(place) => {
            let place = place.saturating_add(at);
            Ok(Some(format!(in alloc; "byte {place} of sector {sector} isn't zero")?))
        }
    }
}

fn zero(
    alloc: Global,
    disk: &[Bytes512],
    first: usize,
    count: usize,
) -> Result<Option<String>, AllocError> {
    let Some(sectors) = disk.get(first..first.saturating_add(count)) else {
        return no_place(alloc);
    };
    let zero = Bytes512::zeroed();
    match sectors.iter().position(|sector| *sector != zero) {
        None => Ok(None),
        Some(place) => {
            let sector = place.saturating_add(first);
            Ok(Some(format!(in alloc; "sector {sector} isn't zero")?))
        }
    }
}

fn same(
    alloc: Global,
    one: &[Bytes512],
    other: &[Bytes512],
    first: usize,
    count: usize,
) -> Result<Option<String>, AllocError> {
    let end = first.saturating_add(count);
    let (Some(one), Some(other)) = (one.get(first..end), other.get(first..end)) else {
        return no_place(alloc);
    };
    match one
        .iter()
        .zip(other.iter())
        .position(|both| *both.0 != *both.1)
    {
        None => Ok(None),
        Some(place) => {
            let sector = place.saturating_add(first);
            Ok(Some(format!(in alloc; "sector {sector} isn't the same on both")?))
        }
    }
}

fn changed(
    alloc: Global,
    before: &[Bytes512],
    after: &[Bytes512],
    spans: &[Sites],
) -> Result<Option<String>, AllocError> {
    for (sector, (was, is)) in before.iter().zip(after.iter()).enumerate() {
        let wanted = is_among(spans, sector);
        if (*was != *is) != wanted {
            let text = if wanted {
                "isn't changed"
            } else {
                "is changed"
            };
            return Ok(Some(format!(in alloc; "sector {sector} {text}")?));
        }
    }
    match spans.iter().all(|sites| sites.last < before.len()) {
        true => Ok(None),
        false => no_place(alloc),
    }
}

// Whether the sector is one of these.
fn is_among(spans: &[Sites], sector: usize) -> bool {
    spans
        .iter()
        .any(|sites| sites.first <= sector && sector <= sites.last)
}

fn unchanged(alloc: Global, before: &Images, after: &Images) -> Result<Option<String>, AllocError> {
    for (disk, (was, is)) in before.as_slice().iter().zip(after.as_slice()).enumerate() {
        if let Some(sector) = first_changed(was, is) {
            let text = format!(in alloc; "sector {sector} of disk number {disk} is changed")?;
            return Ok(Some(text));
        }
    }
    Ok(None)
}

fn first_changed(before: &Sectors, after: &Sectors) -> Option<usize> {
    before
        .as_slice()
        .iter()
        .zip(after.as_slice())
        .position(|both| *both.0 != *both.1)
}
