//! The images that a crash at each moment of a run may leave.
use crate::images::crashed;
use crate::versions::{Seen, choices_at, version_of};
use dev_shelf::MemShelf;
use line_table::{EntryKind, Journal};
use lvm_run::Ended;
use row_text::{Enumeration, Failure, Stop, Version};
use std::alloc::Global;
use std::sync::Wait;
use std::thread::Threads;

/// Each image is a version that may stand there, and each version is seen.
pub fn check_moments<T: Threads + Wait + Sync>(
    rt: &T,
    alloc: Global,
    list: &Enumeration,
    ended: &Ended<MemShelf>,
) -> Result<(), Stop> {
    let mut seen = Seen::new(alloc, list.versions.len())?;
    for moment in 0..=ended.shelf.moments() {
        check_moment(rt, alloc, list, ended, moment, &mut seen)?;
    }
    seen.has_all(alloc, &list.versions)
}

// The images at this moment.
fn check_moment<T: Threads + Wait + Sync>(
    rt: &T,
    alloc: Global,
    list: &Enumeration,
    ended: &Ended<MemShelf>,
    moment: u64,
    seen: &mut Seen,
) -> Result<(), Stop> {
    let choices = choices_at(alloc, list, moment)?;
    for choice in choices.iter() {
        let Some(image) = crashed(alloc, &ended.shelf, moment, *choice)? else {
            continue;
        };
        let place = format!(in alloc; "at moment {moment}, choice {choice:#x}")?;
        let number = version_of(rt, alloc, list, image, place.as_str())?;
        seen.mark(number);
        if let Some(version) = list.versions.get(number) {
            may_stand(alloc, version, ended.journal(), moment, place.as_str())?;
        }
    }
    Ok(())
}

// The version may stand at this moment.
fn may_stand(
    alloc: Global,
    version: &Version,
    journal: &Journal,
    moment: u64,
    place: &str,
) -> Result<(), Stop> {
    if is_behind(journal, version.from, moment) && is_before(journal, version.until, moment) {
        return Ok(());
    }
    let what = format!(in alloc; "{place}: version {} may not stand there", version.name)?;
    let line = version.line;
    Err(Stop::Failed(Failure { line, what }))
}

// Whether the moment is behind the entry of this kind, where one is given.
fn is_behind(journal: &Journal, kind: Option<EntryKind>, moment: u64) -> bool {
    match kind {
        Some(kind) => moment_of(journal, kind).is_some_and(|entered| moment > entered),
        None => true,
    }
}

// Whether the moment is before the entry of this kind, where one is given and there is one.
fn is_before(journal: &Journal, kind: Option<EntryKind>, moment: u64) -> bool {
    match kind {
        Some(kind) => moment_of(journal, kind).is_none_or(|entered| moment < entered),
        None => true,
    }
}

// The moment of the first entry of this kind.
fn moment_of(journal: &Journal, kind: EntryKind) -> Option<u64> {
    for entry in journal.iter() {
        if entry.kind == kind {
            return Some(entry.moment);
        }
    }
    None
}
