//! Which version an image is.
use crate::differences::difference;
use crate::images::{left, opened};
use crate::run::run;
use dev_shelf::{Images, MemShelf};
use row_text::{Enumeration, Failure, Run, Stop, Version};
use std::alloc::{AllocError, Global};
use std::sync::Wait;
use std::thread::Threads;

/// Which sectors take the new one of their two values, where some do: every second, two of four, eight of sixteen.
const MIXED: [u64; 6] = [0x5555, 0xaaaa, 0x3333, 0xcccc, 0x00ff, 0xff00];

/// The choices at this turn: those that are listed, or else all old, all new, and some of both by turns.
pub fn choices_at(alloc: Global, list: &Enumeration, turn: u64) -> Result<Vec<u64>, AllocError> {
    if !list.choices.is_empty() {
        return Vec::from_slice(alloc, &list.choices);
    }
    let mixed = MIXED[(turn % 6) as usize];
    Ok(vec![in alloc; 0, 0xffff, mixed]?)
}

/// Which of the versions were seen.
#[derive(Drop)]
pub struct Seen {
    marks: Vec<bool>,
}

impl Seen {
    /// None of so many was.
    pub fn new(alloc: Global, count: usize) -> Result<Self, AllocError> {
        Ok(Seen {
            marks: vec![in alloc; false; count]?,
        })
    }

    /// This one was.
    pub fn mark(&mut self, version: usize) {
        if version < self.marks.len() {
            self.marks[version] = true;
        }
    }

    /// Each of them was, or else the row isn't as expected.
    pub fn has_all(&self, alloc: Global, versions: &[Version]) -> Result<(), Stop> {
        for (version, mark) in versions.iter().zip(self.marks.iter()) {
            if !*mark {
                let what = format!(in alloc; "version {} isn't seen", version.name)?;
                let line = version.line;
                return Err(Stop::Failed(Failure { line, what }));
            }
        }
        Ok(())
    }
}

/// The number of the first version that the image is, all of whose checks then have to hold. `place` says which image it is.
pub fn version_of<T: Threads + Wait + Sync>(
    rt: &T,
    alloc: Global,
    list: &Enumeration,
    image: Images,
    place: &str,
) -> Result<usize, Stop> {
    let mut image = image;
    let mut reasons = String::new(alloc);
    for (number, version) in list.versions.iter().enumerate() {
        let Some((first, others)) = version.checks.split_first() else {
            continue;
        };
        let (found, shelf) = checked(rt, alloc, first, image)?;
        let Some(failure) = found else {
            holds_on(rt, alloc, version, others, shelf, place)?;
            return Ok(number);
        };
        let why = format!(in alloc; "; {}: {}", version.name, failure.what)?;
        reasons.push_str(why.as_str())?;
        image = opened(alloc, &shelf)?;
    }
    let what = format!(in alloc; "{place}: no version fits{reasons}")?;
    let line = list.line;
    Err(Stop::Failed(Failure { line, what }))
}

// These checks of the version hold in turn, each on what the one before left.
fn holds_on<T: Threads + Wait + Sync>(
    rt: &T,
    alloc: Global,
    version: &Version,
    checks: &[Run],
    shelf: MemShelf,
    place: &str,
) -> Result<(), Stop> {
    let mut shelf = shelf;
    for check in checks {
        let images = left(alloc, &shelf)?;
        let (found, after) = checked(rt, alloc, check, images)?;
        if let Some(failure) = found {
            let Failure { line, what } = failure;
            let what = format!(in alloc; "{place}: version {}: {what}", version.name)?;
            return Err(Stop::Failed(Failure { line, what }));
        }
        shelf = after;
    }
    Ok(())
}

/// Runs the words on these disks. In what that differs from what is expected, and the disks.
pub fn checked<T: Threads + Wait + Sync>(
    rt: &T,
    alloc: Global,
    check: &Run,
    images: Images,
) -> Result<(Option<Failure>, MemShelf), Stop> {
    let mut ran = run(rt, alloc, check, images, None)?;
    let found = difference(alloc, check, &mut ran)?;
    Ok((found, ran.ended.shelf))
}
