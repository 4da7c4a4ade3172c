//! The rows of a file, run one after another.
use crate::differences::difference;
use crate::failures::check_failures;
use crate::images::{crashed, edited, left, numbered};
use crate::moments::check_moments;
use crate::report::Report;
use crate::run::run;
use dev_shelf::{Images, MemShelf};
use row_text::{Act, DiskPlan, DiskStart, Edit, EditKind, List, Row, Stop, Trial, failed};
use sector_base::Sectors;
use std::alloc::{AllocError, Global};
use std::sync::Wait;
use std::thread::Threads;

/// What each row left, where a later one begins with it and it was as expected.
type Kept = Vec<Option<Images>>;

/// Runs the rows, and says which aren't as expected. Only memory can be wanting.
pub fn run_rows<T: Threads + Wait + Sync>(
    rt: &T,
    alloc: Global,
    rows: &[Row],
) -> Result<Report, Stop> {
    let mut report = Report::new(alloc);
    let mut kept = Vec::new(alloc);
    for row in rows {
        let done = run_row(rt, alloc, row, &kept);
        let left = report.add(alloc, row, done)?;
        kept.push(left)?;
    }
    Ok(report)
}

/// The disks of a row as they stand.
#[derive(Drop)]
enum Standing {
    /// They were made, or written on beside the runs.
    Written(Images),
    /// The last run left them, of which there is the record.
    Left(MemShelf),
}

impl Standing {
    // The disks.
    fn images(self, alloc: Global) -> Result<Images, AllocError> {
        match self {
            Standing::Written(images) => Ok(images),
            Standing::Left(shelf) => left(alloc, &shelf),
        }
    }
}

// Runs a row, and gives the disks that it leaves, where they are kept.
fn run_row<T: Threads + Wait + Sync>(
    rt: &T,
    alloc: Global,
    row: &Row,
    kept: &Kept,
) -> Result<Option<Images>, Stop> {
    let mut standing = Standing::Written(built(alloc, &row.disks, kept)?);
    for act in row.acts.iter() {
        standing = done(rt, alloc, standing, act)?;
    }
    if row.is_kept {
        Ok(Some(standing.images(alloc)?))
    } else {
        Ok(None)
    }
}

// The disks at first.
fn built(alloc: Global, plans: &[DiskPlan], kept: &Kept) -> Result<Images, Stop> {
    let mut disks = Vec::new(alloc);
    for plan in plans {
        match new_disk(alloc, plan.start, kept)? {
            Some(disk) => disks.push(disk)?,
            None => return Err(failed(alloc, plan.line, "the row that leaves this disk failed")),
        }
    }
    Ok(Images::from_vec(disks))
}

// A disk at first, if the row that leaves it was as expected.
fn new_disk(alloc: Global, start: DiskStart, kept: &Kept) -> Result<Option<Sectors>, AllocError> {
    match start {
        DiskStart::Blank(sectors) => Ok(Some(Sectors::zeroed(alloc, sectors)?)),
        DiskStart::Numbered(sectors) => Ok(Some(numbered(alloc, sectors)?)),
        DiskStart::Left { row, disk } => match kept.get(row) {
            Some(Some(images)) => copy_of_disk(alloc, images, disk),
            _ => Ok(None),
        },
    }
}

fn copy_of_disk(alloc: Global, images: &Images, disk: u32) -> Result<Option<Sectors>, AllocError> {
    match images.as_slice().get(disk as usize) {
        Some(disk) => Ok(Some(disk.try_copy(alloc)?)),
        None => Ok(None),
    }
}

// Does one act of a row.
fn done<T: Threads + Wait + Sync>(
    rt: &T,
    alloc: Global,
    standing: Standing,
    act: &Act,
) -> Result<Standing, Stop> {
    match act {
        Act::Edit(edit) => Ok(Standing::Written(written(alloc, standing, edit)?)),
        Act::Try(trial) => {
            let images = standing.images(alloc)?;
            Ok(Standing::Left(tried(rt, alloc, trial, images)?))
        }
    }
}

// Writes on the disks, or takes those of a crash of the last run.
fn written(alloc: Global, standing: Standing, edit: &Edit) -> Result<Images, Stop> {
    let image = match (&edit.kind, &standing) {
        (EditKind::Crash { moment, choice }, Standing::Left(shelf)) => {
            crashed(alloc, shelf, *moment, *choice)?
        }
        _ => edited(alloc, standing.images(alloc)?, &edit.kind)?,
    };
    match image {
        Some(image) => Ok(image),
        None => Err(failed(
            alloc,
            edit.line,
            "no disk has this place, or no run before this moment",
        )),
    }
}

// Runs the words of a trial, and what is enumerated behind them.
fn tried<T: Threads + Wait + Sync>(
    rt: &T,
    alloc: Global,
    trial: &Trial,
    images: Images,
) -> Result<MemShelf, Stop> {
    let mut ran = run(rt, alloc, &trial.run, images, None)?;
    if let Some(failure) = difference(alloc, &trial.run, &mut ran)? {
        return Err(Stop::Failed(failure));
    }
    for list in trial.lists.iter() {
        match list {
            List::Moments(list) => check_moments(rt, alloc, list, &ran.ended)?,
            List::Failures(list) => {
                check_failures(rt, alloc, list, &trial.run, &ran.ended.shelf)?;
            }
        }
    }
    Ok(ran.ended.shelf)
}
