//! The images that a run leaves in which an operation fails.
use crate::images::{crashed, opened};
use crate::run::{EndedRun, run};
use crate::shown::first_difference;
use crate::versions::{Seen, choices_at, version_of};
use dev_shelf::{Fail, MemShelf};
use row_text::{Failure, FailureList, Run, Stop};
use std::alloc::Global;
use std::sync::Wait;
use std::thread::Threads;

/// The run is done again from where it began, and each operation fails in turn: it ends as is said, each image that is left is a
/// version, and each version is seen.
pub fn check_failures<T: Threads + Wait + Sync>(
    rt: &T,
    alloc: Global,
    failures: &FailureList,
    again: &Run,
    whole: &MemShelf,
) -> Result<(), Stop> {
    // An operation is two steps.
    let operations = whole.moments() / 2;
    let (first, end) = match failures.tags {
        Some(tags) => (tags.first, tags.last.saturating_add(1)),
        None => (0, operations),
    };
    let mut seen = Seen::new(alloc, failures.list.versions.len())?;
    for tag in first..end {
        check_failure(
            rt,
            alloc,
            failures,
            again,
            whole,
            Fail { tag, fresh: 0 },
            &mut seen,
        )?;
        check_failure(
            rt,
            alloc,
            failures,
            again,
            whole,
            Fail { tag, fresh: 1 },
            &mut seen,
        )?;
    }
    seen.has_all(alloc, &failures.list.versions)
}

// The same where this operation fails.
fn check_failure<T: Threads + Wait + Sync>(
    rt: &T,
    alloc: Global,
    failures: &FailureList,
    again: &Run,
    whole: &MemShelf,
    fail: Fail,
    seen: &mut Seen,
) -> Result<(), Stop> {
    let Fail { tag, fresh } = fail;
    let images = opened(alloc, whole)?;
    let ran = run(rt, alloc, again, images, Some(fail))?;
    let place = format!(in alloc; "where operation {tag} fails with {fresh} new")?;
    ends_so(alloc, failures, &ran, place.as_str())?;
    let choices = choices_at(alloc, &failures.list, tag)?;
    for choice in choices.iter() {
        let shelf = &ran.ended.shelf;
        let Some(image) = crashed(alloc, shelf, shelf.moments(), *choice)? else {
            continue;
        };
        let place = format!(in alloc; "{place}, choice {choice:#x}")?;
        seen.mark(version_of(rt, alloc, &failures.list, image, place.as_str())?);
    }
    Ok(())
}

// The run in which an operation failed has the status and the output that are said.
fn ends_so(alloc: Global, failures: &FailureList, ran: &EndedRun, place: &str) -> Result<(), Stop> {
    let line = failures.list.line;
    if ran.ended.status != failures.status {
        let is = ran.ended.status;
        let wanted = failures.status;
        let what = format!(in alloc; "{place}: the status is {is}, wanted {wanted}")?;
        return Err(Stop::Failed(Failure { line, what }));
    }
    let Some(output) = &failures.output else {
        return Ok(());
    };
    match first_difference(alloc, output, ran.out.bytes())? {
        None => Ok(()),
        Some(what) => {
            let what = format!(in alloc; "{place}: {what}")?;
            Err(Stop::Failed(Failure { line, what }))
        }
    }
}
