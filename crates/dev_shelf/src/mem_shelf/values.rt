//! The values that a crash may leave in a sector.
ghost use Rattle.std.specs.Prelude.{◌≡◌, ◌≤◌, ◌<◌, ℕ, List, [], ◌∷◌, filter, length, not, slice_index_or, take, vec_len, IfOk};
ghost use Rattle.sector_base.specs.Spans.{covers};
ghost use Rattle.disk_model.specs.Steps.{Step};
ghost use Rattle.disk_model.specs.Record.{IsRecord};
ghost use Rattle.disk_model.specs.ValueList.{is_dropped, values};
ghost use Rattle.dev_shelf.specs.DiskRow.{image_of, step_at, steps_onto};
ghost use Rattle.dev_shelf.specs.DiskRowInvariant.{IsGood, IsKept, recorded_work};
ghost use Rattle.dev_shelf.specs.RowValues.{IsSeen, is_write, told_after};

use super::disk_row::DiskRow;
use super::recorded::{RecordedStep, RecordedWork};
use sector_base::{Bytes512, Span};
use std::alloc::{AllocError, Global};

/// A value that a crash may leave, with the tag of the write that brought it, if one did.
pub type PossibleValue = (Option<u64>, Bytes512);

/// The values that a crash after the first so many steps may leave in the sector.
pub fn values_at(
    alloc: Global,
    row: &DiskRow,
    count: usize,
    disk: u32,
    sector: u64,
) -> Result<Vec<PossibleValue>, AllocError>
    requires good { IsGood row.now }
    requires count { count ≤ vec_len row.now.steps }
    requires disk { disk < vec_len row.now.opened }
    requires sector { sector < length (slice_index_or row.now.opened.items disk []) }
    ensures { IfOk result (λ v. v.items ≡ values (image_of row.now.opened.items) (steps_onto row.now.written.items [] (take count row.now.steps.items)) disk sector) }
{
    let mut all = Vec::new(alloc);
    all.push((None, row.opened[disk as usize].get(sector as usize)))?;
    for i in 0..count {
        all = values_on(alloc, row, i, row.steps[i], disk, sector, all)?;
    }
    Ok(all)
}

// The values after one step more.
fn values_on(
    alloc: Global,
    row: &DiskRow,
    at: usize,
    step: RecordedStep,
    number: u32,
    sector: u64,
    before: Vec<PossibleValue>,
) -> Result<Vec<PossibleValue>, AllocError>
    requires at { at < vec_len row.now.steps }
    requires kept { IsKept (length row.now.written.items) (recorded_work step) }
    requires follows { IsRecord (step_at row.now.written.items step ∷ steps_onto row.now.written.items [] (take at row.now.steps.items)) }
    requires before { before.items ≡ values (image_of row.now.opened.items) (steps_onto row.now.written.items [] (take at row.now.steps.items)) number sector }
    ensures { IfOk result (λ v. v.items ≡ values (image_of row.now.opened.items) (step_at row.now.written.items step ∷ steps_onto row.now.written.items [] (take at row.now.steps.items)) number sector) }
{
    let mut all = before;
    match step {
        RecordedStep::Began(tag, work) => match work {
            RecordedWork::Writes(span, from) => {
                if is_covered(&span, number, sector) {
                    all.push((
                        Some(tag),
                        row.written[from + (sector - span.first) as usize],
                    ))?;
                    return Ok(all);
                }
                Ok(all)
            }
            RecordedWork::Reads(_) => Ok(all),
            RecordedWork::Flushes(_) => Ok(all),
        },
        RecordedStep::Ended(tag, work, well, _) => match work {
            RecordedWork::Flushes(disk) => {
                // The last value that was written always stays.
                if well && disk == number && all.len() > 1 {
                    return kept_of(
                        alloc,
                        &row.written,
                        &row.steps,
                        at,
                        tag,
                        number,
                        sector,
                        &all,
                    );
                }
                Ok(all)
            }
            RecordedWork::Reads(_) => Ok(all),
            RecordedWork::Writes(_, _) => Ok(all),
        },
    }
}

// The values that the flush leaves, which completes after the first so many steps.
fn kept_of(
    alloc: Global,
    written: &Vec<Bytes512>,
    steps: &Vec<RecordedStep>,
    count: usize,
    flush: u64,
    disk: u32,
    sector: u64,
    all: &Vec<PossibleValue>,
) -> Result<Vec<PossibleValue>, AllocError>
    requires { count ≤ vec_len steps.now }
    ensures { IfOk result (λ v. v.items ≡ filter (λ u. not (is_dropped (steps_onto written.now.items [] (take count steps.now.items)) flush disk sector u.0)) all.now.items) }
{
    let mut kept = Vec::new(alloc);
    for value in all {
        if !is_dropped_at(written, steps, count, flush, disk, sector, value.0) {
            kept.push(*value)?;
        }
    }
    Ok(kept)
}

// Whether the flush, which completes after the first so many steps, drops the write's value of the sector.
fn is_dropped_at(
    written: &Vec<Bytes512>,
    steps: &Vec<RecordedStep>,
    count: usize,
    flush: u64,
    disk: u32,
    sector: u64,
    write: Option<u64>,
) -> bool
    requires { count ≤ vec_len steps.now }
    ensures { result ≡ is_dropped (steps_onto written.now.items [] (take count steps.now.items)) flush disk sector write }
{
    let mut seen = WriteSeen {
        completed: write.is_none(),
        overtaken: false,
        dropped: false,
    };
    for i in 0..count {
        seen = see(seen, &steps[i], flush, disk, sector, write);
    }
    seen.dropped
}

/// What a pass over the steps has seen of a write.
#[derive(Clone, Copy, Debug, Drop)]
pub struct WriteSeen {
    pub completed: bool,
    pub overtaken: bool,
    pub dropped: bool,
}

// One step more is seen.
fn see(
    seen: WriteSeen,
    step: &RecordedStep,
    flush: u64,
    disk: u32,
    sector: u64,
    write: Option<u64>,
) -> WriteSeen
    ensures { (written : List (List ℕ)) (steps : List Step) → IsSeen seen steps flush disk sector write → IsSeen result (step_at written step.now ∷ steps) flush disk sector write }
{
    match step {
        RecordedStep::Began(tag, _) => WriteSeen {
            dropped: seen.dropped || (*tag == flush && seen.overtaken),
            ..seen
        },
        RecordedStep::Ended(tag, work, well, _) => {
            let overtakes = match work {
                RecordedWork::Writes(span, _) => {
                    *well && is_covered(span, disk, sector) && seen.completed
                }
                RecordedWork::Reads(_) | RecordedWork::Flushes(_) => false,
            };
            WriteSeen {
                completed: is_tag(write, *tag) || seen.completed,
                overtaken: seen.overtaken || overtakes,
                dropped: seen.dropped,
            }
        }
    }
}

// Whether the write has this tag, or is the opening, which has none.
fn is_tag(write: Option<u64>, tag: u64) -> bool
    ensures { result ≡ is_write tag write }
{
    match write {
        Some(write) => tag == write,
        None => true,
    }
}

/// Whether the span covers the sector.
pub fn is_covered(span: &Span, disk: u32, sector: u64) -> bool
    ensures { result ≡ covers span.now disk sector }
{
    span.pv == disk && span.first <= sector && sector - span.first < u64::from(span.count)
}
