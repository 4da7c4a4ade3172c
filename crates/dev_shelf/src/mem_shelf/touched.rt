//! The sectors that were written since the opening.
ghost use Rattle.std.specs.Prelude.{◌≡◌, ◌≤◌, ◌<◌, ◌+◌, ◌||◌, ℕ, [], false, length, slice_index_or, take, vec_len, IfOk};
ghost use Rattle.dev_shelf.specs.DiskRow.{steps_onto};
ghost use Rattle.dev_shelf.specs.DiskRowInvariant.{IsGood, recorded_work as work_in};
ghost use Rattle.dev_shelf.specs.RowValues.{IsWrittenWithin, covers_place, is_touched, is_written};

use super::disk_row::DiskRow;
use super::recorded::{RecordedStep, RecordedWork};
use sector_base::Span;
use std::alloc::{AllocError, Global};

/// Of each sector of the disk whether a write of it is among the first so many steps.
pub fn touched_sectors(
    alloc: Global,
    row: &DiskRow,
    count: usize,
    disk: u32,
) -> Result<Vec<bool>, AllocError>
    requires good { IsGood row.now }
    requires count { count ≤ vec_len row.now.steps }
    requires disk { disk < vec_len row.now.opened }
    ensures { IfOk result (λ marks. (vec_len marks ≡ length (slice_index_or row.now.opened.items disk []))
        × ((s : ℕ) → s < vec_len marks → slice_index_or marks.items s false ≡ is_touched (steps_onto row.now.written.items [] (take count row.now.steps.items)) disk s)) }
{
    let mut marks = vec![in alloc; false; row.opened[disk as usize].len()]?;
    for i in 0..count {
        mark_work(&mut marks, recorded_work(&row.steps[i]), disk);
    }
    Ok(marks)
}

// What the recorded step's operation does.
fn recorded_work(step: &RecordedStep) -> RecordedWork
    ensures { result ≡ work_in step.now }
{
    match step {
        RecordedStep::Began(_, work) | RecordedStep::Ended(_, work, _, _) => *work,
    }
}

// Marks the sectors of the disk that the operation writes.
fn mark_work(marks: &mut Vec<bool>, work: RecordedWork, disk: u32)
    requires { IsWrittenWithin work disk (vec_len marks.old) }
    ensures len { vec_len marks.new ≡ vec_len marks.old }
    ensures each { (s : ℕ) → s < vec_len marks.old → slice_index_or marks.new.items s false ≡ (is_written work disk s || slice_index_or marks.old.items s false) }
{
    match work {
        RecordedWork::Writes(span, _) => {
            if span.pv == disk {
                mark_span(marks, span);
            }
        }
        RecordedWork::Reads(_) | RecordedWork::Flushes(_) => {}
    }
}

// Marks the sectors of the span.
fn mark_span(marks: &mut Vec<bool>, span: Span)
    requires { span.first + span.count ≤ vec_len marks.old }
    ensures len { vec_len marks.new ≡ vec_len marks.old }
    ensures each { (s : ℕ) → s < vec_len marks.old → slice_index_or marks.new.items s false ≡ (covers_place span span.count s || slice_index_or marks.old.items s false) }
{
    for k in 0..span.count {
        marks[(span.first + u64::from(k)) as usize] = true;
    }
}
