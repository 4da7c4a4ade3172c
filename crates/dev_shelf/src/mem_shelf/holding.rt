//! What a plan holds back, and what of it was let go.
ghost use Rattle.std.specs.Prelude.{◌≡◌, ◌<◌, ◌≤◌, ◌^◌, ◌+◌, ℕ, length, map, slice_index, vec_len};
ghost use Rattle.std.specs.List.{list_any};
ghost use Rattle.dev_shelf.specs.RowHolds.{has_come_at, is_flush_after, is_flush_of, is_flushed_write, is_held_at, is_kept_at, ready_at};
ghost use Rattle.dev_shelf.specs.RowValues.{is_written};

use super::disk_row::DiskRow;
use super::recorded::{RecordedOp, RecordedStep, RecordedWork};
use super::values::is_covered;
use crate::Hold;

/// The holds of a plan, and what was let go of the operations that they keep back.
#[derive(Drop)]
pub struct Holding {
    pub holds: Vec<Hold>,
    pub limit: u64,
    /// How many vain answers there were in a row.
    pub vain: u64,
    /// The operations with a tag below it are let go.
    pub let_go: u64,
    /// How many were let go.
    pub forced: u64,
}

impl Holding {
    /// The holds of a plan, of which nothing was let go yet.
    pub fn new(holds: Vec<Hold>, limit: u64) -> Self
        ensures { result ≡ record { holds = holds; limit = limit; vain = 0; let_go = 0; forced = 0 } }
    {
        Holding {
            holds,
            limit,
            vain: 0,
            let_go: 0,
            forced: 0,
        }
    }

    /// How many of the operations in flight are ready.
    pub fn ready_count(&self, row: &DiskRow) -> usize
        ensures { result ≡ length (ready_at self.now row.now) }
    {
        let mut count = 0;
        for op in &row.in_flight {
            if !self.is_held(&row.steps, op) {
                count += 1;
            }
        }
        count
    }

    /// The place in flight of the ready operation of this number, the oldest being number 0.
    pub fn place_of_ready(&self, row: &DiskRow, number: usize) -> usize
        requires { number < length (ready_at self.now row.now) }
        ensures here { result < length row.now.in_flight.items }
        ensures which { slice_index (map (λ op. op.tag) row.now.in_flight.items) result ≡ slice_index (map (λ op. op.tag) (ready_at self.now row.now)) number }
    {
        let mut left = number;
        for at in 0..row.in_flight.len() {
            if !self.is_held(&row.steps, &row.in_flight[at]) {
                if left == 0 {
                    return at;
                }
                left -= 1;
            }
        }
        unreachable!()
    }

    // Whether the operation in flight is held.
    fn is_held(&self, steps: &Vec<RecordedStep>, op: &RecordedOp) -> bool
        ensures { result ≡ is_held_at self.now steps.now.items op.now }
    {
        op.tag >= self.let_go && is_kept(&self.holds, steps, &op.work)
    }

    /// Lets the operation with this tag go.
    pub fn let_go(&mut self, tag: u64)
        requires forced { self.old.forced ≤ tag }
        requires tag { tag < 2 ^ 62 }
        ensures { self.new ≡ record self.old { vain = 0; let_go = tag + 1; forced = self.old.forced + 1 } }
    {
        self.vain = 0;
        self.let_go = tag + 1;
        self.forced += 1;
    }
}

// Whether one of the holds keeps the operation back.
fn is_kept(holds: &Vec<Hold>, steps: &Vec<RecordedStep>, work: &RecordedWork) -> bool
    ensures { result ≡ list_any (is_kept_at steps.now.items work.now) holds.now.items }
{
    holds.iter().any(|hold| is_kept_back(hold, steps, work))
}

// Whether the hold keeps the operation back.
fn is_kept_back(hold: &Hold, steps: &Vec<RecordedStep>, work: &RecordedWork) -> bool
    ensures { result ≡ is_kept_at steps.now.items work.now hold.now }
{
    writes(work, hold.pv, hold.sector) && !has_come(hold, steps)
}

// Whether what the hold waits for has come.
fn has_come(hold: &Hold, steps: &Vec<RecordedStep>) -> bool
    ensures { result ≡ has_come_at steps.now.items hold.now }
{
    steps.iter().any(|step| is_flushed_write(step, hold, steps))
}

// Whether the write that the hold waits for completed well in this step, and a later flush of its disk in one of all.
fn is_flushed_write(step: &RecordedStep, hold: &Hold, steps: &Vec<RecordedStep>) -> bool
    ensures { result ≡ is_flushed_write steps.now.items hold.now step.now }
{
    match step {
        RecordedStep::Began(_, _) => false,
        RecordedStep::Ended(tag, work, well, _) => {
            *well
                && writes(work, hold.until_pv, hold.until)
                && is_flushed(steps, hold.until_pv, *tag)
        }
    }
}

// Whether a flush of the disk completed well in one of the steps that was submitted after this tag.
fn is_flushed(steps: &Vec<RecordedStep>, disk: u32, tag: u64) -> bool
    ensures { result ≡ list_any (is_flush_after disk tag) steps.now.items }
{
    steps.iter().any(|step| is_flush_after(step, disk, tag))
}

// Whether a flush of the disk completed well in this step that was submitted after this tag.
fn is_flush_after(step: &RecordedStep, disk: u32, tag: u64) -> bool
    ensures { result ≡ is_flush_after disk tag step.now }
{
    match step {
        RecordedStep::Began(_, _) => false,
        RecordedStep::Ended(flush, work, well, _) => *well && flushes(work, disk) && tag < *flush,
    }
}

// Whether the operation writes the sector.
fn writes(work: &RecordedWork, disk: u32, sector: u64) -> bool
    ensures { result ≡ is_written work.now disk sector }
{
    match work {
        RecordedWork::Writes(span, _) => is_covered(span, disk, sector),
        RecordedWork::Reads(_) | RecordedWork::Flushes(_) => false,
    }
}

// Whether the operation flushes the disk.
fn flushes(work: &RecordedWork, number: u32) -> bool
    ensures { result ≡ is_flush_of number work.now }
{
    match work {
        RecordedWork::Flushes(disk) => *disk == number,
        RecordedWork::Reads(_) | RecordedWork::Writes(_, _) => false,
    }
}
