//! Adjacent operations, which one call of the system carries out.
ghost use Rattle.std.specs.Prelude.{◌≡◌, ◌≤◌, ◌<◌, ◌+◌, ◌^◌, length, All, IfSome};
ghost use Rattle.disk_model.specs.Operations.{disk_of};
ghost use Rattle.op_queue.specs.Queue.{state_of};
ghost use Rattle.op_queue.specs.QueueInvariant.{IsGood};
ghost use Rattle.file_shelf.specs.Adjacent.{AreOne, IsOneCall, run_of};
ghost use Rattle.file_shelf.specs.Bytes.{IsInFile};
ghost use Rattle.file_shelf.specs.Sizes.{IsSize};

use crate::copying::{SECTOR, gather};
use crate::transfer::AT_ONCE;
use disk_model::Op;
use op_queue::OpQueue;

// How many sectors one call reads or writes at the most.
const MOST: usize = AT_ONCE / SECTOR;

/// So many sectors of one disk, from the sector `first` on, which are all read or all written.
#[derive(Clone, Copy)]
pub struct Run {
    pub writes: bool,
    pub pv: u32,
    pub first: u64,
    pub sectors: usize,
}

impl Run {
    // The operation alone; `None` for a flush.
    fn of(op: &Op) -> Option<Run>
        ensures { result ≡ run_of op.now }
    {
        let (writes, span) = match op {
            Op::Read(span, _) => (false, span),
            Op::Write(span, _) => (true, span),
            Op::Flush(_) => return None,
        };
        Some(Run {
            writes,
            pv: span.pv,
            first: span.first,
            sectors: span.count as usize,
        })
    }

    // Both as one, where `next` is of the same kind and lies right behind, and one call has room for both.
    fn and(self, next: Run) -> Option<Run>
        requires within { self.first + self.sectors ≤ 2 ^ 40 }
        requires next { next.first + next.sectors ≤ 2 ^ 40 }
        ensures { IfSome result (AreOne self next) }
    {
        let sectors = self.sectors + next.sectors;
        let is_behind = next.pv == self.pv && next.first == self.first + self.sectors as u64;
        if next.writes == self.writes && is_behind && sectors <= MOST {
            Some(Run { sectors, ..self })
        } else {
            None
        }
    }
}

// The operation at this place of those in flight.
fn op_at(queue: &OpQueue, at: usize) -> Option<&Op>
    requires good { IsGood queue.now }
    requires sizes { All IsSize (state_of queue.now).sizes }
    ensures within { IfSome result (λ op. IsInFile op.now) }
    ensures disk { IfSome result (λ op. disk_of op.now < length (state_of queue.now).sizes) }
{
    Some(&queue.get(at)?.op)
}

// The empty run in front of the oldest operation, where that is joined with the next one.
fn before_oldest(queue: &OpQueue) -> Option<Run>
    requires good { IsGood queue.now }
    requires sizes { All IsSize (state_of queue.now).sizes }
    ensures { IfSome result (IsOneCall (length (state_of queue.now).sizes)) }
{
    let oldest = Run::of(op_at(queue, 0)?)?;
    oldest.and(Run::of(op_at(queue, 1)?)?)?;
    Some(Run {
        sectors: 0,
        ..oldest
    })
}

// The run with the operation at this place, where they are joined. What that writes is copied into the bytes, behind what the run
// writes.
fn longer(queue: &OpQueue, at: usize, run: Run, bytes: &mut [u8]) -> Option<Run>
    requires good { IsGood queue.now }
    requires sizes { All IsSize (state_of queue.now).sizes }
    requires run { IsOneCall (length (state_of queue.now).sizes) run }
    requires room { length bytes.old ≡ AT_ONCE }
    ensures { IfSome result (IsOneCall (length (state_of queue.now).sizes)) }
{
    let op = op_at(queue, at)?;
    let both = run.and(Run::of(op)?)?;
    if let Op::Write(_, sectors) = op {
        let place = &mut bytes[SECTOR * run.sectors..SECTOR * both.sectors];
        gather(sectors, 0, sectors.len(), place);
    }
    Some(both)
}

/// The sectors of the oldest operations in flight that one call carries out, if they are two or more. What they write stands
/// first in the bytes then.
pub fn oldest_run(queue: &OpQueue, bytes: &mut [u8]) -> Option<Run>
    requires good { IsGood queue.now }
    requires sizes { All IsSize (state_of queue.now).sizes }
    requires room { length bytes.old ≡ AT_ONCE }
    ensures { IfSome result (IsOneCall (length (state_of queue.now).sizes)) }
{
    let mut run = before_oldest(queue)?;
    for at in 0..queue.in_flight() {
        match longer(queue, at, run, bytes) {
            Some(both) => run = both,
            None => break,
        }
    }
    Some(run)
}
