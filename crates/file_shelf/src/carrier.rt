//! Operations carried out by a file, adjacent ones by one call.
ghost use Rattle.std.specs.Prelude.{◌≡◌, ◌≤◌, ℕ, List, length, vec_len, All};
ghost use Rattle.disk_model.specs.Operations.{Lies, sectors_of, work_of};
ghost use Rattle.op_queue.specs.Queue.{state_of};
ghost use Rattle.op_queue.specs.QueueInvariant.{IsGood};
ghost use Rattle.file_shelf.specs.Bytes.{IsInFile};
ghost use Rattle.file_shelf.specs.Sizes.{IsSize};

use crate::adjacent::oldest_run;
use crate::copying::{SECTOR, scatter};
use crate::image::Image;
use crate::transfer::{AT_ONCE, carry_out, carry_out_run};
use disk_model::Op;
use op_queue::OpQueue;
use std::alloc::{AllocError, Global};
use std::fs::OpenFile;
use std::os::unix::fs::FileExt;

/// The bytes of one call, and what the last call for several operations has done for those of them that are still in flight.
///
/// Operations are taken from the queue in their order, so these are the oldest ones.
#[derive(Drop)]
pub struct Carrier {
    bytes: Vec<u8>,
    // So many sectors of the oldest operations are read or written. Those that are read stand last in the bytes.
    ahead: usize,
    // The oldest operations, with so many sectors, are carried out each alone, since the call for all of them failed.
    alone: usize,
    ghost room: { vec_len bytes ≡ 65_536 },
    ghost fits: { ahead ≤ 128 },
}

// How many sectors the operation reads or writes.
fn count_of(op: &Op) -> usize
    ensures { result ≡ sectors_of op.now }
{
    match op {
        Op::Read(span, _) | Op::Write(span, _) => span.count as usize,
        Op::Flush(_) => 0,
    }
}

impl Carrier {
    /// Nothing is done ahead. Only memory can be wanting.
    pub fn new(alloc: Global) -> Result<Self, AllocError> {
        Ok(Carrier {
            bytes: vec![in alloc; 0; AT_ONCE]?,
            ahead: 0,
            alone: 0,
        })
    }

    /// Once nothing is left of the last such call, carries the oldest operations out by one call, if two or more are adjacent.
    /// Where it fails each is to be carried out alone.
    pub fn go_ahead<F: FileExt>(&mut self, queue: &OpQueue, images: &Vec<Image<F>>)
        requires good { IsGood queue.now }
        requires sizes { All IsSize (state_of queue.now).sizes }
        requires each { vec_len images.now ≡ length (state_of queue.now).sizes }
    {
        if self.ahead > 0 || self.alone > 0 {
            return;
        }
        if let Some(run) = oldest_run(queue, &mut self.bytes) {
            if carry_out_run(&images[run.pv as usize].file, run, &mut self.bytes) {
                self.ahead = run.sectors;
            } else {
                self.alone = run.sectors;
            }
        }
    }

    // The operation was carried out ahead, and gets what was read for it.
    fn take_ahead(&mut self, op: &mut Op)
        requires within { IsInFile op.old }
        requires ahead { sectors_of op.old ≤ self.old.ahead }
        ensures work { work_of op.new ≡ work_of op.old }
        ensures lies { (sizes : List ℕ) → Lies sizes op.old → Lies sizes op.new }
    {
        let count = count_of(op);
        let from = AT_ONCE - SECTOR * self.ahead;
        if let Op::Read(_, buffer) = op {
            let read = &self.bytes[from..from + SECTOR * count];
            scatter(read, buffer, 0, count);
        }
        self.ahead -= count;
    }

    /// Carries the oldest operation out, which was taken from the queue, unless that was done ahead; and says whether it went
    /// well. A flush syncs the file.
    pub fn carry_out<F: FileExt + OpenFile>(&mut self, file: &F, mut op: Op) -> (Op, bool)
        requires { IsInFile op }
        ensures work { work_of result.0 ≡ work_of op }
        ensures lies { (sizes : List ℕ) → Lies sizes op → Lies sizes result.0 }
    {
        let count = count_of(&op);
        if count > 0 && count <= self.ahead {
            self.take_ahead(&mut op);
            return (op, true);
        }
        self.ahead = 0;
        self.alone = self.alone.saturating_sub(count);
        carry_out(file, op, &mut self.bytes)
    }
}
