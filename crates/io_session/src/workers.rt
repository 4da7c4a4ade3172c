//! Workers that take a desk from under a lock.
ghost use Rattle.std.specs.Prelude.{◌≡◌, ◌+◌, ◌<◌, ◌≤◌, ◌^◌, false};
ghost use Rattle.std.specs.Thread.{IsSync, IsSend};
ghost use mathlib.Core.List.{IsPrefix};
ghost use Rattle.table_lock.specs.Seats.{parts, seen, has_taken, IsSeatOf};

use crate::desk::{Desk, StepOutcome, tell_progress};
use crate::driven::Driven;
use std::sync::Wait;
use std::thread;
use std::thread::{Threads, join};
use table_lock::{Gate, LockSeat, TableLock};

// One hold of the lock: the desk is taken, does one step, and is given back.
fn step_under_lock<W: Driven<L> + Send, L: Drop + Send, R: Wait>(
    rt: &R,
    lock: &TableLock<Desk<W, L>>,
    seat: &mut LockSeat<Desk<W, L>>,
) -> StepOutcome
    requires { IsSeatOf lock.now seat.old × (has_taken seat.old ≡ false) }
    ensures of { IsSeatOf lock.now seat.new × (has_taken seat.new ≡ false) × (parts seat.new ≡ parts seat.old) }
    ensures seen { IsPrefix (seen seat.old) (seen seat.new) }
{
    let mut desk = lock.take(seat, rt);
    let outcome = desk.step();
    lock.give(seat, desk);
    outcome
}

// One worker: it passes the gate and does a step of the desk, until the desk is finished. No operation is waited for in a hold.
fn run_worker<W: Driven<L> + Send, L: Drop + Send, G: Gate + Sync, R: Wait>(
    rt: &R,
    lock: &TableLock<Desk<W, L>>,
    mut seat: LockSeat<Desk<W, L>>,
    gate: &G,
    worker: u32,
) -> LockSeat<Desk<W, L>>
    requires { IsSeatOf lock.now seat × (has_taken seat ≡ false) }
    ensures of { IsSeatOf lock.now result × (has_taken result ≡ false) × (parts result ≡ parts seat) }
    ensures seen { IsPrefix (seen seat) (seen result) }
{
    let mut point = 0u32;
    for _ in rt.forever() {
        gate.pass(worker, point);
        match step_under_lock(rt, lock, &mut seat) {
            StepOutcome::Event(progress) => {
                tell_progress(gate, progress);
                point = point.saturating_add(1);
            }
            StepOutcome::Idle => thread::yield_now(),
            StepOutcome::Finished => break,
        }
    }
    seat
}

/// So many workers, numbered from `first` on, each with a part of the seat: all but the last on threads of their own. Where
/// no thread can be made for one, the caller runs it.
pub fn run_workers<W: Driven<L> + Send, L: Drop + Send, G: Gate + Sync, R: Threads + Wait + Sync>(
    rt: &R,
    lock: &TableLock<Desk<W, L>>,
    seat: LockSeat<Desk<W, L>>,
    gate: &G,
    first: u32,
    count: u32,
) -> LockSeat<Desk<W, L>>
    requires of { IsSeatOf lock.now seat × (has_taken seat ≡ false) }
    requires room { (0 < count) × (count ≤ parts seat) × (first + count < 2 ^ 32) }
    ensures of { IsSeatOf lock.now result × (has_taken result ≡ false) × (parts result ≡ parts seat) }
    ensures seen { IsPrefix (seen seat) (seen result) }
{
    if count == 1 {
        return run_worker(rt, lock, seat, gate, first);
    }
    let mut rest = seat;
    let own = lock.split(&mut rest);
    let (own, mut seat) = join(
        rt,
        || -> LockSeat<Desk<W, L>>
            requires { IsSync R.row × IsSync G.row × IsSend W.row × IsSend L.row × IsSeatOf lock.now own × (has_taken own ≡ false) }
            ensures { IsSeatOf lock.entry.now result × (has_taken result ≡ false) × (parts result ≡ parts own) × IsPrefix (seen own) (seen result) }
        { run_worker(rt, lock, own, gate, first) },
        || -> LockSeat<Desk<W, L>>
            requires { IsSync R.row × IsSync G.row × IsSend W.row × IsSend L.row × IsSeatOf lock.now rest × (has_taken rest ≡ false) × (1 < count) × (count ≤ parts rest + 1) × (first + count < 2 ^ 32) }
            ensures { IsSeatOf lock.entry.now result × (has_taken result ≡ false) × (parts result ≡ parts rest) × IsPrefix (seen rest) (seen result) }
        { run_workers(rt, lock, rest, gate, first + 1, count - 1) },
    );
    lock.join(&mut seat, own);
    seat
}
