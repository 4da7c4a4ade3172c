//! The runs of a script.
ghost use Rattle.std.specs.Prelude.{◌≡◌, ◌≤◌, []};
ghost use Rattle.io_session.specs.Desks.{Continues};
ghost use Rattle.io_session.specs.Runs.{IsCarriedOut, IsCarriedOutFrom};

use crate::desk::Desk;
use crate::driven::Driven;
use crate::workers::run_workers;
use std::alloc::Global;
use std::collections::VecDeque;
use std::sync::Wait;
use std::thread::Threads;
use table_lock::{Gate, LockRefused};

/// The world after a run, and what wasn't begun.
#[derive(Drop)]
pub struct Run<W, L> {
    pub world: W,
    /// The line for which memory was wanted, where it was wanted for a line.
    pub refused: Option<L>,
    /// The lines of the script that come after it, and after those that were begun.
    pub rest: VecDeque<L>,
    /// Whether memory was wanted, for a line or for the commit of a move.
    pub wanted: bool,
}

/// Runs the lines of the script on this world, one event after another, and returns. The gate hears how far a move has come.
pub fn run_alone<W: Driven<L>, L: Drop, G: Gate>(
    world: W,
    script: VecDeque<L>,
    gate: &G,
) -> Run<W, L>
    requires { W.begun world ≡ [] }
    ensures { IsCarriedOut W.begun W.journal W.in_flight W.is_due W.is_done W.allows W.makes world script.items result }
{
    carry_out(Desk::new(world, script), gate)
}

/// The same by so many workers, each on a thread of its own as far as these can be made, and each passing the gate before
/// each of its steps. One worker is `run_alone`.
pub fn run_session<W: Driven<L> + Send, L: Drop + Send, G: Gate + Sync, R: Threads + Wait + Sync>(
    rt: &R,
    alloc: Global,
    world: W,
    script: VecDeque<L>,
    workers: u32,
    gate: &G,
) -> Run<W, L>
    requires begun { W.begun world ≡ [] }
    requires workers { (1 ≤ workers) × (workers ≤ 8) }
    ensures { IsCarriedOut W.begun W.journal W.in_flight W.is_due W.is_done W.allows W.makes world script.items result }
{
    if workers == 1 {
        return run_alone(world, script, gate);
    }
    let desk = run_under_lock(rt, alloc, Desk::new(world, script), workers, gate);
    carry_out(desk, gate)
}

// Puts the desk under a lock, from which so many workers take it until each finds it finished. Where there is no memory for
// a lock the desk stays as it is.
fn run_under_lock<W: Driven<L> + Send, L: Drop + Send, G: Gate + Sync, R: Threads + Wait + Sync>(
    rt: &R,
    alloc: Global,
    desk: Desk<W, L>,
    workers: u32,
    gate: &G,
) -> Desk<W, L>
    requires { (1 ≤ workers) × (workers ≤ 8) }
    ensures { Continues W.begun W.journal desk result }
{
    match table_lock::open(alloc, desk) {
        Ok((lock, seat)) => {
            let seat = run_workers(rt, &lock, seat, gate, 0, workers);
            lock.close(seat)
        }
        Err(LockRefused { value }) => value,
    }
}

// Finishes what was begun, and begins the lines that weren't, as far as there is memory.
fn carry_out<W: Driven<L>, L: Drop, G: Gate>(desk: Desk<W, L>, gate: &G) -> Run<W, L>
    ensures { IsCarriedOutFrom W.begun W.journal W.in_flight W.is_due W.is_done W.allows W.makes desk result }
{
    let mut desk = desk;
    while desk.advance(gate) {
        desk.begin_next();
    }
    let Desk {
        world,
        refused,
        rest,
        wanted,
        initial: _,
    } = desk;
    Run {
        world,
        refused,
        rest,
        wanted,
    }
}
