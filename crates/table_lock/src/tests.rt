//! A tally under a lock: by one seat, by two, and by eight threads.
ghost use Rattle.std.specs.Prelude.{◌≡◌, ◌+◌, ◌<◌, ◌≤◌, ◌^◌, false};
ghost use Rattle.std.specs.Thread.{IsSync};
ghost use mathlib.Core.List.{IsPrefix};
ghost use Rattle.table_lock.specs.Seats.{has_taken, parts, IsSeatOf};

use crate::{Gate, Grows, LockRefused, LockSeat, OpenGate, TableLock, open};
use std::alloc::Global;
use std::sync::Wait;
use std::test::Fail;
use std::thread::{Threads, join};

/// So often each thread takes the tally.
const TURNS: u32 = 100_000;

// Who wrote an entry, and how many it wrote before.
#[derive(Clone, Copy, Drop)]
struct LogEntry {
    worker: u32,
    number: u32,
}

// A book with a name, to which entries are added.
#[derive(Drop)]
struct Tally {
    name: u64,
    entries: Vec<LogEntry>,
}

impl Grows for Tally {
    type Origin = u64;

    type LogEntry = LogEntry;

    ghost origin = { λ t. t.name };

    ghost story = { λ t. t.entries.items };
}

impl Tally {
    // Adds an entry, where there is memory.
    fn write(&mut self, worker: u32, number: u32)
        ensures name { self.new.name ≡ self.old.name }
        ensures longer { IsPrefix self.old.entries.items self.new.entries.items }
    {
        let _ = self.entries.push(LogEntry { worker, number });
    }

    // How many entries in a row each worker wrote, counted from 0 on in the order of the tally.
    fn written(&self, worker: u32) -> u32 {
        let mut next = 0u32;
        for entry in &self.entries {
            if entry.worker == worker && entry.number == next && next < u32::MAX {
                next += 1;
            }
        }
        next
    }
}

fn empty_tally(alloc: Global) -> Tally {
    Tally {
        name: 7,
        entries: Vec::new(alloc),
    }
}

// Takes the tally so many times, adds an entry each time, and gives it back.
fn write_all<R: Wait>(
    rt: &R,
    lock: &TableLock<Tally>,
    mut seat: LockSeat<Tally>,
    worker: u32,
) -> LockSeat<Tally>
    requires { IsSeatOf lock.now seat × (has_taken seat ≡ false) }
    ensures { IsSeatOf lock.now result × (has_taken result ≡ false) × (parts result ≡ parts seat) }
{
    for number in 0..TURNS {
        let mut tally = lock.take(&mut seat, rt);
        tally.write(worker, number);
        lock.give(&mut seat, tally);
    }
    seat
}

// Each of the workers from this one on in a thread of its own, with one part each.
fn write_by_each<R: Threads + Wait + Sync>(
    rt: &R,
    lock: &TableLock<Tally>,
    seat: LockSeat<Tally>,
    worker: u32,
    workers: u32,
) -> LockSeat<Tally>
    requires of { IsSeatOf lock.now seat × (has_taken seat ≡ false) }
    requires room { (0 < workers) × (workers ≤ parts seat) × (worker + workers < 2 ^ 32) }
    ensures { IsSeatOf lock.now result × (has_taken result ≡ false) × (parts result ≡ parts seat) }
{
    if workers == 1 {
        return write_all(rt, lock, seat, worker);
    }
    let mut rest = seat;
    let own = lock.split(&mut rest);
    let (own, mut seat) = join(
        rt,
        || -> LockSeat<Tally>
            requires { IsSync R.row × IsSeatOf lock.now own × (has_taken own ≡ false) }
            ensures { IsSeatOf lock.entry.now result × (has_taken result ≡ false) × (parts result ≡ parts own) }
        { write_all(rt, lock, own, worker) },
        || -> LockSeat<Tally>
            requires { IsSync R.row × IsSeatOf lock.now rest × (has_taken rest ≡ false) × (1 < workers) × (workers ≤ parts rest + 1) × (worker + workers < 2 ^ 32) }
            ensures { IsSeatOf lock.entry.now result × (has_taken result ≡ false) × (parts result ≡ parts rest) }
        { write_by_each(rt, lock, rest, worker + 1, workers - 1) },
    );
    lock.join(&mut seat, own);
    seat
}

#[test]
fn eight_threads_lose_nothing(rt: HostRuntime) -> Result<(), Fail> {
    let Ok((lock, seat)) = open(rt.alloc(), empty_tally(rt.alloc())) else {
        panic!(rt; "no memory")
    };
    let seat = write_by_each(&rt, &lock, seat, 0, 8);
    let tally = lock.close(seat);
    assert_eq!(rt; tally.name, 7);
    assert_eq!(rt; tally.entries.len(), 800_000);
    for worker in 0..8u32 {
        assert_eq!(rt; tally.written(worker), TURNS);
    }
    Ok(())
}

#[test]
fn a_seat_misses_the_turn_while_another_has_it(rt: HostRuntime) -> Result<(), Fail> {
    let Ok((lock, mut one)) = open(rt.alloc(), empty_tally(rt.alloc())) else {
        panic!(rt; "no memory")
    };
    let mut other = lock.split(&mut one);
    let Some(mut tally) = lock.try_take(&mut one) else {
        panic!(rt; "the turn is free")
    };
    assert!(rt; lock.try_take(&mut other).is_none());
    assert!(rt; lock.try_take(&mut other).is_none());
    tally.write(0, 0);
    lock.give(&mut one, tally);
    let Some(mut tally) = lock.try_take(&mut other) else {
        panic!(rt; "the turn is free again")
    };
    assert_eq!(rt; tally.entries.len(), 1);
    tally.write(1, 0);
    assert!(rt; lock.try_take(&mut one).is_none());
    lock.give(&mut other, tally);
    let tally = lock.take(&mut one, &rt);
    assert_eq!(rt; tally.entries.len(), 2);
    lock.give(&mut one, tally);
    lock.join(&mut one, other);
    let tally = lock.close(one);
    assert!(rt; tally.written(0) == 1 && tally.written(1) == 1);
    Ok(())
}

#[test]
fn one_seat_takes_what_it_gave(rt: HostRuntime) -> Result<(), Fail> {
    match open(rt.alloc(), empty_tally(rt.alloc())) {
        Ok((lock, mut seat)) => {
            let mut tally = lock.take(&mut seat, &rt);
            tally.write(3, 0);
            lock.give(&mut seat, tally);
            let Some(tally) = lock.try_take(&mut seat) else {
                unreachable!()
            };
            assert_eq!(rt; tally.written(3), 1);
            lock.give(&mut seat, tally);
            assert_eq!(rt; lock.close(seat).name, 7);
        }
        Err(LockRefused { value }) => panic!(rt; "no memory for {}", value.name),
    }
    Ok(())
}

// Each of the points of a worker, one after another.
fn pass_all<G: Gate>(gate: &G, points: u32) {
    for point in 0..points {
        gate.pass(1, point);
    }
}

#[test]
fn the_open_gate_holds_nobody_up(_rt: HostRuntime) -> Result<(), Fail> {
    pass_all(&OpenGate, 1000);
    Ok(())
}
