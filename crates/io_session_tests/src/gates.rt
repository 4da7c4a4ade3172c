//! Gates that count.
use std::sync::atomic::{AtomicU64, Ordering};
use std::thread;
use table_lock::Gate;

/// At a worker's first pass it waits until two have come.
#[derive(Drop)]
pub struct MeetingGate {
    came: AtomicU64,
    met: AtomicU64,
}

impl MeetingGate {
    pub fn new() -> Self {
        MeetingGate {
            came: AtomicU64::new(0),
            met: AtomicU64::new(0),
        }
    }

    /// How many workers met another one.
    pub fn met(&self) -> u64 {
        self.met.load(Ordering::SeqCst)
    }
}

impl Gate for MeetingGate {
    fn pass(&self, _worker: u32, point: u32) {
        if point > 0 {
            return;
        }
        self.came.fetch_add(1, Ordering::SeqCst);
        for _ in 0..1_000_000 {
            if self.came.load(Ordering::SeqCst) >= 2 {
                self.met.fetch_add(1, Ordering::SeqCst);
                return;
            }
            thread::yield_now();
        }
    }
}

/// Counts how often it was told of a move's progress, and keeps the last of it.
#[derive(Drop)]
pub struct ProgressGate {
    times: AtomicU64,
    last: AtomicU64,
}

impl ProgressGate {
    pub fn new() -> Self {
        ProgressGate {
            times: AtomicU64::new(0),
            last: AtomicU64::new(0),
        }
    }

    pub fn times(&self) -> u64 {
        self.times.load(Ordering::SeqCst)
    }

    pub fn last(&self) -> u64 {
        self.last.load(Ordering::SeqCst)
    }
}

impl Gate for ProgressGate {
    fn pass(&self, _worker: u32, _point: u32) {}

    fn moved(&self, done: u64, _all: u64) {
        self.times.fetch_add(1, Ordering::SeqCst);
        self.last.store(done, Ordering::SeqCst);
    }
}
