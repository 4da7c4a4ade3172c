//! A sink in memory.
ghost use Rattle.std.specs.Prelude.{◌≡◌, ◌≤◌, ◌<◌, ◌⊎◌, ◌↔◌, [], min, length, Some, IfOk, OnErr, OnOk, IsErr, is_err};

use crate::plan::Plan;
use crate::{Failed, Sink};
use std::alloc::{AllocError, Global};

/// Keeps the bytes written in memory that was taken at the start, and has the calls of `write` that are to fail.
/// Everything of it is told.
#[derive(Debug, Drop)]
pub struct MemSink {
    bytes: Vec<u8>,
    plan: Plan,
}

impl MemSink {
    ghost use Rattle.byte_streams.specs.Memory.{IsFresh, room_of};

    /// An empty sink with room for so many bytes. The calls of `write` with these numbers, counted from 0, are to fail,
    /// and so is each call for a piece that isn't empty once the sink is full. Only memory can be wanting.
    pub fn new(alloc: Global, capacity: usize, fails: Vec<u64>) -> Result<Self, AllocError>
        ensures empty { IfOk result (λ sink. sink.bytes.items ≡ []) }
        ensures room { IfOk result (λ sink. room_of sink ≡ capacity) }
        ensures plan { IfOk result (λ sink. IsFresh sink.plan fails.items) }
    {
        Ok(MemSink {
            bytes: Vec::with_capacity(alloc, capacity)?,
            plan: Plan::new(fails),
        })
    }

    /// The bytes written.
    pub fn bytes(&self) -> &[u8]
        ensures { result.now ≡ self.now.bytes.items }
    {
        &self.bytes
    }
}

impl Sink for MemSink {
    ghost use Rattle.byte_streams.specs.Memory.{FailsNext, CountsCall, room_of};
    ghost use Rattle.byte_streams.specs.Streams.{HasRisen, Writes};

    ghost written = { λ sink. Some sink.bytes.items };

    ghost fault_count = { λ sink. sink.plan.faults };

    ghost counted = { λ sink. sink.plan.counted };

    fn write(&mut self, from: &[u8]) -> Result<usize, Failed>
        ensures ok { IfOk result (λ n. Writes (Some self.old.bytes.items) from.now n (Some self.new.bytes.items)) }
        ensures failed { OnErr result (self.new.bytes ≡ self.old.bytes) }
        ensures unfaulted { OnOk result (self.new.plan.faults ≡ self.old.plan.faults) }
        ensures faulty { OnErr result (HasRisen self.old.plan.faults self.new.plan.faults) }
        ensures never_falls { self.old.plan.faults ≤ self.new.plan.faults }
        ensures planned { IsErr result ↔ (FailsNext self.old.plan ⊎ ((room_of self.old ≡ 0) × (0 < length from.now))) }
        ensures most { IfOk result (λ n. n ≡ min (length from.now) (room_of self.old)) }
        ensures plan { CountsCall self.old.plan (is_err result) self.new.plan }
    {
        let n = from.len().min(self.bytes.capacity() - self.bytes.len());
        let failed = self.plan.fails_next() || (n == 0 && !from.is_empty());
        self.plan.count(failed);
        if failed {
            return Err(Failed);
        }
        self.bytes.extend_from_slice(&from[..n]).unwrap();
        Ok(n)
    }

    fn faults(&self) -> u64 {
        self.plan.faults
    }
}
