//! A source in memory.
ghost use Rattle.std.specs.Prelude.{◌≡◌, ◌≤◌, ◌<◌, ◌↔◌, min, length, vec_len, Some, IfOk, OnErr, OnOk, IsErr, is_err};

use crate::plan::Plan;
use crate::{Failed, Source};

/// Bytes in memory, and the calls of `read` that are to fail. Everything of it is told.
#[derive(Debug, Drop)]
pub struct MemSource {
    bytes: Vec<u8>,
    at: usize,
    plan: Plan,
    ghost within: { at ≤ vec_len bytes },
}

impl MemSource {
    ghost use Rattle.byte_streams.specs.Memory.{IsFresh, left_of};

    /// These bytes. The calls of `read` with these numbers, counted from 0, are to fail.
    pub fn new(bytes: Vec<u8>, fails: Vec<u64>) -> Self
        ensures left { left_of result ≡ bytes.items }
        ensures plan { IsFresh result.plan fails.items }
    {
        MemSource {
            bytes,
            at: 0,
            plan: Plan::new(fails),
        }
    }
}

impl Source for MemSource {
    ghost use Rattle.byte_streams.specs.Memory.{FailsNext, CountsCall, left_of};
    ghost use Rattle.byte_streams.specs.Streams.{HasRisen, Reads};

    ghost left = { λ source. Some (left_of source) };

    ghost fault_count = { λ source. source.plan.faults };

    ghost counted = { λ source. source.plan.counted };

    fn read(&mut self, into: &mut [u8]) -> Result<usize, Failed>
        ensures ok { IfOk result (λ n. Reads (Some (left_of self.old)) into.old n into.new (Some (left_of self.new))) }
        ensures failed { OnErr result (left_of self.new ≡ left_of self.old) }
        ensures unfaulted { OnOk result (self.new.plan.faults ≡ self.old.plan.faults) }
        ensures faulty { OnErr result (HasRisen self.old.plan.faults self.new.plan.faults) }
        ensures never_falls { self.old.plan.faults ≤ self.new.plan.faults }
        ensures planned { IsErr result ↔ FailsNext self.old.plan }
        ensures most { IfOk result (λ n. n ≡ min (length into.old) (length (left_of self.old))) }
        ensures plan { CountsCall self.old.plan (is_err result) self.new.plan }
    {
        let failed = self.plan.fails_next();
        self.plan.count(failed);
        if failed {
            return Err(Failed);
        }
        let n = into.len().min(self.bytes.len() - self.at);
        into[..n].copy_from_slice(&self.bytes[self.at..self.at + n]);
        self.at += n;
        Ok(n)
    }

    fn faults(&self) -> u64 {
        self.plan.faults
    }
}
