//! Where a text is written.
ghost use Rattle.std.specs.Prelude.{◌≡◌, ℕ, List, ◌++◌, length, min, ◌+◌, ◌^◌, ◌≤◌, IfOk, OnErr};
ghost use Rattle.conf_text.specs.Sinks.{SinkLaws, CountsTo, Follows, follows_laws, counted_laws};

use std::alloc::AllocError;
use std::marker::Model;

/// Takes the bytes of a text.
pub trait TextSink {
    ghost Adds: { Self → List ℕ → Self → Type 0 };

    ghost MayFail: { Type 0 };

    ghost laws: { SinkLaws Adds };

    /// Adds these bytes.
    ///
    /// # Errors
    ///
    /// `AllocError` where memory is wanting, which some sinks don't take.
    fn push(&mut self, bytes: &[u8]) -> Result<(), AllocError>
        ensures added { IfOk result (λ _. Adds self.old bytes.now self.new) }
        ensures failed { OnErr result MayFail };
}

impl TextSink for Vec<u8> {
    ghost Adds = { Follows (λ v. v.items) };

    ghost MayFail = { Unit {0} };

    ghost laws = { follows_laws (λ v. v.items) };

    fn push(&mut self, bytes: &[u8]) -> Result<(), AllocError> {
        self.extend_from_slice(bytes)
    }
}

// Where counting stops.
const MOST_BYTES: u64 = 1 << 62;

/// Counts the bytes of a text, to at most 2^62. It takes no memory and never fails. Contracts see the count.
#[derive(Debug, Drop)]
pub struct CountedBytes {
    count: u64,
}

impl Model for CountedBytes {
    ghost Value = { ℕ };

    ghost view = { λ counted. counted.count };
}

impl CountedBytes {
    /// No bytes so far.
    pub fn new() -> Self
        ensures { result ≡ 0 }
    {
        CountedBytes { count: 0 }
    }

    /// How many bytes there were.
    pub fn count(&self) -> u64
        ensures { result ≡ self.now }
    {
        self.count
    }
}

impl TextSink for CountedBytes {
    ghost Adds = { CountsTo };

    ghost MayFail = { ⊥ };

    ghost laws = { counted_laws };

    fn push(&mut self, bytes: &[u8]) -> Result<(), AllocError> {
        self.count = self
            .count
            .saturating_add(bytes.len() as u64)
            .min(MOST_BYTES);
        Ok(())
    }
}
