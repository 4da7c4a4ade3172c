//! Standard input and output as streams that tell no bytes.
ghost use Rattle.std.specs.Prelude.{◌≡◌, ◌<◌, ◌^◌, None, ℕ, List};

use crate::answering::{answer, read_some, write_some};
use byte_streams::{Failed, Sink, Source};
use std::io::{BufRead, Input, Print, Read};

/// What comes from a reader, such as standard input. Each error of the reader is a fault, but for an interrupted read, which
/// is tried again.
#[derive(Drop)]
pub struct StdSource<I> {
    input: I,
    faults: u64,
    ghost counted: { faults < 2 ^ 64 },
}

impl<I: BufRead + Drop> StdSource<I> {
    /// Standard input. Where it is closed every read fails.
    pub fn new<R: Input<Reader = I>>(rt: &R) -> Self
        ensures { ⟦<StdSource<I> as Source>⟧.fault_count result ≡ 0 }
    {
        StdSource {
            input: rt.reader(),
            faults: 0,
        }
    }
}

impl<I: Read> Source for StdSource<I> {
    ghost left = { λ _. None };

    ghost fault_count = { λ source. source.faults };

    ghost counted = { λ source. source.counted };

    fn read(&mut self, into: &mut [u8]) -> Result<usize, Failed> {
        answer(read_some(&mut self.input, into), &mut self.faults)
    }

    fn faults(&self) -> u64 {
        self.faults
    }
}

/// What goes to standard output. Each error of a write is a fault, but for an interrupted write, which is tried again; and so
/// is a write that takes nothing of a piece that isn't empty. Nothing is buffered: what a write answers has been handed to the
/// operating system.
#[derive(Drop)]
pub struct StdSink<R> {
    rt: R,
    faults: u64,
    ghost counted: { faults < 2 ^ 64 },
}

impl<R: Print> StdSink<R> {
    /// The standard output of this runtime. Where it is closed every write of a piece that isn't empty fails.
    pub fn new(rt: R) -> Self
        ensures { ⟦<StdSink<R> as Sink>⟧.fault_count result ≡ 0 }
    {
        StdSink { rt, faults: 0 }
    }
}

impl<R: Print> Sink for StdSink<R> {
    ghost written = { λ _. None };

    ghost fault_count = { λ sink. sink.faults };

    ghost counted = { λ sink. sink.counted };

    fn write(&mut self, from: &[u8]) -> Result<usize, Failed> {
        answer(write_some(&self.rt, from), &mut self.faults)
    }

    fn faults(&self) -> u64 {
        self.faults
    }
}

#[cfg(test)]
mod tests;
