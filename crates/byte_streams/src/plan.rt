//! The calls of a stream in memory, and which of them fail.
ghost use Rattle.std.specs.Prelude.{◌<◌, ◌^◌, ◌↔◌, IsTrue};

/// Which calls are to fail, numbered from 0, how many calls there were, and how many failed.
#[derive(Debug, Drop)]
pub struct Plan {
    pub fails: Vec<u64>,
    pub calls: u64,
    pub faults: u64,
    ghost counted: { faults < 2 ^ 64 },
}

impl Plan {
    ghost use Rattle.byte_streams.specs.Memory.{FailsNext, IsFresh, CountsCall};

    /// No call yet, and these are to fail.
    pub fn new(fails: Vec<u64>) -> Self
        ensures { IsFresh result fails.items }
    {
        Plan {
            fails,
            calls: 0,
            faults: 0,
        }
    }

    /// Whether the next call is to fail.
    pub fn fails_next(&self) -> bool
        ensures { IsTrue result ↔ FailsNext self.now }
    {
        self.fails.contains(&self.calls)
    }

    /// Counts a call, and a fault where it failed.
    pub fn count(&mut self, failed: bool)
        ensures { CountsCall self.old failed self.new }
    {
        self.calls = self.calls.saturating_add(1);
        if failed {
            self.faults = self.faults.saturating_add(1);
        }
    }
}
