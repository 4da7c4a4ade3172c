//! What bytes go to.
ghost use Rattle.std.specs.Prelude.{◌≡◌, ◌≤◌, ◌<◌, ◌^◌, ℕ, List, Option, OnErr, OnOk, IfOk};
ghost use Rattle.byte_streams.specs.Streams.{HasRisen, Writes};

use crate::Failed;

/// Takes bytes, and counts its faults.
pub trait Sink {
    /// The bytes written, where they are told. Whether they are told never changes.
    ghost written: { Self → Option (List ℕ) };
    /// How many faults there were, up to 2^64 - 1.
    ghost fault_count: { Self → ℕ };

    /// Writes bytes from the front of `from`, and answers how many they are: at least one where `from` isn't empty.
    ///
    /// # Errors
    ///
    /// `Failed` exactly where the count of faults has risen in this call. Then the bytes written are as before.
    fn write(&mut self, from: &[u8]) -> Result<usize, Failed>
        ensures ok { IfOk result (λ n. Writes (written self.old) from.now n (written self.new)) }
        ensures failed { OnErr result (written self.new ≡ written self.old) }
        ensures unfaulted { OnOk result (fault_count self.new ≡ fault_count self.old) }
        ensures faulty { OnErr result (HasRisen (fault_count self.old) (fault_count self.new)) }
        ensures never_falls { fault_count self.old ≤ fault_count self.new };

    /// How many faults there were; the count stands still at 2^64 - 1.
    fn faults(&self) -> u64
        ensures { result ≡ fault_count self.now };

    ghost counted: { (sink : Self) → fault_count sink < 2 ^ 64 };
}
