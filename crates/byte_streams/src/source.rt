//! What bytes come from.
ghost use Rattle.std.specs.Prelude.{◌≡◌, ◌≤◌, ◌<◌, ◌^◌, ℕ, List, Option, OnErr, OnOk, IfOk};
ghost use Rattle.byte_streams.specs.Streams.{HasRisen, Reads};

use crate::Failed;

/// Gives bytes, and counts its faults.
pub trait Source {
    /// The bytes that are left, where they are told. Whether they are told never changes.
    ghost left: { Self → Option (List ℕ) };
    /// How many faults there were, up to 2^64 - 1.
    ghost fault_count: { Self → ℕ };

    /// Reads the next bytes into the front of `into`, and answers how many they are. It answers 0 for a piece that isn't
    /// empty exactly where no bytes are left.
    ///
    /// # Errors
    ///
    /// `Failed` exactly where the count of faults has risen in this call. Then the bytes left are as before.
    fn read(&mut self, into: &mut [u8]) -> Result<usize, Failed>
        ensures ok { IfOk result (λ n. Reads (left self.old) into.old n into.new (left self.new)) }
        ensures failed { OnErr result (left self.new ≡ left self.old) }
        ensures unfaulted { OnOk result (fault_count self.new ≡ fault_count self.old) }
        ensures faulty { OnErr result (HasRisen (fault_count self.old) (fault_count self.new)) }
        ensures never_falls { fault_count self.old ≤ fault_count self.new };

    /// How many faults there were; the count stands still at 2^64 - 1.
    fn faults(&self) -> u64
        ensures { result ≡ fault_count self.now };

    ghost counted: { (source : Self) → fault_count source < 2 ^ 64 };
}
