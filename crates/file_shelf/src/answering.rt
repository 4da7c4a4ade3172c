//! What a stream answers to the system's results.
ghost use Rattle.std.specs.Prelude.{◌≡◌, ◌≢◌, ◌≤◌, ◌<◌, ℕ, length, Ok, IfOk, IfErr, IsErrAnd};
ghost use Rattle.std.specs.IoError.{error_kind};
ghost use Rattle.file_shelf.specs.Answering.{answer_to, faults_after};

use crate::trying::unless_interrupted;
use byte_streams::Failed;
use std::io;
use std::io::{ErrorKind, Print, Read};

/// The answer of a stream to this result of the system. An error is `Failed`, and one fault more; the count stands still at
/// its end.
pub fn answer(told: io::Result<usize>, faults: &mut u64) -> Result<usize, Failed>
    ensures answer { result ≡ answer_to told }
    ensures faults { faults.new ≡ faults_after told faults.old }
{
    match told {
        Ok(n) => Ok(n),
        Err(_) => {
            *faults = faults.saturating_add(1);
            Err(Failed)
        }
    }
}

/// Reads from the input, and tries again where a signal interrupts it.
pub fn read_some<I: Read>(input: &mut I, into: &mut [u8]) -> io::Result<usize>
    ensures within { IfOk result (λ n. n ≤ length into.old) }
    ensures interrupted { IfErr result (λ e. error_kind e ≢ ErrorKind.Interrupted) }
{
    for _ in 0..u64::MAX {
        if let Some(told) = unless_interrupted(input.read(into)) {
            return told;
        }
    }
    Err(io::Error::from(ErrorKind::TimedOut))
}

// What came of a write of so many bytes. To take nothing of a piece that isn't empty is an error.
fn taken(told: io::Result<usize>, length: usize) -> io::Result<usize>
    ensures nothing { told ≡ Ok 0 → 0 < length → IsErrAnd result (λ e. error_kind e ≡ ErrorKind.WriteZero) }
    ensures told { (told ≡ Ok 0 → length ≡ 0) → result ≡ told }
{
    match told {
        Ok(0) if length > 0 => Err(io::Error::from(ErrorKind::WriteZero)),
        told => told,
    }
}

/// Writes to the output, and tries again where a signal interrupts it. To take nothing of a piece that isn't empty is an
/// error.
pub fn write_some<R: Print>(rt: &R, from: &[u8]) -> io::Result<usize>
    ensures within { IfOk result (λ n. n ≤ length from.now) }
    ensures some { IfOk result (λ n. 0 < length from.now → 0 < n) }
    ensures interrupted { IfErr result (λ e. error_kind e ≢ ErrorKind.Interrupted) }
{
    for _ in 0..u64::MAX {
        if let Some(told) = unless_interrupted(rt.write_some(from)) {
            return taken(told, from.len());
        }
    }
    Err(io::Error::from(ErrorKind::TimedOut))
}
