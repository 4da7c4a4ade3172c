//! Reading a source to its end.
ghost use Rattle.std.specs.Prelude.{◌≡◌, ◌≤◌, ◌<◌, length, Some, [], IfOk, IfSome, OnOk, IsErrOf};
ghost use Rattle.byte_streams.specs.Streams.{HasRisen};

use crate::{Failed, Source};
use sector_base::Text;
use std::alloc::{AllocError, Global};

/// The most bytes that a source gives.
const MOST_BYTES: usize = 16_777_216;

/// Why a source wasn't read to its end.
#[derive(Clone, Copy, Debug, PartialEq, Eq)]
pub enum ReadFault {
    /// Memory was wanting.
    NoMemory,
    /// A read failed.
    Failed,
    /// It gives more than 16,777,216 bytes.
    ScriptTooLong,
}

impl From<AllocError> for ReadFault {
    ghost use Rattle.byte_streams.specs.declared.source_text.ReadFault.TheVariants.{NoMemory};

    ghost from_gives = { λ _ fault. fault ≡ NoMemory };

    fn from(_: AllocError) -> ReadFault {
        ReadFault::NoMemory
    }
}

impl From<Failed> for ReadFault {
    ghost use Rattle.byte_streams.specs.declared.source_text.ReadFault.TheVariants as kinds;

    ghost from_gives = { λ _ fault. fault ≡ kinds.Failed };

    fn from(_: Failed) -> ReadFault {
        ReadFault::Failed
    }
}

/// All bytes that are left of the source.
///
/// # Errors
///
/// - `Failed` only where the source's count of faults has risen in this call.
/// - `ScriptTooLong` exactly where it gives more than 16,777,216 bytes.
/// - `NoMemory` where memory is wanting.
pub fn read_all<R: Source>(alloc: Global, from: &mut R) -> Result<Text, ReadFault>
    ensures text { IfOk result (λ text. (length text ≤ 16777216) × IfSome (R.left from.old) (λ bytes. text ≡ bytes)) }
    ensures ended { OnOk result (IfSome (R.left from.new) (λ rest. rest ≡ [])) }
    ensures unfaulted { OnOk result (R.fault_count from.new ≡ R.fault_count from.old) }
    ensures long { IsErrOf result ReadFault.ScriptTooLong → IfSome (R.left from.old) (λ bytes. 16777216 < length bytes) }
    ensures failed { IsErrOf result ReadFault.Failed → HasRisen (R.fault_count from.old) (R.fault_count from.new) }
{
    let mut text = Vec::new(alloc);
    let mut piece = [0; 4096];
    while text.len() <= MOST_BYTES {
        let count = from.read(&mut piece)?;
        if count == 0 {
            return Ok(Text::from_vec(text));
        }
        text.extend_from_slice(&piece[..count])?;
    }
    Err(ReadFault::ScriptTooLong)
}
