//! Volumes whose operations are complete in their calls.
ghost use Rattle.std.specs.Prelude.{◌≡◌, ◌<◌, [], ◌∷◌, length, slice_index_or, is_ok, IfSome, OnErr, OnOk};
ghost use Rattle.disk_model.specs.Puts.{one_sector};
ghost use Rattle.disk_model.specs.Steps.{Flushing, Reading, Writing, now_after};
ghost use Rattle.cow_store.specs.VolStates.{AreLawful, Operates, Reserves, VolState};

use sector_base::Bytes512;
use std::alloc::AllocError;
use thiserror::Error;

/// An operation of a volume failed. It comes only in a call in which the volume's count of faults has risen.
#[derive(Clone, Copy, Debug, Drop, PartialEq, Eq, Error)]
#[error("the volume failed")]
pub struct Failed;

/// A row of volumes, numbered from 0, each a list of sectors. Each operation is complete in its call, and is told as a
/// step that submits it and one that completes it.
pub trait Vols {
    ghost state: { Self → VolState };

    /// How many volumes there are.
    fn count(&self) -> u32
        ensures { result ≡ length (state self.now).sizes };

    /// How many sectors the volume has.
    fn sectors(&self, v: u32) -> u64
        requires { v < length (state self.now).sizes }
        ensures { result ≡ slice_index_or (state self.now).sizes v 0 };

    /// How many operations of the volume have failed.
    fn faults(&self, v: u32) -> u64
        requires { v < length (state self.now).sizes }
        ensures { result ≡ (state self.now).faults v };

    /// Makes at least so many operations spare. Only memory can be wanting.
    fn reserve(&mut self, ops: u64) -> Result<(), AllocError>
        ensures ok { OnOk result (Reserves (state self.old) ops (state self.new)) }
        ensures err { OnErr result (state self.new ≡ state self.old) };

    /// Reads the sector into the buffer.
    fn read(&mut self, v: u32, at: u64, into: &mut Bytes512) -> Result<(), Failed>
        requires volume { v < length (state self.old).sizes }
        requires sector { at < slice_index_or (state self.old).sizes v 0 }
        requires spare { 0 < (state self.old).spare }
        ensures operates { Operates (state self.old) (Reading (one_sector v at)) (is_ok result) (state self.new) }
        ensures read { OnOk result (IfSome (state self.old).told (λ told. into.new ≡ now_after told.opened told.steps v at)) };

    /// Writes the sector. A crash may leave the old one or the new one, and after a failure a read too.
    fn write(&mut self, v: u32, at: u64, from: &Bytes512) -> Result<(), Failed>
        requires volume { v < length (state self.old).sizes }
        requires sector { at < slice_index_or (state self.old).sizes v 0 }
        requires spare { 0 < (state self.old).spare }
        ensures { Operates (state self.old) (Writing (one_sector v at) (from.now ∷ [])) (is_ok result) (state self.new) };

    /// Makes lasting what was written to the volume.
    fn flush(&mut self, v: u32) -> Result<(), Failed>
        requires volume { v < length (state self.old).sizes }
        requires spare { 0 < (state self.old).spare }
        ensures { Operates (state self.old) (Flushing v) (is_ok result) (state self.new) };

    ghost lawful: { (vols : Self) → AreLawful (state vols) };
}
