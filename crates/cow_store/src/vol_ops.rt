//! One or two operations on the volumes of a store.
ghost use Rattle.std.specs.Prelude.{◌≡◌, ◌≤◌, ◌<◌, [], ◌∷◌, length, slice_index_or, is_ok, if◌then◌else◌, IfErr, IfOk, IfSome, OnOk};
ghost use Rattle.disk_model.specs.Puts.{one_sector};
ghost use Rattle.disk_model.specs.Since.{BetweenRecords, KeepsSectorsTold};
ghost use Rattle.disk_model.specs.Steps.{Flushing, Reading, Writing, now_after};
ghost use Rattle.cow_store.specs.Layout.{lengths_of};
ghost use Rattle.cow_store.specs.VolStates.{Operates};
ghost use Rattle.cow_store.specs.Writing.{FlushesBoth, HasFault, PutsSector, Spends, WritesNone};

use crate::Vols;
use crate::layout::{ORIGIN, STORE};
use sector_base::Bytes512;

/// An operation of this volume failed.
#[derive(Clone, Copy, Debug, Drop)]
pub struct VolumeFault {
    pub volume: u32,
}

/// The sector of the volume.
pub(crate) fn read_sector<V: Vols>(
    vols: &mut V,
    volume: u32,
    at: u64,
) -> Result<Bytes512, VolumeFault>
    requires volume { volume < length (V.state vols.old).sizes }
    requires sector { at < slice_index_or (V.state vols.old).sizes volume 0 }
    requires spare { 0 < (V.state vols.old).spare }
    ensures operates { Operates (V.state vols.old) (Reading (one_sector volume at)) (is_ok result) (V.state vols.new) }
    ensures value { IfOk result (λ sector. IfSome (V.state vols.old).told (λ told. sector ≡ now_after told.opened told.steps volume at)) }
    ensures fault { IfErr result (λ fault. fault.volume ≡ volume) }
{
    let mut sector = Bytes512::zeroed();
    match vols.read(volume, at, &mut sector) {
        Ok(()) => Ok(sector),
        Err(_) => Err(VolumeFault { volume }),
    }
}

/// Writes the sector of the volume.
pub(crate) fn write_sector<V: Vols>(
    vols: &mut V,
    volume: u32,
    at: u64,
    sector: &Bytes512,
) -> Result<(), VolumeFault>
    requires volume { volume < length (V.state vols.old).sizes }
    requires sector { at < slice_index_or (V.state vols.old).sizes volume 0 }
    requires spare { 0 < (V.state vols.old).spare }
    ensures operates { Operates (V.state vols.old) (Writing (one_sector volume at) (sector.now ∷ [])) (is_ok result) (V.state vols.new) }
    ensures fault { IfErr result (λ fault. fault.volume ≡ volume) }
{
    match vols.write(volume, at, sector) {
        Ok(()) => Ok(()),
        Err(_) => Err(VolumeFault { volume }),
    }
}

/// Flushes the volume.
pub(crate) fn flush_volume<V: Vols>(vols: &mut V, volume: u32) -> Result<(), VolumeFault>
    requires volume { volume < length (V.state vols.old).sizes }
    requires spare { 0 < (V.state vols.old).spare }
    ensures operates { Operates (V.state vols.old) (Flushing volume) (is_ok result) (V.state vols.new) }
    ensures fault { IfErr result (λ fault. fault.volume ≡ volume) }
{
    match vols.flush(volume) {
        Ok(()) => Ok(()),
        Err(_) => Err(VolumeFault { volume }),
    }
}

/// Writes a sector of the store and makes it lasting.
pub(crate) fn put_sector<V: Vols>(
    vols: &mut V,
    at: u64,
    sector: &Bytes512,
) -> Result<(), VolumeFault>
    requires volumes { 2 ≤ length (V.state vols.old).sizes }
    requires sector { at < slice_index_or (V.state vols.old).sizes 1 0 }
    requires spare { 2 ≤ (V.state vols.old).spare }
    ensures spends { Spends (V.state vols.old) 2 (V.state vols.new) }
    ensures fault { IfErr result (λ fault. HasFault (V.state vols.old) fault.volume (V.state vols.new)) }
    ensures told { BetweenRecords (PutsSector at sector.now (is_ok result)) (V.state vols.old).told (V.state vols.new).told }
{
    write_sector(vols, STORE, at, sector)?;
    flush_volume(vols, STORE)
}

/// Flushes both volumes.
pub(crate) fn flush_both<V: Vols>(vols: &mut V) -> Result<(), VolumeFault>
    requires volumes { 2 ≤ length (V.state vols.old).sizes }
    requires spare { 2 ≤ (V.state vols.old).spare }
    ensures spends { Spends (V.state vols.old) 2 (V.state vols.new) }
    ensures fault { IfErr result (λ fault. HasFault (V.state vols.old) fault.volume (V.state vols.new)) }
    ensures told { KeepsSectorsTold (V.state vols.old).told (if is_ok result then 0 ∷ 1 ∷ [] else []) (V.state vols.new).told }
    ensures stands { BetweenRecords (WritesNone (lengths_of (V.state vols.old).sizes) (is_ok result)) (V.state vols.old).told (V.state vols.new).told }
    ensures flushes { OnOk result (BetweenRecords FlushesBoth (V.state vols.old).told (V.state vols.new).told) }
{
    flush_volume(vols, ORIGIN)?;
    flush_volume(vols, STORE)
}
