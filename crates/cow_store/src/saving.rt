//! What a chunk held is saved in a slot, before its first sector is written.
ghost use Rattle.std.specs.Prelude.{◌≡◌, ◌≤◌, ◌<◌, ◌-◌, ◌*◌, ◌^◌, length, min, is_ok, IfErr};
ghost use Rattle.disk_model.specs.Since.{BetweenRecords};
ghost use Rattle.cow_store.specs.Layout.{lengths_of, slot_start, slots_in};
ghost use Rattle.cow_store.specs.Writing.{CopiesChunk, CopiesSectors, HasFault, PutsEntry, SavesChunk, Spends};

use crate::Vols;
use crate::layout::{CHUNK_SECTORS, ORIGIN, STORE, entry_sector_of, put_entry, slot_start_of};
use crate::vol_ops::{VolumeFault, flush_volume, read_sector, write_sector};

/// How many operations a call that sets a sector may need: 16 copy a chunk and one flushes it, three put the entry, and one
/// writes the sector.
pub(crate) const SET_OPS: u64 = 21;

/// Copies the chunk to the slot of so many, makes the copy lasting, and then puts the entry of the slot and makes that lasting.
pub(crate) fn save_chunk<V: Vols>(
    vols: &mut V,
    slots: u64,
    chunk: u64,
    slot: u64,
) -> Result<(), VolumeFault>
    requires volumes { 2 ≤ length (V.state vols.old).sizes }
    requires fits { (lengths_of (V.state vols.old).sizes).store < 2 ^ 64 }
    requires slots { slots ≡ slots_in (lengths_of (V.state vols.old).sizes).store }
    requires slot { slot < slots }
    requires chunk { 8 * chunk < (lengths_of (V.state vols.old).sizes).origin }
    requires spare { 20 ≤ (V.state vols.old).spare }
    ensures spends { Spends (V.state vols.old) 20 (V.state vols.new) }
    ensures fault { IfErr result (λ fault. HasFault (V.state vols.old) fault.volume (V.state vols.new)) }
    ensures told { BetweenRecords (SavesChunk (lengths_of (V.state vols.old).sizes) chunk slot (is_ok result)) (V.state vols.old).told (V.state vols.new).told }
{
    copy_chunk(vols, slots, chunk, slot)?;
    put_chunk_entry(vols, chunk, slot)
}

// Copies the chunk to the slot of so many, and makes the copy lasting.
fn copy_chunk<V: Vols>(vols: &mut V, slots: u64, chunk: u64, slot: u64) -> Result<(), VolumeFault>
    requires volumes { 2 ≤ length (V.state vols.old).sizes }
    requires fits { (lengths_of (V.state vols.old).sizes).store < 2 ^ 64 }
    requires slots { slots ≡ slots_in (lengths_of (V.state vols.old).sizes).store }
    requires slot { slot < slots }
    requires chunk { 8 * chunk < (lengths_of (V.state vols.old).sizes).origin }
    requires spare { 17 ≤ (V.state vols.old).spare }
    ensures spends { Spends (V.state vols.old) 17 (V.state vols.new) }
    ensures fault { IfErr result (λ fault. HasFault (V.state vols.old) fault.volume (V.state vols.new)) }
    ensures told { let lengths = lengths_of (V.state vols.old).sizes in BetweenRecords
        (CopiesChunk lengths (8 * chunk) (slot_start slots slot) (min 8 (lengths.origin - 8 * chunk)) (is_ok result))
        (V.state vols.old).told (V.state vols.new).told }
{
    let length = vols.sectors(ORIGIN);
    let from = CHUNK_SECTORS * chunk;
    let to = slot_start_of(slots, slot);
    let count = CHUNK_SECTORS.min(length - from);
    for k in 0..count {
        copy_sector(vols, from + k, to + k)?;
    }
    flush_volume(vols, STORE) // The copy lasts before its entry is put.
}

// Copies a sector of the origin to one of the store.
fn copy_sector<V: Vols>(vols: &mut V, from: u64, to: u64) -> Result<(), VolumeFault>
    requires volumes { 2 ≤ length (V.state vols.old).sizes }
    requires from { from < (lengths_of (V.state vols.old).sizes).origin }
    requires to { to < (lengths_of (V.state vols.old).sizes).store }
    requires spare { 2 ≤ (V.state vols.old).spare }
    ensures spends { Spends (V.state vols.old) 2 (V.state vols.new) }
    ensures fault { IfErr result (λ fault. HasFault (V.state vols.old) fault.volume (V.state vols.new)) }
    ensures told { BetweenRecords (CopiesSectors (lengths_of (V.state vols.old).sizes) from to 1 (is_ok result)) (V.state vols.old).told (V.state vols.new).told }
{
    let sector = read_sector(vols, ORIGIN, from)?;
    write_sector(vols, STORE, to, &sector)
}

// Puts the chunk into the entry of the slot, and makes that lasting.
fn put_chunk_entry<V: Vols>(vols: &mut V, chunk: u64, slot: u64) -> Result<(), VolumeFault>
    requires volumes { 2 ≤ length (V.state vols.old).sizes }
    requires fits { (lengths_of (V.state vols.old).sizes).store < 2 ^ 64 }
    requires slot { slot < slots_in (lengths_of (V.state vols.old).sizes).store }
    requires chunk { 8 * chunk < (lengths_of (V.state vols.old).sizes).origin }
    requires spare { 3 ≤ (V.state vols.old).spare }
    ensures spends { Spends (V.state vols.old) 3 (V.state vols.new) }
    ensures fault { IfErr result (λ fault. HasFault (V.state vols.old) fault.volume (V.state vols.new)) }
    ensures told { BetweenRecords (PutsEntry (lengths_of (V.state vols.old).sizes) chunk slot (is_ok result)) (V.state vols.old).told (V.state vols.new).told }
{
    let at = entry_sector_of(slot);
    let _length = vols.sectors(ORIGIN);
    let mut sector = read_sector(vols, STORE, at)?;
    let _bytes = sector.as_bytes();
    put_entry(&mut sector, slot, chunk);
    write_sector(vols, STORE, at, &sector)?;
    flush_volume(vols, STORE) // The entry lasts before the origin is written.
}
