//! A snapshot is taken: what is written for it.
ghost use Rattle.std.specs.Prelude.{◌≡◌, ◌≤◌, ◌<◌, ◌+◌, ◌^◌, length, replicate, is_ok, slice_index_or, IfErr, MatchResult, OnOk};
ghost use Rattle.disk_model.specs.Since.{BetweenRecords};
ghost use Rattle.cow_store.specs.Answers.{RefusesTake};
ghost use Rattle.cow_store.specs.Beginning.{Takes};
ghost use Rattle.cow_store.specs.Layout.{lengths_of, slots_in, table_sectors};
ghost use Rattle.cow_store.specs.Writing.{ClearsTable, HasFault, Spends};

use crate::chunk_table::ChunkTable;
use crate::layout::{LEAST_STORE, ORIGIN, STORE, new_head, slots_for, table_sectors_of};
use crate::vol_ops::{VolumeFault, flush_volume, put_sector, write_sector};
use crate::{CowRefusal, Vols};
use sector_base::Bytes512;
use std::alloc::Global;

/// A table with the slots that the store has room for, all free.
///
/// # Errors
///
/// `StoreTooSmall` exactly where the store has fewer than ten sectors, and where memory is wanting.
pub(crate) fn room_for<V: Vols>(alloc: Global, vols: &V) -> Result<ChunkTable, CowRefusal>
    requires { 2 ≤ length (V.state vols.now).sizes }
    ensures { MatchResult result
        (λ table. (10 ≤ (lengths_of (V.state vols.now).sizes).store) × ((lengths_of (V.state vols.now).sizes).store < 2 ^ 64) × (table ≡ replicate (slots_in (lengths_of (V.state vols.now).sizes).store) 0))
        (λ why. RefusesTake (V.state vols.now) why (V.state vols.now)) }
{
    let have = vols.sectors(STORE);
    if have < LEAST_STORE {
        return Err(CowRefusal::StoreTooSmall {
            need: LEAST_STORE,
            have,
        });
    }
    Ok(ChunkTable::new(alloc, slots_for(have))?)
}

/// Takes a snapshot: the origin is flushed, and an empty store is written.
pub(crate) fn take_store<V: Vols>(alloc: Global, vols: &mut V) -> Result<ChunkTable, CowRefusal>
    requires { 2 ≤ length (V.state vols.old).sizes }
    ensures sizes { (V.state vols.new).sizes ≡ (V.state vols.old).sizes }
    ensures refused { MatchResult result
        (λ table. (10 ≤ (lengths_of (V.state vols.old).sizes).store) × ((lengths_of (V.state vols.old).sizes).store < 2 ^ 64) × (table ≡ replicate (slots_in (lengths_of (V.state vols.old).sizes).store) 0))
        (λ why. RefusesTake (V.state vols.old) why (V.state vols.new)) }
    ensures takes { OnOk result (BetweenRecords (Takes (lengths_of (V.state vols.old).sizes)) (V.state vols.old).told (V.state vols.new).told) }
{
    let table = room_for(alloc, vols)?;
    let tables = table_sectors_of(table.len());
    vols.reserve(tables + 6)?;
    write_store(vols, tables)?;
    Ok(table)
}

// Flushes the origin, clears the head and then the table, and writes the head.
fn write_store<V: Vols>(vols: &mut V, tables: u64) -> Result<(), VolumeFault>
    requires volumes { 2 ≤ length (V.state vols.old).sizes }
    requires large { 10 ≤ (lengths_of (V.state vols.old).sizes).store }
    requires fits { (lengths_of (V.state vols.old).sizes).store < 2 ^ 64 }
    requires tables { tables ≡ table_sectors (slots_in (lengths_of (V.state vols.old).sizes).store) }
    requires spare { tables + 6 ≤ (V.state vols.old).spare }
    ensures spends { Spends (V.state vols.old) (tables + 6) (V.state vols.new) }
    ensures fault { IfErr result (λ fault. HasFault (V.state vols.old) fault.volume (V.state vols.new)) }
    ensures takes { OnOk result (BetweenRecords (Takes (lengths_of (V.state vols.old).sizes)) (V.state vols.old).told (V.state vols.new).told) }
{
    flush_volume(vols, ORIGIN)?;
    put_sector(vols, 0, &Bytes512::zeroed())?;
    clear_table(vols, tables)?;
    let head = new_head(vols.sectors(ORIGIN));
    put_sector(vols, 0, &head)
}

// Clears the table of so many sectors, and makes that lasting.
fn clear_table<V: Vols>(vols: &mut V, tables: u64) -> Result<(), VolumeFault>
    requires volumes { 2 ≤ length (V.state vols.old).sizes }
    requires within { tables < slice_index_or (V.state vols.old).sizes 1 0 }
    requires spare { tables + 1 ≤ (V.state vols.old).spare }
    ensures spends { Spends (V.state vols.old) (tables + 1) (V.state vols.new) }
    ensures fault { IfErr result (λ fault. HasFault (V.state vols.old) fault.volume (V.state vols.new)) }
    ensures told { BetweenRecords (ClearsTable tables (is_ok result)) (V.state vols.old).told (V.state vols.new).told }
{
    let zeros = Bytes512::zeroed();
    for k in 0..tables {
        write_sector(vols, STORE, 1 + k, &zeros)?;
    }
    flush_volume(vols, STORE)
}
