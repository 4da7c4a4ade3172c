//! A store is opened: what is read of it.
ghost use Rattle.std.specs.Prelude.{◌≡◌, ◌≤◌, ◌<◌, ◌+◌, ◌^◌, ◌%◌, ℕ, [], ◌∷◌, length, min, Some, None, IfSome, MatchResult};
ghost use Rattle.disk_model.specs.Since.{BetweenRecords, KeepsSectorsTold};
ghost use Rattle.disk_model.specs.Steps.{now_after};
ghost use Rattle.sector_base.specs.Fields.{field};
ghost use Rattle.cow_store.specs.Answers.{EndsReading, RefusesOpen};
ghost use Rattle.cow_store.specs.Beginning.{Opens, no_entries};
ghost use Rattle.cow_store.specs.Layout.{entry_place, lengths_of, slots_in, table_sectors};
ghost use Rattle.cow_store.specs.Opening.{opened_table, opens, refused_head};
ghost use Rattle.cow_store.specs.Reading.{IsFirstBad, IsReadTo};
ghost use Rattle.cow_store.specs.Snapshot.{entries_in};
ghost use Rattle.cow_store.specs.Writing.{Spends};

use crate::chunk_table::ChunkTable;
use crate::layout::{ORIGIN, SECTOR_ENTRIES, STORE, begins_like_head, chunks_of, table_sectors_of};
use crate::taking::room_for;
use crate::vol_ops::{flush_both, read_sector};
use crate::{CowRefusal, Vols};
use sector_base::{Bytes512, get_u64};
use std::alloc::Global;

/// Opens a store: both volumes are flushed, and the head and the table are read.
pub(crate) fn open_store<V: Vols>(alloc: Global, vols: &mut V) -> Result<ChunkTable, CowRefusal>
    requires { 2 ≤ length (V.state vols.old).sizes }
    ensures sizes { (V.state vols.new).sizes ≡ (V.state vols.old).sizes }
    ensures refused { MatchResult result
        (λ table. (10 ≤ (lengths_of (V.state vols.old).sizes).store) × ((lengths_of (V.state vols.old).sizes).store < 2 ^ 64) × (length table ≡ slots_in (lengths_of (V.state vols.old).sizes).store))
        (λ why. RefusesOpen (V.state vols.old) why (V.state vols.new)) }
    ensures opens { MatchResult result
        (λ table. BetweenRecords (Opens (lengths_of (V.state vols.old).sizes) table) (V.state vols.old).told (V.state vols.new).told)
        (λ _. KeepsSectorsTold (V.state vols.old).told [] (V.state vols.new).told) }
    ensures flushes { MatchResult result (λ _. KeepsSectorsTold (V.state vols.old).told (0 ∷ 1 ∷ []) (V.state vols.new).told)
        (λ _. KeepsSectorsTold (V.state vols.old).told [] (V.state vols.new).told) }
{
    let mut table = room_for(alloc, vols)?;
    let tables = table_sectors_of(table.len());
    vols.reserve(tables + 3)?;
    read_store(vols, tables, &mut table)?;
    Ok(table)
}

// Flushes both volumes, checks the head and reads the entries into the table, which is empty.
fn read_store<V: Vols>(vols: &mut V, tables: u64, table: &mut ChunkTable) -> Result<(), CowRefusal>
    requires volumes { 2 ≤ length (V.state vols.old).sizes }
    requires large { 10 ≤ (lengths_of (V.state vols.old).sizes).store }
    requires empty { table.old ≡ no_entries (lengths_of (V.state vols.old).sizes) }
    requires tables { tables ≡ table_sectors (length table.old) }
    requires spare { tables + 3 ≤ (V.state vols.old).spare }
    ensures spends { Spends (V.state vols.old) (tables + 3) (V.state vols.new) }
    ensures len { length table.new ≡ length table.old }
    ensures keeps { MatchResult result (λ _. KeepsSectorsTold (V.state vols.old).told (0 ∷ 1 ∷ []) (V.state vols.new).told)
        (λ _. KeepsSectorsTold (V.state vols.old).told [] (V.state vols.new).told) }
    ensures opens { let lengths = lengths_of (V.state vols.old).sizes in MatchResult result
        (λ _. BetweenRecords (Opens lengths table.new) (V.state vols.old).told (V.state vols.new).told)
        (λ why. EndsReading (V.state vols.old) (λ t. opens lengths (now_after t.opened t.steps) ≡ Err why) why (V.state vols.new)) }
{
    flush_both(vols)?;
    check_head(vols)?;
    read_table(vols, tables, table)
}

// Whether the head is one for this origin.
fn check_head<V: Vols>(vols: &mut V) -> Result<(), CowRefusal>
    requires volumes { 2 ≤ length (V.state vols.old).sizes }
    requires some { 0 < (lengths_of (V.state vols.old).sizes).store }
    requires spare { 1 ≤ (V.state vols.old).spare }
    ensures spends { Spends (V.state vols.old) 1 (V.state vols.new) }
    ensures keeps { KeepsSectorsTold (V.state vols.old).told [] (V.state vols.new).told }
    ensures head { let origin = (lengths_of (V.state vols.old).sizes).origin in MatchResult result
        (λ _. IfSome (V.state vols.old).told (λ t. refused_head origin (now_after t.opened t.steps 1 0) ≡ None))
        (λ why. EndsReading (V.state vols.old) (λ t. refused_head origin (now_after t.opened t.steps 1 0) ≡ Some why) why (V.state vols.new)) }
{
    let head = read_sector(vols, STORE, 0)?;
    if !begins_like_head(&head) {
        return Err(CowRefusal::NoHead);
    }
    let said = get_u64(&head, 8);
    let found = vols.sectors(ORIGIN);
    if said != found {
        return Err(CowRefusal::OtherLength(said, found));
    }
    Ok(())
}

// Reads the entries of all slots into the table, which is empty.
fn read_table<V: Vols>(vols: &mut V, tables: u64, table: &mut ChunkTable) -> Result<(), CowRefusal>
    requires volumes { 2 ≤ length (V.state vols.old).sizes }
    requires empty { table.old ≡ no_entries (lengths_of (V.state vols.old).sizes) }
    requires tables { tables ≡ table_sectors (length table.old) }
    requires within { 1 + tables ≤ (lengths_of (V.state vols.old).sizes).store }
    requires spare { tables ≤ (V.state vols.old).spare }
    ensures spends { Spends (V.state vols.old) tables (V.state vols.new) }
    ensures keeps { KeepsSectorsTold (V.state vols.old).told [] (V.state vols.new).told }
    ensures len { length table.new ≡ length table.old }
    ensures entries { let lengths = lengths_of (V.state vols.old).sizes in MatchResult result
        (λ _. IfSome (V.state vols.old).told (λ t.
        opened_table lengths.origin (entries_in (length table.old) (now_after t.opened t.steps)) ≡ Ok table.new))
        (λ why. EndsReading (V.state vols.old) (λ t.
        opened_table lengths.origin (entries_in (length table.old) (now_after t.opened t.steps)) ≡ Err why) why (V.state vols.new)) }
{
    let chunks = chunks_of(vols.sectors(ORIGIN));
    let _slots = table.len();
    for k in 0..tables {
        let sector = read_sector(vols, STORE, 1 + k)?;
        take_entries(&sector, SECTOR_ENTRIES * k, chunks, table)?;
    }
    Ok(())
}

// Takes the entries of a sector of the table into it, from the slot `first` on.
fn take_entries(
    sector: &Bytes512,
    first: u64,
    chunks: u64,
    table: &mut ChunkTable,
) -> Result<(), CowRefusal>
    requires first { first % 64 ≡ 0 }
    requires some { first < length table.old }
    requires chunks { chunks < 2 ^ 63 }
    requires read { (read : ℕ → ℕ) × IsReadTo chunks first read table.old }
    ensures len { length table.new ≡ length table.old }
    ensures entries { (read : ℕ → ℕ) → IsReadTo chunks first read table.old
        → ((slot : ℕ) → first ≤ slot → slot < first + 64 → read slot ≡ field 8 sector.now (entry_place slot))
        → MatchResult result (λ _. IsReadTo chunks (min (first + 64) (length table.old)) read table.new)
        (λ why. IsFirstBad chunks (length table.old) read why) }
{
    let end = first + SECTOR_ENTRIES.min(table.len() - first);
    for slot in first..end {
        let entry = get_u64(sector, (8 * (slot - first)) as u32);
        take_entry(slot, entry, chunks, table)?;
    }
    Ok(())
}

// Takes the entry of the slot into the table, unless it is bad.
fn take_entry(slot: u64, entry: u64, chunks: u64, table: &mut ChunkTable) -> Result<(), CowRefusal>
    requires slot { slot < length table.old }
    requires chunks { chunks < 2 ^ 63 }
    requires read { (read : ℕ → ℕ) × IsReadTo chunks slot read table.old }
    ensures len { length table.new ≡ length table.old }
    ensures entry { (read : ℕ → ℕ) → IsReadTo chunks slot read table.old → read slot ≡ entry
        → MatchResult result (λ _. IsReadTo chunks (slot + 1) read table.new) (λ why. IsFirstBad chunks (length table.old) read why) }
{
    if entry == 0 {
        return Ok(());
    }
    let chunk = entry - 1;
    if chunk >= chunks || table.slot_of(chunk).is_some() {
        return Err(CowRefusal::BadEntry(slot, entry));
    }
    table.put(slot, chunk);
    Ok(())
}
