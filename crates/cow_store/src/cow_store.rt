//! A copy-on-write snapshot of the volume 0, kept in the volume 1.
ghost use Rattle.std.specs.Prelude.{◌≡◌, ◌≤◌, ◌<◌, ◌+◌, ◌*◌, ◌/◌, ◌^◌, [], ◌∷◌, length, slice_index_or, is_ok, true, if◌then◌else◌, Some, None, IfErr, IfOk, IfSome, IsSome, MatchResult, OnOk};
ghost use Rattle.disk_model.specs.Since.{BetweenRecords, KeepsSectorsTold};
ghost use Rattle.disk_model.specs.Steps.{now_after};
ghost use Rattle.cow_store.specs.Layout.{lengths_of};

use crate::chunk_table::ChunkTable;
use crate::layout::{CHUNK_SECTORS, ORIGIN, STORE, slot_start_of};
use crate::opening::open_store;
use crate::saving::{SET_OPS, save_chunk};
use crate::taking::take_store;
use crate::vol_ops::{VolumeFault, flush_both, read_sector, write_sector};
use crate::{CowRefusal, CowRefused, Vols};
use sector_base::Bytes512;
use std::alloc::Global;

/// A snapshot of an origin, the volume 0, that is kept in a store, the volume 1: what each chunk of the origin held when the
/// snapshot was taken is copied to the store before the chunk's first sector is set.
#[derive(Drop)]
pub struct CowStore<V: Vols> {
    vols: V,
    table: ChunkTable,
    spent: bool,
}

impl<V: Vols> CowStore<V> {
    ghost use Rattle.cow_store.specs.Answers.{Answers, MayAnswer, MayFail, RefusesOpen, RefusesTake, origin_of, refused_at, refused_room, refused_set, refused_spent};
    ghost use Rattle.cow_store.specs.Beginning.{Opens, Takes, no_entries};
    ghost use Rattle.cow_store.specs.Calls.{IsNew, IsOld, Keeps, Saves, Sets, as_it_was};
    ghost use Rattle.cow_store.specs.Entries.{free_slot, slot_of};
    ghost use Rattle.cow_store.specs.Preparing.{HasOps, HasRoom, Prepares, slot_for};
    ghost use Rattle.cow_store.specs.Stands.{setting};
    ghost use Rattle.cow_store.specs.Views.{IsStore, view_of};

    /// Takes a snapshot of the origin. Nothing else may use the volumes.
    ///
    /// # Errors
    ///
    /// `StoreTooSmall` exactly where the store has fewer than ten sectors; `Fault` of a volume whose count of faults has risen in
    /// this call; and where memory is wanting, and then nothing was done. The volumes come back.
    pub fn take(alloc: Global, vols: V) -> Result<CowStore<V>, CowRefused<V>>
        requires { 2 ≤ length (V.state vols).sizes }
        ensures new { IfOk result (λ store. IsNew (V.state vols) (no_entries (lengths_of (V.state vols).sizes)) (view_of V.state store)) }
        ensures refused { IfErr result (λ refused. RefusesTake (V.state vols) refused.why (V.state refused.vols)) }
        ensures takes { IfOk result (λ store. BetweenRecords (Takes (lengths_of (V.state vols).sizes)) (V.state vols).told (view_of V.state store).vols.told) }
    {
        let mut vols = vols;
        match take_store(alloc, &mut vols) {
            Ok(table) => Ok(CowStore {
                vols,
                table,
                spent: false,
            }),
            Err(why) => Err(CowRefused { vols, why }),
        }
    }

    /// Opens a store, in which a snapshot of the origin is kept. Nothing else may use the volumes.
    ///
    /// # Errors
    ///
    /// As `take`; and in this order `NoHead` where the store doesn't begin as a head does, `OtherLength` where the head is that of
    /// an origin of another length, and `BadEntry` for the first slot whose entry names a chunk outside of the origin, or one that
    /// was listed before. Nothing is written.
    pub fn open(alloc: Global, vols: V) -> Result<CowStore<V>, CowRefused<V>>
        requires { 2 ≤ length (V.state vols).sizes }
        ensures new { IfOk result (λ store. IsNew (V.state vols) (view_of V.state store).entries (view_of V.state store)) }
        ensures refused { IfErr result (λ refused. RefusesOpen (V.state vols) refused.why (V.state refused.vols)) }
        ensures opens { IfOk result (λ store. BetweenRecords (Opens (lengths_of (V.state vols).sizes) (view_of V.state store).entries) (V.state vols).told (view_of V.state store).vols.told) }
        ensures unwritten { MatchResult result
            (λ store. KeepsSectorsTold (V.state vols).told (0 ∷ 1 ∷ []) (view_of V.state store).vols.told)
            (λ refused. KeepsSectorsTold (V.state vols).told [] (V.state refused.vols).told) }
    {
        let mut vols = vols;
        match open_store(alloc, &mut vols) {
            Ok(table) => Ok(CowStore {
                vols,
                table,
                spent: false,
            }),
            Err(why) => Err(CowRefused { vols, why }),
        }
    }

    /// Sets a sector of the origin. Where its chunk has no slot, the chunk is copied to the first free one before, and its entry is
    /// put.
    ///
    /// # Errors
    ///
    /// `Spent` exactly where an operation has failed in an earlier call; then `PastEnd` exactly where the origin has no such sector;
    /// then `Full` exactly where the chunk has no slot and none is free. Nothing has changed then, nor where memory is wanting.
    /// `Fault` of a volume whose count of faults has risen in this call; from then on each call answers `Spent`.
    pub fn set(&mut self, at: u64, from: &Bytes512) -> Result<(), CowRefusal>
        requires { IsStore (view_of V.state self.old) }
        ensures answers { Answers (refused_set (view_of V.state self.old) at) (view_of V.state self.old) result (view_of V.state self.new) }
        ensures sets { OnOk result (Sets at from.now (view_of V.state self.old) (view_of V.state self.new)) }
        ensures keeps { Keeps (setting (at / 8)) (view_of V.state self.old) (view_of V.state self.new) }
    {
        let slot = self.prepare_set(at)?;
        self.set_by(slot, at, from)
    }

    /// The sector as it was when the snapshot was taken.
    ///
    /// # Errors
    ///
    /// `Spent` and `PastEnd` as `set`, want of memory, and `Fault`.
    pub fn old(&mut self, at: u64) -> Result<Bytes512, CowRefusal>
        requires { IsStore (view_of V.state self.old) }
        ensures answers { Answers (refused_at (view_of V.state self.old) at) (view_of V.state self.old) result (view_of V.state self.new) }
        ensures value { IfOk result (λ sector. IfSome (view_of V.state self.old).vols.told (IsOld (view_of V.state self.old) at sector)) }
        ensures unwritten { KeepsSectorsTold (view_of V.state self.old).vols.told [] (view_of V.state self.new).vols.told }
        ensures keeps { Keeps as_it_was (view_of V.state self.old) (view_of V.state self.new) }
    {
        self.prepare_read(at)?;
        match self.table.slot_of(at / CHUNK_SECTORS) {
            Some(slot) => {
                let first = slot_start_of(self.table.len(), slot);
                self.read(STORE, first + at % CHUNK_SECTORS)
            }
            None => self.read(ORIGIN, at),
        }
    }

    /// The sector as it is now.
    ///
    /// # Errors
    ///
    /// As `old`.
    pub fn new_value(&mut self, at: u64) -> Result<Bytes512, CowRefusal>
        requires { IsStore (view_of V.state self.old) }
        ensures answers { Answers (refused_at (view_of V.state self.old) at) (view_of V.state self.old) result (view_of V.state self.new) }
        ensures value { IfOk result (λ sector. IfSome (view_of V.state self.old).vols.told (λ told. sector ≡ now_after told.opened told.steps 0 at)) }
        ensures unwritten { KeepsSectorsTold (view_of V.state self.old).vols.told [] (view_of V.state self.new).vols.told }
        ensures keeps { Keeps as_it_was (view_of V.state self.old) (view_of V.state self.new) }
    {
        self.prepare_read(at)?;
        self.read(ORIGIN, at)
    }

    /// Makes lasting what was set.
    ///
    /// # Errors
    ///
    /// `Spent` as `set`, want of memory, and `Fault`.
    pub fn flush(&mut self) -> Result<(), CowRefusal>
        requires { IsStore (view_of V.state self.old) }
        ensures answers { Answers (refused_spent (view_of V.state self.old)) (view_of V.state self.old) result (view_of V.state self.new) }
        ensures flushes { KeepsSectorsTold (view_of V.state self.old).vols.told (if is_ok result then 0 ∷ 1 ∷ [] else []) (view_of V.state self.new).vols.told }
        ensures keeps { Keeps as_it_was (view_of V.state self.old) (view_of V.state self.new) }
    {
        if self.spent {
            return Err(CowRefusal::Spent);
        }
        self.vols.reserve(2)?;
        let flushed = flush_both(&mut self.vols);
        self.outcome(flushed)
    }

    /// Gives the volumes back.
    pub fn finish(self) -> V
        ensures { V.state result ≡ (view_of V.state self).vols }
    {
        self.vols
    }

    // Whether a call on this sector isn't refused.
    fn check(&self, at: u64) -> Result<(), CowRefusal>
        requires { IsStore (view_of V.state self.now) }
        ensures { MatchResult result
            (λ _. refused_at (view_of V.state self.now) at ≡ None)
            (λ why. refused_at (view_of V.state self.now) at ≡ Some why) }
    {
        if self.spent {
            return Err(CowRefusal::Spent);
        }
        let length = self.vols.sectors(ORIGIN);
        if at >= length {
            return Err(CowRefusal::PastEnd {
                end: at.saturating_add(1),
                length,
            });
        }
        Ok(())
    }

    // Makes room for a read of this sector, unless that is refused.
    fn prepare_read(&mut self, at: u64) -> Result<(), CowRefusal>
        requires { IsStore (view_of V.state self.old) }
        ensures { Prepares 1 (refused_at (view_of V.state self.old) at) (view_of V.state self.old) result (view_of V.state self.new) }
    {
        self.check(at)?;
        self.vols.reserve(1)?;
        Ok(())
    }

    // The slot that the sector's chunk is to have, where it has none, and room for the operations of setting it, unless that is
    // refused.
    fn prepare_set(&mut self, at: u64) -> Result<Option<u64>, CowRefusal>
        requires { IsStore (view_of V.state self.old) }
        ensures prepares { Prepares 21 (refused_set (view_of V.state self.old) at) (view_of V.state self.old) result (view_of V.state self.new) }
        ensures slot { IfOk result (λ slot. slot ≡ slot_for (view_of V.state self.old).entries (at / 8)) }
    {
        self.check(at)?;
        let slot = self.new_slot(at / CHUNK_SECTORS)?;
        self.vols.reserve(SET_OPS)?;
        Ok(slot)
    }

    // A free slot for the chunk, where it has none.
    fn new_slot(&self, chunk: u64) -> Result<Option<u64>, CowRefusal>
        ensures { let entries = (view_of V.state self.now).entries in MatchResult result
            (λ slot. (refused_room (slot_of entries chunk) (free_slot entries) (length entries) ≡ None) × (slot ≡ slot_for entries chunk))
            (λ why. refused_room (slot_of entries chunk) (free_slot entries) (length entries) ≡ Some why) }
    {
        if self.table.slot_of(chunk).is_some() {
            return Ok(None);
        }
        match self.table.free_slot() {
            Some(slot) => Ok(Some(slot)),
            None => Err(CowRefusal::Full(self.table.len())),
        }
    }

    // Sets the sector, whose chunk is to have this slot, or has one.
    fn set_by(&mut self, slot: Option<u64>, at: u64, from: &Bytes512) -> Result<(), CowRefusal>
        requires ops { HasOps 21 (view_of V.state self.old) }
        requires sector { at < origin_of (view_of V.state self.old) }
        requires slot { slot ≡ slot_for (view_of V.state self.old).entries (at / 8) }
        requires room { HasRoom (view_of V.state self.old) (at / 8) }
        ensures answers { MayFail (view_of V.state self.old) result (view_of V.state self.new) }
        ensures sets { OnOk result (Sets at from.now (view_of V.state self.old) (view_of V.state self.new)) }
        ensures keeps { Keeps (setting (at / 8)) (view_of V.state self.old) (view_of V.state self.new) }
    {
        match slot {
            Some(slot) => self.save_and_write(slot, at, from),
            None => self.write(at, from),
        }
    }

    // Saves the sector's chunk in the free slot, and writes the sector.
    fn save_and_write(&mut self, slot: u64, at: u64, from: &Bytes512) -> Result<(), CowRefusal>
        requires ops { HasOps 21 (view_of V.state self.old) }
        requires sector { at < origin_of (view_of V.state self.old) }
        requires slot { free_slot (view_of V.state self.old).entries ≡ Some slot }
        requires new { slot_of (view_of V.state self.old).entries (at / 8) ≡ None }
        ensures answers { MayFail (view_of V.state self.old) result (view_of V.state self.new) }
        ensures sets { OnOk result (Sets at from.now (view_of V.state self.old) (view_of V.state self.new)) }
        ensures keeps { Keeps (setting (at / 8)) (view_of V.state self.old) (view_of V.state self.new) }
    {
        self.save(slot, at / CHUNK_SECTORS)?;
        self.write(at, from)
    }

    // Copies the chunk to the free slot, and puts its entry.
    fn save(&mut self, slot: u64, chunk: u64) -> Result<(), CowRefusal>
        requires ops { HasOps 21 (view_of V.state self.old) }
        requires chunk { 8 * chunk < origin_of (view_of V.state self.old) }
        requires number { chunk + 1 < 2 ^ 64 }
        requires slot { free_slot (view_of V.state self.old).entries ≡ Some slot }
        requires new { slot_of (view_of V.state self.old).entries chunk ≡ None }
        ensures answers { MayFail (view_of V.state self.old) result (view_of V.state self.new) }
        ensures saves { OnOk result (Saves slot chunk (view_of V.state self.old) (view_of V.state self.new)) }
        ensures keeps { Keeps (setting chunk) (view_of V.state self.old) (view_of V.state self.new) }
    {
        let saved = save_chunk(&mut self.vols, self.table.len(), chunk, slot);
        self.outcome(saved)?;
        self.table.put(slot, chunk);
        Ok(())
    }

    // Writes the sector of the origin, whose chunk has a slot.
    fn write(&mut self, at: u64, from: &Bytes512) -> Result<(), CowRefusal>
        requires ops { HasOps 1 (view_of V.state self.old) }
        requires sector { at < origin_of (view_of V.state self.old) }
        requires saved { IsSome (slot_of (view_of V.state self.old).entries (at / 8)) }
        ensures answers { MayFail (view_of V.state self.old) result (view_of V.state self.new) }
        ensures sets { OnOk result (Sets at from.now (view_of V.state self.old) (view_of V.state self.new)) }
        ensures keeps { Keeps as_it_was (view_of V.state self.old) (view_of V.state self.new) }
    {
        let written = write_sector(&mut self.vols, ORIGIN, at, from);
        self.outcome(written)
    }

    // Reads the sector of the volume.
    fn read(&mut self, volume: u32, at: u64) -> Result<Bytes512, CowRefusal>
        requires ops { HasOps 1 (view_of V.state self.old) }
        requires volume { volume < 2 }
        requires sector { at < slice_index_or (view_of V.state self.old).vols.sizes volume 0 }
        ensures answers { MayAnswer (view_of V.state self.old) result (view_of V.state self.new) }
        ensures value { IfOk result (λ sector. IfSome (view_of V.state self.old).vols.told (λ told. sector ≡ now_after told.opened told.steps volume at)) }
        ensures unwritten { KeepsSectorsTold (view_of V.state self.old).vols.told [] (view_of V.state self.new).vols.told }
        ensures keeps { Keeps as_it_was (view_of V.state self.old) (view_of V.state self.new) }
    {
        match read_sector(&mut self.vols, volume, at) {
            Ok(sector) => Ok(sector),
            Err(fault) => Err(self.spend(fault)),
        }
    }

    // The store is spent where an operation has failed.
    fn outcome(&mut self, done: Result<(), VolumeFault>) -> Result<(), CowRefusal>
        ensures ok { is_ok result ≡ is_ok done }
        ensures why { IfErr result (λ why. IfErr done (λ fault. why ≡ CowRefusal.Fault fault.volume)) }
        ensures view { view_of V.state self.new ≡ record (view_of V.state self.old) {
          spent = if is_ok done then (view_of V.state self.old).spent else true;
        } }
    {
        match done {
            Ok(()) => Ok(()),
            Err(fault) => Err(self.spend(fault)),
        }
    }

    // The store is spent by this fault.
    fn spend(&mut self, fault: VolumeFault) -> CowRefusal
        ensures why { result ≡ CowRefusal.Fault fault.volume }
        ensures spent { view_of V.state self.new ≡ record (view_of V.state self.old) { spent = true } }
    {
        self.spent = true;
        CowRefusal::Fault(fault.volume)
    }
}
