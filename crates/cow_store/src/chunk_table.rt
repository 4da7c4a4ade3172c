//! The table of a store in memory.
ghost use Rattle.std.specs.Prelude.{◌≡◌, ◌≤◌, ◌<◌, ◌+◌, ◌^◌, length, replicate, slice_get, IfOk, Some, None};
ghost use Rattle.std.specs.List.{position_or_len};
ghost use Rattle.cow_store.specs.Entries.{free_slot, is_free, slot_of, with_chunk};

use std::alloc::{AllocError, Global};
use std::collections::HashMap;
use std::marker::Model;

/// The entries of a table, and the slot of each chunk that has one. Contracts see it as the entries.
#[derive(Drop)]
pub(crate) struct ChunkTable {
    entries: Vec<u64>,
    slots: HashMap<u64, u64>,
    // The first slot that is free, or the number of slots.
    next: usize,
}

impl Model for ChunkTable {
    ghost use Rattle.std.specs.Prelude.{ℕ, List};
    ghost use Rattle.cow_store.specs.Tables.{IsIndexed};

    ghost Value = { List ℕ };

    ghost view = { λ t. t.entries.items };

    ghost invariant = { λ t. IsIndexed t.slots t.next t.entries.items };
}

impl ChunkTable {
    /// A table of so many slots that are free. Only memory can be wanting.
    pub(crate) fn new(alloc: Global, slots: u64) -> Result<Self, AllocError>
        ensures { IfOk result (λ table. table ≡ replicate slots 0) }
    {
        Ok(ChunkTable {
            entries: vec![in alloc; 0; slots as usize]?,
            slots: HashMap::with_capacity(alloc, slots as usize)?,
            next: 0,
        })
    }

    /// How many slots there are.
    pub(crate) fn len(&self) -> u64
        ensures { result ≡ length self.now }
    {
        self.entries.len() as u64
    }

    /// The slot of the chunk, where it has one.
    pub(crate) fn slot_of(&self, chunk: u64) -> Option<u64>
        ensures { result ≡ slot_of self.now chunk }
    {
        self.slots.get(&chunk).copied()
    }

    /// The first slot that is free, where one is.
    pub(crate) fn free_slot(&self) -> Option<u64>
        ensures { result ≡ free_slot self.now }
    {
        if self.next < self.entries.len() {
            Some(self.next as u64)
        } else {
            None
        }
    }

    /// Gives the free slot to the chunk, which has none.
    pub(crate) fn put(&mut self, slot: u64, chunk: u64)
        requires free { slice_get self.old slot ≡ Some 0 }
        requires new { slot_of self.old chunk ≡ None }
        requires number { chunk + 1 < 2 ^ 64 }
        ensures { self.new ≡ with_chunk self.old slot chunk }
    {
        self.entries[slot as usize] = chunk + 1;
        match self.slots.insert(chunk, slot) {
            Ok(_) => {}
            Err(_) => unreachable!(),
        }
        self.next = first_free(&self.entries, self.next);
    }
}

// The first free slot, or their number, where there is none before `from`.
fn first_free(entries: &[u64], from: usize) -> usize
    requires { from ≤ position_or_len is_free entries.now }
    ensures { result ≡ position_or_len is_free entries.now }
{
    let mut at = from;
    while at < entries.len() && entries[at] != 0 {
        at += 1;
    }
    at
}
