//! Where the parts of a store lie, and its head.
ghost use Rattle.std.specs.Prelude.{◌≡◌, ◌≤◌, ◌<◌, ◌^◌, ◌+◌, ◌↔◌, ℕ};
ghost use Rattle.cow_store.specs.Layout.{chunks_in, entry_sector, head_for, slot_start, slots_in, table_sectors, used_sectors, with_entry};
ghost use Rattle.cow_store.specs.Opening.{has_magic};

use sector_base::{Bytes512, put_u64};

/// The number of the volume whose snapshot is kept.
pub const ORIGIN: u32 = 0;

/// The number of the volume that keeps it.
pub const STORE: u32 = 1;

/// How many sectors a chunk has.
pub const CHUNK_SECTORS: u64 = 8;

/// How many entries a sector of the table has.
pub const SECTOR_ENTRIES: u64 = 64;

/// The fewest sectors that a store can have: a head, a table sector, and the data of a slot.
pub const LEAST_STORE: u64 = 10;

// How a head begins.
const MAGIC: [u8; 8] = *b"COWSNAP1";

/// How many slots a store of so many sectors has: as many as there is room for behind the head, with their table.
pub fn slots_for(sectors: u64) -> u64
    ensures value { result ≡ slots_in sectors }
    ensures greatest { 1 ≤ sectors → (slots : ℕ) → (used_sectors slots ≤ sectors) ↔ (slots ≤ result) }
{
    let behind = sectors.saturating_sub(1);
    SECTOR_ENTRIES * (behind / 513) + (behind % 513).saturating_sub(1) / CHUNK_SECTORS
}

/// How many sectors the table of so many slots has.
pub(crate) fn table_sectors_of(slots: u64) -> u64
    requires { slots < 2 ^ 63 }
    ensures { result ≡ table_sectors slots }
{
    (slots + SECTOR_ENTRIES - 1) / SECTOR_ENTRIES
}

/// The sector of the store at which the data of the slot begins, where there are so many slots.
pub(crate) fn slot_start_of(slots: u64, slot: u64) -> u64
    requires slots { used_sectors slots < 2 ^ 64 }
    requires slot { slot < slots }
    ensures { result ≡ slot_start slots slot }
{
    1 + table_sectors_of(slots) + CHUNK_SECTORS * slot
}

/// The sector of the table with the entry of the slot.
pub(crate) fn entry_sector_of(slot: u64) -> u64
    requires { slot < 2 ^ 63 }
    ensures { result ≡ entry_sector slot }
{
    1 + slot / SECTOR_ENTRIES
}

/// Puts the chunk into the entry of the slot, in its sector of the table.
pub(crate) fn put_entry(sector: &mut Bytes512, slot: u64, chunk: u64)
    requires { chunk + 1 < 2 ^ 64 }
    ensures { sector.new ≡ with_entry sector.old slot chunk }
{
    put_u64(sector, (8 * (slot % SECTOR_ENTRIES)) as u32, chunk + 1);
}

/// How many chunks so many sectors have.
pub(crate) fn chunks_of(sectors: u64) -> u64
    ensures { result ≡ chunks_in sectors }
{
    let whole = sectors / CHUNK_SECTORS;
    if sectors % CHUNK_SECTORS == 0 {
        whole
    } else {
        whole + 1
    }
}

/// The head for an origin of so many sectors.
pub(crate) fn new_head(length: u64) -> Bytes512
    ensures { result ≡ head_for length }
{
    let mut sector = Bytes512::zeroed();
    sector.put(0, &MAGIC);
    put_u64(&mut sector, 8, length);
    sector
}

/// Whether the sector begins as a head does.
pub(crate) fn begins_like_head(sector: &Bytes512) -> bool
    ensures { result ≡ has_magic sector.now }
{
    sector.as_bytes()[..8] == MAGIC[..]
}
