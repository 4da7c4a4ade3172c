//! Sectors copied into a run of bytes, and out of one.
ghost use Rattle.std.specs.Prelude.{◌≡◌, ◌≤◌, ◌<◌, ◌+◌, ◌-◌, ◌*◌, ◌&&◌, ℕ, [], length, slice_index_or, nat_le, nat_lt, if◌then◌else◌};
ghost use Rattle.file_shelf.specs.Bytes.{sector_of};

use sector_base::{Bytes512, Sectors};

pub const SECTOR: usize = 512;

/// Copies so many sectors, from the place `at` on, into the bytes.
pub fn gather(from: &Sectors, at: usize, count: usize, bytes: &mut [u8])
    requires has { at + count ≤ length from.now }
    requires fits { 512 * count ≡ length bytes.old }
    ensures { (k : ℕ) → k < count → sector_of bytes.new k ≡ slice_index_or from.now (at + k) [] }
{
    let _sectors = from.len();
    for k in 0..count {
        let sector = from.get(at + k);
        bytes[SECTOR * k..SECTOR * k + SECTOR].copy_from_slice(sector.as_bytes());
    }
}

/// Copies the bytes into so many sectors, from the place `at` on.
pub fn scatter(bytes: &[u8], into: &mut Sectors, at: usize, count: usize)
    requires has { 512 * count ≡ length bytes.now }
    requires fits { at + count ≤ length into.old }
    ensures len { length into.new ≡ length into.old }
    ensures each { (s : ℕ) → slice_index_or into.new s [] ≡ (if nat_le at s && nat_lt s (at + count)
        then sector_of bytes.now (s - at) else slice_index_or into.old s []) }
{
    let _sectors = into.len();
    for k in 0..count {
        let mut sector = Bytes512::zeroed();
        sector.put(0, &bytes[SECTOR * k..SECTOR * k + SECTOR]);
        into.set(at + k, sector);
    }
}
