//! Lists of sectors: the buffers of reads and writes, and the disks in memory.
ghost use Rattle.std.specs.Prelude.{◌≡◌, ◌≤◌, ◌<◌, ◌+◌, ◌-◌, ◌&&◌, ℕ, List, [], length, replicate, slice_set, slice_index_or, nat_le, nat_lt, if◌then◌else◌, IfOk, All};
ghost use Rattle.sector_base.specs.Sectors.{IsSector};

use crate::Bytes512;
use std::alloc::{AllocError, Global};
use std::marker::Model;

/// A list of sectors. Contracts see it as the list of their bytes.
#[derive(Debug, Drop)]
pub struct Sectors {
    list: Vec<Bytes512>,
}

impl Model for Sectors {
    ghost use Rattle.std.specs.Prelude.{ℕ, List, All};
    ghost use Rattle.sector_base.specs.Sectors.{IsSector};

    ghost Value = { List (List ℕ) };

    ghost view = { λ s. s.list.items };

    ghost invariant = { λ s. All IsSector s.list.items };
}

impl Sectors {
    /// So many sectors of zeros. Only memory can be wanting.
    pub fn zeroed(alloc: Global, count: u32) -> Result<Self, AllocError>
        ensures { IfOk result (λ s. s ≡ replicate count (replicate 512 0)) }
    {
        let zero = Bytes512::zeroed();
        let mut list = Vec::with_capacity(alloc, count as usize)?;
        for _ in 0..count {
            list.push(zero)?;
        }
        Ok(Sectors { list })
    }

    /// These sectors.
    pub fn from_vec(list: Vec<Bytes512>) -> Self
        ensures { result ≡ list.items }
    {
        see_each(&list);
        Sectors { list }
    }

    /// Gives the sectors back.
    pub fn into_vec(self) -> Vec<Bytes512>
        ensures { result.items ≡ self }
    {
        self.list
    }

    /// All of them.
    pub fn as_slice(&self) -> &[Bytes512]
        ensures value { result.now ≡ self.now }
        ensures valid { All IsSector self.now }
    {
        &self.list
    }

    /// How many they are.
    pub fn len(&self) -> usize
        ensures value { result ≡ length self.now }
        ensures valid { All IsSector self.now }
    {
        self.list.len()
    }

    /// The sector at this place.
    pub fn get(&self, at: usize) -> Bytes512
        requires { at < length self.now }
        ensures value { result ≡ slice_index_or self.now at [] }
        ensures valid { IsSector result }
    {
        self.list[at]
    }

    /// Puts the sector at this place.
    pub fn set(&mut self, at: usize, sector: Bytes512)
        requires { at < length self.old }
        ensures { self.new ≡ slice_set self.old at sector }
    {
        let _bytes = sector.as_bytes();
        self.list[at] = sector;
    }

    /// A copy. Only memory can be wanting.
    pub fn try_copy(&self, alloc: Global) -> Result<Self, AllocError>
        ensures { IfOk result (λ s. s ≡ self.now) }
    {
        Ok(Sectors {
            list: Vec::from_slice(alloc, &self.list)?,
        })
    }

    /// Copies so many sectors of `from`, its first ones, to the place `first`.
    pub fn copy_in(&mut self, first: usize, from: &Sectors, count: usize)
        requires fits { first + count ≤ length self.old }
        requires has { count ≤ length from.now }
        ensures len { length self.new ≡ length self.old }
        ensures each { (s : ℕ) → slice_index_or self.new s [] ≡ (if nat_le first s && nat_lt s (first + count)
            then slice_index_or from.now (s - first) [] else slice_index_or self.old s []) }
    {
        let _sectors = self.len();
        for k in 0..count {
            self.set(first + k, from.get(k));
        }
    }

    /// Fills itself from the place `first` of `from`.
    pub fn fill_from(&mut self, from: &Sectors, first: usize)
        requires { first + length self.old ≤ length from.now }
        ensures len { length self.new ≡ length self.old }
        ensures each { (k : ℕ) → k < length self.old → slice_index_or self.new k [] ≡ slice_index_or from.now (first + k) [] }
    {
        let _sectors = from.len();
        for k in 0..self.len() {
            self.set(k, from.get(first + k));
        }
    }
}

/// Does nothing: that each list of sectors has sectors alone is known from then on, of the disks in memory for one.
pub fn see_sectors(disks: &[Sectors])
    ensures { All (λ sectors. All IsSector sectors) disks.now }
{
    for sectors in disks {
        let _count = sectors.len();
    }
}

// Does nothing: that each of these is a sector is known from then on.
fn see_each(list: &[Bytes512])
    ensures { All IsSector list.now }
{
    for sector in list {
        let _bytes = sector.as_bytes();
    }
}
