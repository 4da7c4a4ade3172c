//! The volumes of the group in force, by their keys.
ghost use Rattle.std.specs.Prelude.{◌≡◌, ◌≤◌, ◌<◌, AllPairs, IfOk, IsTrue, ℕ, List, Some, find, length, nat_eq};
ghost use Rattle.world_acts.specs.declared.volumes.VolumeRow.{VolumeRow as RowRecord};
ghost use Rattle.world_acts.specs.Volumes.{AreLaidOut, has_sector, lv_of, on_disk, place_of, rows_at_opening, visible_rows};

use meta_model::Group;
use sector_base::{At, PvDisks};
use seg_place::primary;
use std::alloc::{AllocError, Global};
use vg_check::Checked;

/// A visible volume: its key, and its number in the group.
#[derive(Clone, Copy, Debug, Drop, PartialEq, Eq)]
pub struct VolumeRow {
    pub key: u32,
    pub lv: u32,
}

/// The group in force, if there is one, its disks, and its visible volumes in the order of the text.
#[derive(Drop)]
pub struct Volumes {
    pub group: Option<Checked>,
    pub disk_of: PvDisks,
    pub rows: Vec<VolumeRow>,
}

/// The visible volumes of a group, with keys from 0 on.
pub fn rows_of(alloc: Global, group: &Option<Checked>) -> Result<Vec<VolumeRow>, AllocError>
    ensures { IfOk result (λ rows. rows.items ≡ rows_at_opening group.now) }
{
    match group {
        Some(group) => visible_rows(alloc, group.group()),
        None => Ok(Vec::new(alloc)),
    }
}

fn visible_rows(alloc: Global, group: &Group) -> Result<Vec<VolumeRow>, AllocError>
    requires { length group.now.lvs ≤ 1024 }
    ensures { IfOk result (λ rows. rows.items ≡ visible_rows 0 0 group.now.lvs) }
{
    let mut rows = Vec::new(alloc);
    for lv in 0..group.lvs.len() {
        let (_, volume) = group.lvs.get(lv);
        if volume.status.is_visible() {
            let key = rows.len() as u32;
            rows.push(VolumeRow { key, lv: lv as u32 })?;
        }
    }
    Ok(rows)
}

impl Volumes {
    /// The visible volume with this number in the group.
    pub fn with_number(&self, lv: u32) -> Option<VolumeRow>
        requires { AllPairs (λ (r s : RowRecord). (r.key < s.key) × (r.lv < s.lv)) self.now.rows.items }
        ensures { result ≡ find (λ (r : RowRecord). nat_eq r.lv lv) self.now.rows.items }
    {
        match self.rows.binary_search_by_key(
            &lv,
            |row: &VolumeRow| -> u32
                ensures { result ≡ row.now.lv }
            { row.lv },
        ) {
            Ok(at) => Some(self.rows[at]),
            Err(_) => None,
        }
    }

    // The number in the group of the volume with this key.
    fn number_of(&self, key: u32) -> Option<u32>
        requires { AllPairs (λ (r s : RowRecord). (r.key < s.key) × (r.lv < s.lv)) self.now.rows.items }
        ensures { result ≡ lv_of self.now key }
    {
        match self.rows.binary_search_by_key(
            &key,
            |row: &VolumeRow| -> u32
                ensures { result ≡ row.now.key }
            { row.key },
        ) {
            Ok(at) => Some(self.rows[at].lv),
            Err(_) => None,
        }
    }

    // The place on its disk of a sector of a physical volume.
    fn on_disk(&self, at: At) -> At
        requires { at.pv < length self.now.disk_of }
        ensures { result ≡ on_disk self.now at }
    {
        At {
            pv: *self.disk_of.get(at.pv as usize),
            sector: at.sector,
        }
    }

    /// Where a sector of the volume with this key is read and written: a sector of a disk.
    pub fn primary(&self, key: u32, sector: u64) -> At
        requires laid { (sizes : List ℕ) × AreLaidOut self.now sizes }
        requires inside { IsTrue (has_sector self.now key sector) }
        ensures { place_of self.now key sector ≡ Some result }
    {
        let Some(group) = &self.group else {
            unreachable!()
        };
        let Some(lv) = self.number_of(key) else {
            unreachable!()
        };
        self.on_disk(primary(group, lv, sector))
    }
}
