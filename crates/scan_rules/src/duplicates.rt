//! Physical volumes that were found twice.
ghost use Rattle.std.specs.Prelude.{◌≡◌, ◌≤◌, [], length, IfOk};
ghost use Rattle.scan_rules.specs.Decision.{first_duplicate, ids_from};
ghost use Rattle.scan_rules.specs.Found.{disks_by_id};
ghost use Rattle.scan_rules.specs.Readings.{readings_of};

use crate::readings::DiskRead;
use id_index::IdMap;
use lvm_id::LvmId;
use std::alloc::{AllocError, Global};

// The ids of the physical volumes that were found, each with its disk.
pub(crate) fn found_ids(alloc: Global, disks: &[DiskRead]) -> Result<Vec<(u32, LvmId)>, AllocError>
    requires { length disks.now ≤ 64 }
    ensures { IfOk result (λ ids. ids.items ≡ ids_from 0 (readings_of [] disks.now)) }
{
    let mut ids = Vec::new(alloc);
    for (number, disk) in disks.iter().enumerate() {
        if let Some(pv) = &disk.pv {
            ids.push((number as u32, pv.id))?;
        }
    }
    Ok(ids)
}

// The first disk of each of these ids; and the first disk whose id comes again, with the first that repeats it.
pub(crate) fn index_ids(
    alloc: Global,
    ids: &[(u32, LvmId)],
) -> Result<(IdMap, Option<(u32, u32)>), AllocError>
    ensures { IfOk result (λ found. (found.0 ≡ disks_by_id ids.now) × (found.1 ≡ first_duplicate ids.now)) }
{
    let mut by_id = IdMap::new(alloc);
    let mut repeated = None;
    for i in (0..ids.len()).rev() {
        let (disk, id) = &ids[i];
        if let Some(other) = by_id.get(id) {
            repeated = Some((*disk, other));
        }
        by_id.insert(id, *disk)?;
    }
    Ok((by_id, repeated))
}
