//! Physical volumes of the group that weren't found.
ghost use Rattle.std.specs.Prelude.{◌≡◌, ◌||◌, not, IfOk};
ghost use Rattle.std.specs.FinMap as map;
ghost use Rattle.scan_rules.specs.Found.{missing_by};

use id_index::IdMap;
use lvm_id::LvmId;
use meta_model::{Group, Pv};
use std::alloc::{AllocError, Global};

// The ids of the physical volumes that are on no disk, or were away when the group's text was written.
pub(crate) fn missing_ids(
    alloc: Global,
    group: &Group,
    found: &IdMap,
) -> Result<Vec<LvmId>, AllocError>
    ensures { IfOk result (λ missing. missing.items ≡ missing_by found.now group.now.pvs) }
{
    let mut missing = Vec::new(alloc);
    for i in 0..group.pvs.len() {
        let (_, pv) = group.pvs.get(i);
        if is_missing(pv, found) {
            missing.push(pv.id)?;
        }
    }
    Ok(missing)
}

// Whether the physical volume is on no disk, or was away when the group's text was written.
fn is_missing(pv: &Pv, found: &IdMap) -> bool
    ensures { result ≡ (pv.now.missing || not (map.contains_key found.now pv.now.id)) }
{
    pv.missing || !found.contains(&pv.id)
}
