//! The numbers of volumes by their ids.
ghost use Rattle.std.specs.Prelude.{◌≡◌, ◌≤◌, ◌^◌, IfOk, length};
ghost use Rattle.id_index.specs.Ids.{lvs_by_id, pvs_by_id};

use crate::IdMap;
use meta_model::{LvTable, PvTable};
use std::alloc::{AllocError, Global};

/// The number of each of these physical volumes by its id; of those with one id that of the first.
///
/// # Errors
///
/// Where memory is wanting.
pub fn pvs_by_id(alloc: Global, pvs: &PvTable) -> Result<IdMap, AllocError>
    requires few { length pvs.now ≤ 2 ^ 32 }
    ensures { IfOk result (λ numbers. numbers ≡ pvs_by_id 0 pvs.now) }
{
    let mut numbers = IdMap::new(alloc);
    for number in (0..pvs.len()).rev() {
        let (_, pv) = pvs.get(number);
        numbers.insert(&pv.id, number as u32)?;
    }
    Ok(numbers)
}

/// The number of each of these logical volumes by its id; of those with one id that of the first.
///
/// # Errors
///
/// Where memory is wanting.
pub fn lvs_by_id(alloc: Global, lvs: &LvTable) -> Result<IdMap, AllocError>
    requires few { length lvs.now ≤ 2 ^ 32 }
    ensures { IfOk result (λ numbers. numbers ≡ lvs_by_id 0 lvs.now) }
{
    let mut numbers = IdMap::new(alloc);
    for number in (0..lvs.len()).rev() {
        let (_, lv) = lvs.get(number);
        numbers.insert(&lv.id, number as u32)?;
    }
    Ok(numbers)
}
