//! The names of physical volumes in the text of their group.
ghost use Rattle.std.specs.Prelude.{◌≡◌, ◌+◌, ◌≤◌, ◌<◌, ◌^◌, length, not, IfOk};
ghost use Rattle.lvm_name.specs.Names.{is_among};
ghost use Rattle.group_edits.specs.JoinedGroup.{free_number, names_in, pv_name};

use lvm_name::{NameRefusal, VolumeName};
use meta_model::{LvTable, PvTable};
use std::alloc::{AllocError, Global};

/// `pv` and the least number with which no physical and no logical volume is named, and that number. It is sought from this one
/// on, below which none is free.
///
/// # Errors
///
/// Where memory is wanting.
pub(crate) fn free_name(
    alloc: Global,
    pvs: &PvTable,
    lvs: &LvTable,
    from: usize,
) -> Result<(VolumeName, usize), AllocError>
    requires few { length pvs.now + length lvs.now < 2 ^ 32 }
    requires taken { from ≤ free_number (names_in pvs.now lvs.now) }
    ensures name { IfOk result (λ free. free.0 ≡ pv_name (free_number (names_in pvs.now lvs.now))) }
    ensures number { IfOk result (λ free. free.1 ≡ free_number (names_in pvs.now lvs.now)) }
    ensures within { IfOk result (λ free. free.1 ≤ length pvs.now + length lvs.now) }
{
    for number in from..pvs.len() + lvs.len() + 1 {
        let name = pv_name(alloc, number as u64)?;
        if is_free(pvs, lvs, &name) {
            return Ok((name, number));
        }
    }
    unreachable!()
}

// Whether neither a physical nor a logical volume has the name.
fn is_free(pvs: &PvTable, lvs: &LvTable, name: &VolumeName) -> bool
    ensures { result ≡ not (is_among (names_in pvs.now lvs.now) name.now) }
{
    let in_pvs = pvs.contains(name);
    if in_pvs {
        return false;
    }
    let in_lvs = lvs.contains(name);
    !in_lvs
}

// `pv` and the number.
fn pv_name(alloc: Global, number: u64) -> Result<VolumeName, AllocError>
    ensures { IfOk result (λ name. name ≡ pv_name number) }
{
    let text = format!(in alloc; "pv{number}")?;
    match VolumeName::any(alloc, text.as_bytes()) {
        Ok(name) => Ok(name),
        Err(NameRefusal::NoMemory) => Err(AllocError),
        Err(_) => unreachable!(),
    }
}
