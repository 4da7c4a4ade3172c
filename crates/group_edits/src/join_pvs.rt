//! A group with further physical volumes.
ghost use Rattle.std.specs.Prelude.{◌≡◌, ◌<◌, ◌+◌, ◌^◌, length, IfOk};
ghost use Rattle.meta_model.specs.Standing.{HasTree};
ghost use Rattle.volume_rules.specs.Rules.{IsAccepted};
ghost use Rattle.group_edits.specs.JoinedGroup as specs;

use crate::naming::free_name;
use meta_model::{Group, LvTable, PushRefusal, Pv, PvTable, TryCopy};
use std::alloc::{AllocError, Global};
use vg_check::Checked;

/// The group with these physical volumes behind its own, each named `pvN` with the least number that no volume has.
///
/// # Errors
///
/// Where memory is wanting.
pub fn joined_group(alloc: Global, base: Group, more: &[Pv]) -> Result<Checked, AllocError>
    requires few { length base.pvs + length base.lvs + length more.now < 2 ^ 32 }
    requires accepted { IsAccepted (specs.joined_group base more.now) }
    requires tree { HasTree (specs.joined_group base more.now) }
    ensures { IfOk result (λ group. group ≡ specs.joined_group base more.now) }
{
    let Group {
        name,
        id,
        seqno,
        status,
        extent_size,
        max_lv,
        max_pv,
        copies,
        mut pvs,
        lvs,
    } = base;
    push_all(alloc, &mut pvs, &lvs, more)?;
    Ok(Checked::new(Group {
        name,
        id,
        seqno,
        status,
        extent_size,
        max_lv,
        max_pv,
        copies,
        pvs,
        lvs,
    }))
}

// Puts these physical volumes behind the others, each with a name that no volume has.
fn push_all(alloc: Global, pvs: &mut PvTable, lvs: &LvTable, more: &[Pv]) -> Result<(), AllocError>
    requires few { length pvs.old + length lvs.now + length more.now < 2 ^ 32 }
    ensures { IfOk result (λ _. pvs.new ≡ specs.with_pvs lvs.now pvs.old more.now) }
{
    let mut from = 0;
    for pv in more {
        let (name, number) = free_name(alloc, pvs, lvs, from)?;
        from = number + 1;
        let copy = pv.try_copy(alloc)?;
        match pvs.push(name, copy) {
            Ok(()) => {}
            Err(PushRefusal::NoMemory) => return Err(AllocError),
            Err(PushRefusal::Taken(_)) => unreachable!(),
        }
    }
    Ok(())
}
