//! A group as a text has it, as the next version of the one in force.
ghost use Rattle.std.specs.Prelude.{◌≡◌, ◌≢◌, ◌<◌, false, IfOk, map};
ghost use Rattle.group_edits.specs.RestoredGroup as specs;

use meta_model::{Group, Pv, PvTable};
use sector_base::Text;
use std::alloc::{AllocError, Global};
use vg_check::Checked;

/// The text's group with the number behind the greater one of both, where each physical volume is there.
///
/// # Errors
///
/// Where memory is wanting.
pub fn restored_group(alloc: Global, found: &Checked, said: &Checked) -> Result<Checked, AllocError>
    requires found { found.now.seqno ≢ 4294967295 }
    requires said { said.now.seqno ≢ 4294967295 }
    ensures { IfOk result (λ next. next ≡ specs.restored_group found.now said.now) }
{
    let next = restored(alloc, found.group(), said.group())?;
    Ok(Checked::new(next))
}

// The same of groups by themselves.
fn restored(alloc: Global, found: &Group, said: &Group) -> Result<Group, AllocError>
    requires found { found.now.seqno < 4294967295 }
    requires said { said.now.seqno < 4294967295 }
    ensures { IfOk result (λ next. next ≡ specs.restored_group found.now said.now) }
{
    let greater = found.seqno.max(said.seqno);
    let pvs = found_pvs(alloc, &said.pvs)?;
    let mut next = said.try_copy(alloc)?;
    next.seqno = greater + 1;
    next.pvs = pvs;
    Ok(next)
}

// The physical volumes, each of which is there.
fn found_pvs(alloc: Global, pvs: &PvTable) -> Result<PvTable, AllocError>
    ensures { IfOk result (λ all. all ≡ map specs.found_pv pvs.now) }
{
    let mut all = PvTable::new(alloc);
    for place in 0..pvs.len() {
        let (name, pv) = pvs.get(place);
        let name = name.try_copy(alloc)?;
        let pv = there(alloc, pv)?;
        if all.push(name, pv).is_err() {
            return Err(AllocError);
        }
    }
    Ok(all)
}

fn there(alloc: Global, pv: &Pv) -> Result<Pv, AllocError>
    ensures { IfOk result (λ copy. copy ≡ (record pv.now { missing = false })) }
{
    Ok(Pv {
        id: pv.id,
        device: Text::from_vec(Vec::from_slice(alloc, pv.device.as_bytes())?),
        allocatable: pv.allocatable,
        missing: false,
        dev_size: pv.dev_size,
        pe_start: pv.pe_start,
        pe_count: pv.pe_count,
    })
}
