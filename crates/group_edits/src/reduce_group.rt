//! A group without a physical volume on which no leg lies.
ghost use Rattle.std.specs.Prelude.{◌≡◌, ◌≢◌, ◌≤◌, ◌<◌, ◌+◌, false, length, map, take, IfOk};
ghost use Rattle.std.specs.List.{list_any, remove};
ghost use Rattle.group_edits.specs.ReducedGroup as specs;
ghost use Rattle.group_edits.specs.Renumbered.{renumbered_row};

use crate::leg_numbers::{Numbering, renumbered_lv};
use crate::next::next_of;
use meta_model::{Group, Leg, Lv, LvTable, On, PvTable, TryCopy};
use std::alloc::{AllocError, Global};
use vg_check::Checked;

/// The next version of the group without the physical volume with this number, on which no leg lies.
///
/// # Errors
///
/// Where memory is wanting.
pub fn reduced_group(alloc: Global, group: &Checked, number: u32) -> Result<Checked, AllocError>
    requires within { number < length group.now.pvs }
    requires unused { specs.has_leg_on_pv group.now number ≡ false }
    requires more { length group.now.pvs ≢ 1 }
    requires seqno { group.now.seqno ≢ 4294967295 }
    ensures { IfOk result (λ next. next ≡ specs.reduced_group group.now number) }
{
    let found = group.group();
    let next = without_pv(alloc, found, number)?;
    Ok(Checked::new(next))
}

// The next version without this physical volume.
fn without_pv(alloc: Global, group: &Group, number: u32) -> Result<Group, AllocError>
    requires { group.now.seqno ≤ 4294967295 }
    ensures { IfOk result (λ next. next ≡ specs.reduced_group group.now number) }
{
    let pvs = pvs_without(alloc, &group.pvs, number)?;
    let lvs = lvs_without(alloc, &group.lvs, &WithoutPv { number })?;
    let mut next = next_of(alloc, group)?;
    next.pvs = pvs;
    next.lvs = lvs;
    Ok(next)
}

// ---- what lies on it

/// Whether a leg of a volume of the group lies on the physical volume with this number.
pub fn has_leg_on_pv(group: &Group, number: u32) -> bool
    ensures { result ≡ specs.has_leg_on_pv group.now number }
{
    for place in 0..group.lvs.len() {
        let (_, lv) = group.lvs.get(place);
        if lies_on_pv(lv, number) {
            return true;
        }
    }
    false
}

fn lies_on_pv(lv: &Lv, number: u32) -> bool
    ensures { result ≡ specs.lies_on_pv number lv.now }
{
    for segment in lv.segments.as_slice() {
        if is_among(segment.kind.legs().as_slice(), number) {
            return true;
        }
    }
    false
}

fn is_among(legs: &[Leg], number: u32) -> bool
    ensures { result ≡ list_any (specs.leg_is_on_pv number) legs.now }
{
    for leg in legs {
        if is_on_pv(leg.on, number) {
            return true;
        }
    }
    false
}

fn is_on_pv(on: On, number: u32) -> bool
    ensures { result ≡ specs.is_on_pv number on }
{
    match on {
        On::Pv(pv) => pv == number,
        On::Lv(_) => false,
    }
}

// ---- the tables without it

// The numbers of volumes where the physical volume with this number goes.
#[derive(Debug, Drop)]
struct WithoutPv {
    number: u32,
}

impl Numbering for WithoutPv {
    ghost new_of = { λ without. specs.on_without_pv without.number };

    fn new_on(&self, on: On) -> On {
        match on {
            On::Pv(pv) => On::Pv(if self.number < pv { pv - 1 } else { pv }),
            On::Lv(lv) => On::Lv(lv),
        }
    }
}

// The physical volumes but the one with this number.
fn pvs_without(alloc: Global, pvs: &PvTable, number: u32) -> Result<PvTable, AllocError>
    ensures { IfOk result (λ rest. rest ≡ remove pvs.now number) }
{
    let mut rest = PvTable::new(alloc);
    for place in 0..pvs.len() {
        push_other(alloc, &mut rest, pvs, place, number)?;
    }
    Ok(rest)
}

// The physical volume at this place goes last, where it isn't the one with this number.
fn push_other(
    alloc: Global,
    rest: &mut PvTable,
    pvs: &PvTable,
    place: usize,
    number: u32,
) -> Result<(), AllocError>
    requires within { place < length pvs.now }
    requires front { rest.old ≡ remove (take place pvs.now) number }
    ensures { IfOk result (λ _. rest.new ≡ remove (take (place + 1) pvs.now) number) }
{
    if place == number as usize {
        return Ok(());
    }
    let (name, pv) = pvs.get(place);
    let name = name.try_copy(alloc)?;
    let pv = pv.try_copy(alloc)?;
    if rest.push(name, pv).is_err() {
        return Err(AllocError);
    }
    Ok(())
}

// The logical volumes, with legs on physical volumes by their new numbers. That no name stands twice isn't asked, as in
// `renamed_volume`.
fn lvs_without(alloc: Global, lvs: &LvTable, without: &WithoutPv) -> Result<LvTable, AllocError>
    ensures { IfOk result (λ rest. rest ≡ map (renumbered_row (specs.on_without_pv without.now.number)) lvs.now) }
{
    let mut rest = LvTable::new(alloc);
    for place in 0..lvs.len() {
        let (name, lv) = lvs.get(place);
        let name = name.try_copy(alloc)?;
        let lv = renumbered_lv(alloc, lv, without)?;
        if rest.push(name, lv).is_err() {
            return Err(AllocError);
        }
    }
    Ok(rest)
}
