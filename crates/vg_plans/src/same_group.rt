//! Whether the group of a text is the one that was found.
ghost use Rattle.std.specs.Prelude.{◌≡◌, if◌then◌else◌, not, IfOk, Some};
ghost use Rattle.std.specs.Cmp.Lexicographic.{slice_cmp};
ghost use Rattle.std.specs.Ordering.{is_le, nat_cmp};
ghost use Rattle.std.specs.Str.{bytes_eq};
ghost use Rattle.lvm_id.specs.LvmId.{hyphen_form};
ghost use Rattle.line_answers.specs.declared.op_refusal.OpRefusal.TheVariants.{OtherGroup};
ghost use Rattle.group_plan.specs.Ids.{has_pv_id};
ghost use Rattle.group_plan.specs.Judging.{Judges, first_refusal, refused_if};
ghost use Rattle.vg_plans.specs.Vgcfgrestore.{id_lacked, lesser, other_group_rows, other_pvs_row, shown_id};

use group_plan::{PlanRefusal, copied_bytes};
use id_index::Members;
use line_answers::OpRefusal;
use lvm_id::LvmId;
use meta_model::Group;
use scan_rules::same_id;
use sector_base::Text;
use std::alloc::{AllocError, Global};

/// The text's group has the id, the name and the physical volumes of the group that was found.
///
/// # Errors
///
/// `OtherGroup` for the first of these that differs; `NoMemory` where memory is wanting.
pub(crate) fn judge_other(
    alloc: Global,
    said: &Members<'_>,
    found: &Members<'_>,
) -> Result<(), PlanRefusal>
    ensures { Judges result (first_refusal (other_group_rows said.now found.now)) }
{
    judge_id(alloc, said.group(), found.group())?;
    judge_names(alloc, said.group(), found.group())?;
    judge_pvs(alloc, said, found)
}

// They have one id.
fn judge_id(alloc: Global, said: &Group, found: &Group) -> Result<(), PlanRefusal>
    ensures { Judges result (refused_if (not (bytes_eq said.now.id found.now.id)) (OtherGroup (hyphen_form said.now.id) (hyphen_form found.now.id))) }
{
    if same_id(&said.id, &found.id) {
        return Ok(());
    }
    let one = hyphenated(alloc, &said.id)?;
    let other = hyphenated(alloc, &found.id)?;
    Err(PlanRefusal::Refused(OpRefusal::OtherGroup(one, other)))
}

// They have one name.
fn judge_names(alloc: Global, said: &Group, found: &Group) -> Result<(), PlanRefusal>
    ensures { Judges result (refused_if (not (bytes_eq said.now.name found.now.name)) (OtherGroup said.now.name found.now.name)) }
{
    if has_name_of(said, found) {
        return Ok(());
    }
    let one = copied_bytes(alloc, said.name.as_bytes())?;
    let other = copied_bytes(alloc, found.name.as_bytes())?;
    Err(PlanRefusal::Refused(OpRefusal::OtherGroup(one, other)))
}

fn has_name_of(said: &Group, found: &Group) -> bool
    ensures { result ≡ bytes_eq said.now.name found.now.name }
{
    said.name.as_bytes() == found.name.as_bytes()
}

// They have the same physical volumes.
fn judge_pvs(alloc: Global, said: &Members<'_>, found: &Members<'_>) -> Result<(), PlanRefusal>
    ensures { Judges result (other_pvs_row (id_lacked found.now said.now) (id_lacked said.now found.now)) }
{
    let more = id_lacked(found, said.group());
    let fewer = id_lacked(said, found.group());
    if more.is_some() || fewer.is_some() {
        let one = shown_id(alloc, more)?;
        let other = shown_id(alloc, fewer)?;
        return Err(PlanRefusal::Refused(OpRefusal::OtherGroup(one, other)));
    }
    Ok(())
}

// The least id of a physical volume of the group that the other one lacks.
fn id_lacked(other: &Members<'_>, group: &Group) -> Option<LvmId>
    ensures { result ≡ id_lacked other.now group.now }
{
    let mut least = None;
    for place in 0..group.pvs.len() {
        let (_, pv) = group.pvs.get(place);
        least = least_with(other, least, &pv.id);
    }
    least
}

// The least with this one, where the other group lacks it.
fn least_with(other: &Members<'_>, least: Option<LvmId>, id: &LvmId) -> Option<LvmId>
    ensures { result ≡ (if has_pv_id other.now id.now then least else Some (lesser least id.now)) }
{
    if other.has(id) {
        least
    } else {
        Some(lesser(least, id))
    }
}

// The lesser of two.
fn lesser(least: Option<LvmId>, id: &LvmId) -> LvmId
    ensures { result ≡ lesser least id.now }
{
    match least {
        None => *id,
        Some(other) => { if is_at_most(&other, id) { other } else { *id } }
    }
}

// Whether the one isn't behind the other, in the order of their bytes.
fn is_at_most(one: &LvmId, other: &LvmId) -> bool
    ensures { result ≡ is_le (slice_cmp nat_cmp one.now other.now) }
{
    one.plain() <= other.plain()
}

// An id as it prints, and `-` where there is none.
fn shown_id(alloc: Global, id: Option<LvmId>) -> Result<Text, AllocError>
    ensures { IfOk result (λ text. text ≡ shown_id id) }
{
    match id {
        Some(id) => hyphenated(alloc, &id),
        None => copied_bytes(alloc, b"-"),
    }
}

fn hyphenated(alloc: Global, id: &LvmId) -> Result<Text, AllocError>
    ensures { IfOk result (λ text. text ≡ hyphen_form id.now) }
{
    copied_bytes(alloc, &id.hyphen())
}
