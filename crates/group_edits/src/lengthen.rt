//! A group in which a logical volume has more extents.
ghost use Rattle.std.specs.Prelude.{◌≡◌, ◌≢◌, ℕ, IfOk, IsSomeAnd, All, map};
ghost use Rattle.meta_model.specs.declared.lv.Lv.{Lv as Row};
ghost use Rattle.group_edits.specs.LongerVolume as specs;
ghost use Rattle.group_edits.specs.NextVersion.{changed_if};
ghost use Rattle.group_edits.specs.Visible.{visible_named};

use crate::finding::is_volume;
use crate::given_segments::add_segments;
use crate::next::with_lvs;
use extent_alloc::{Given, Part};
use lvm_name::VolumeName;
use meta_model::{Lv, LvTable, Segment, Segments, TryCopy};
use sector_base::Text;
use std::alloc::{AllocError, Global};
use vg_check::Checked;

/// The next version of the group, in which the visible volume of this name has a segment for each of these parts, behind its
/// own and of the kind of its last one.
///
/// # Errors
///
/// Where memory is wanting.
pub fn longer_volume(
    alloc: Global,
    group: &Checked,
    name: &Text,
    given: &Given,
) -> Result<Checked, AllocError>
    requires grows { IsSomeAnd (visible_named group.now name.now) (λ (volume : ℕ × Row). specs.MayGrow group.now volume.1 given.now) }
    requires seqno { group.now.seqno ≢ 4294967295 }
    ensures { IfOk result (λ next. next ≡ specs.longer_volume name.now given.now group.now) }
{
    let found = group.group();
    let lvs = longer_lvs(alloc, &found.lvs, name, given.as_slice())?;
    let next = with_lvs(alloc, found, lvs)?;
    Ok(Checked::new(next))
}

// The volumes, where the one of this name is longer. That no name stands twice isn't asked, as in `renamed_volume`.
fn longer_lvs(
    alloc: Global,
    lvs: &LvTable,
    name: &Text,
    given: &[Part],
) -> Result<LvTable, AllocError>
    requires { All (specs.CanBeLongerIf name.now given.now) lvs.now }
    ensures { IfOk result (λ all. all ≡ map (changed_if name.now (specs.longer_row given.now)) lvs.now) }
{
    let mut all = LvTable::new(alloc);
    for number in 0..lvs.len() {
        let (own, lv) = lvs.get(number);
        let next = longer_if(alloc, own, lv, name, given)?;
        let own = own.try_copy(alloc)?;
        if all.push(own, next).is_err() {
            return Err(AllocError);
        }
    }
    Ok(all)
}

// The volume, longer where it has this name.
fn longer_if(
    alloc: Global,
    own: &VolumeName,
    lv: &Lv,
    name: &Text,
    given: &[Part],
) -> Result<Lv, AllocError>
    requires { specs.CanBeLongerIf name.now given.now (own.now, lv.now) }
    ensures { IfOk result (λ next. (own.now, next) ≡ changed_if name.now (specs.longer_row given.now) (own.now, lv.now)) }
{
    if is_volume(own, name) {
        longer(alloc, lv, given)
    } else {
        lv.try_copy(alloc)
    }
}

fn longer(alloc: Global, lv: &Lv, given: &[Part]) -> Result<Lv, AllocError>
    requires { specs.CanBeLonger given.now lv.now }
    ensures { IfOk result (λ next. next ≡ specs.longer given.now lv.now) }
{
    Ok(Lv {
        id: lv.id,
        status: lv.status,
        created: lv.created,
        host: Text::from_vec(Vec::from_slice(alloc, lv.host.as_bytes())?),
        segments: Segments::from_vec(longer_segments(alloc, lv, given)?),
    })
}

// Its segments, and those of the parts. The last of its own ends where these begin.
fn longer_segments(alloc: Global, lv: &Lv, given: &[Part]) -> Result<Vec<Segment>, AllocError>
    requires { specs.CanBeLonger given.now lv.now }
    ensures { IfOk result (λ segments. segments.items ≡ (specs.longer given.now lv.now).segments) }
{
    let mut segments = copied(alloc, lv.segments.as_slice())?;
    if let Some(last) = lv.segments.as_slice().last() {
        add_segments(
            alloc,
            &mut segments,
            &last.kind,
            last.start + last.count,
            given,
        )?;
    }
    Ok(segments)
}

fn copied(alloc: Global, segments: &[Segment]) -> Result<Vec<Segment>, AllocError>
    ensures { IfOk result (λ copies. copies.items ≡ segments.now) }
{
    let mut copies = Vec::with_capacity(alloc, segments.len())?;
    for segment in segments {
        copies.push(segment.try_copy(alloc)?)?;
    }
    Ok(copies)
}
