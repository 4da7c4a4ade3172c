//! A group in which a logical volume has its first extents alone.
ghost use Rattle.std.specs.Prelude.{◌≡◌, ◌≢◌, ◌≤◌, ◌<◌, ◌^◌, ◌+◌, ℕ, List, IfOk, IsSomeAnd, All, if◌then◌else◌, map};
ghost use Rattle.std.specs.Str.{bytes_eq};
ghost use Rattle.meta_model.specs.declared.lv.Lv.{Lv as Volume};
ghost use Rattle.meta_model.specs.declared.segment.Segment.{Segment as Part};
ghost use Rattle.volume_rules.specs.Extents.{extents_of};
ghost use Rattle.group_edits.specs.NextVersion.{changed_if};
ghost use Rattle.group_edits.specs.ShortenedVolume as specs;
ghost use Rattle.group_edits.specs.Visible.{visible_named};

use crate::finding::is_volume;
use crate::next::with_lvs;
use lvm_name::VolumeName;
use meta_model::{Leg, Lv, LvTable, On, SegKind, Segment, Segments, TryCopy};
use sector_base::Text;
use std::alloc::{AllocError, Global};
use vg_check::Checked;

/// How many extents the volume has.
pub fn extents(lv: &Lv) -> u64
    requires { extents_of lv.now < 2 ^ 48 }
    ensures { result ≡ extents_of lv.now }
{
    let mut count = 0;
    for segment in lv.segments.as_slice() {
        count += segment.count;
    }
    count
}

/// How many extents the volume keeps where so many are said: the segment that is cut keeps whole stripes.
pub fn kept_extents(lv: &Lv, said: u64) -> u64
    requires legs { All (λ (segment : Part). specs.HasFewLegs segment.kind) lv.now.segments }
    requires few { extents_of lv.now < 2 ^ 48 }
    ensures { result ≡ specs.kept_of lv.now.segments said }
{
    let mut before = 0;
    let mut left = said;
    for segment in lv.segments.as_slice() {
        if left <= segment.count {
            return before + whole_stripes(left, &segment.kind);
        }
        before += segment.count;
        left -= segment.count;
    }
    before + left
}

// So many extents of a segment, rounded up to a multiple of its stripes.
fn whole_stripes(count: u64, kind: &SegKind) -> u64
    requires legs { specs.HasFewLegs kind.now }
    requires few { count < 2 ^ 48 }
    ensures value { result ≡ specs.whole_stripes count kind.now }
    ensures few { result ≤ count + 8 }
{
    match kind {
        SegKind::Striped { legs, .. } => {
            let stripes = legs.len() as u64;
            count.div_ceil(stripes) * stripes
        }
        SegKind::Mirror { .. } => count,
    }
}

/// Whether a leg of the volume lies on another logical volume.
pub fn is_layered(lv: &Lv) -> bool
    ensures { result ≡ specs.is_layered lv.now }
{
    for segment in lv.segments.as_slice() {
        if has_layer(segment) {
            return true;
        }
    }
    false
}

fn has_layer(segment: &Segment) -> bool
    ensures { result ≡ specs.has_layer segment.now }
{
    for leg in segment.kind.legs().as_slice() {
        if is_on_lv(leg) {
            return true;
        }
    }
    false
}

fn is_on_lv(leg: &Leg) -> bool
    ensures { result ≡ specs.is_on_lv leg.now }
{
    match leg.on {
        On::Pv(_) => false,
        On::Lv(_) => true,
    }
}

/// The next version of the group, in which the visible volume of this name has its first extents alone, so many.
///
/// # Errors
///
/// Where memory is wanting.
pub fn shortened_volume(
    alloc: Global,
    group: &Checked,
    name: &Text,
    left: u64,
) -> Result<Checked, AllocError>
    requires may { IsSomeAnd (visible_named group.now name.now) (λ (volume : ℕ × Volume). specs.MayKeep left volume.1) }
    requires seqno { group.now.seqno ≢ 4294967295 }
    ensures { IfOk result (λ next. next ≡ specs.shortened_volume name.now left group.now) }
{
    let found = group.group();
    let lvs = shortened_lvs(alloc, &found.lvs, name, left)?;
    let next = with_lvs(alloc, found, lvs)?;
    Ok(Checked::new(next))
}

// The volumes, where the one of this name has its first extents alone. That no name stands twice isn't asked, as in
// `renamed_volume`.
fn shortened_lvs(
    alloc: Global,
    lvs: &LvTable,
    name: &Text,
    left: u64,
) -> Result<LvTable, AllocError>
    ensures { IfOk result (λ all. all ≡ map (changed_if name.now (λ (row : List ℕ × Volume). (row.0, specs.shortened left row.1))) lvs.now) }
{
    let mut all = LvTable::new(alloc);
    for number in 0..lvs.len() {
        let (own, lv) = lvs.get(number);
        let copy = copy_of(alloc, own, lv, name, left)?;
        if all.push(own.try_copy(alloc)?, copy).is_err() {
            return Err(AllocError);
        }
    }
    Ok(all)
}

// The volume again, with its first extents alone where it has this name.
fn copy_of(
    alloc: Global,
    own: &VolumeName,
    lv: &Lv,
    name: &Text,
    left: u64,
) -> Result<Lv, AllocError>
    ensures { IfOk result (λ copy. copy ≡ (if bytes_eq own.now name.now then specs.shortened left lv.now else lv.now)) }
{
    if is_volume(own, name) {
        shortened(alloc, lv, left)
    } else {
        lv.try_copy(alloc)
    }
}

// The volume with its first extents alone.
fn shortened(alloc: Global, lv: &Lv, left: u64) -> Result<Lv, AllocError>
    ensures { IfOk result (λ short. short ≡ specs.shortened left lv.now) }
{
    Ok(Lv {
        id: lv.id,
        status: lv.status,
        created: lv.created,
        host: Text::from_vec(Vec::from_slice(alloc, lv.host.as_bytes())?),
        segments: Segments::from_vec(front_of(alloc, lv.segments.as_slice(), left)?),
    })
}

// The first so many extents of these segments.
fn front_of(alloc: Global, segments: &[Segment], count: u64) -> Result<Vec<Segment>, AllocError>
    ensures { IfOk result (λ front. front.items ≡ specs.front_of segments.now count) }
{
    let mut front = Vec::new(alloc);
    let mut left = count;
    for segment in segments {
        if left == 0 {
            break;
        }
        let mut copy = segment.try_copy(alloc)?;
        copy.count = segment.count.min(left);
        front.push(copy)?;
        left -= segment.count.min(left);
    }
    Ok(front)
}
