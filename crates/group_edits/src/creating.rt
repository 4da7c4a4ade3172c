//! A group with one more logical volume.
ghost use Rattle.std.specs.Prelude.{◌≡◌, ◌≢◌, ◌<◌, ◌^◌, None, IfOk, false};
ghost use Rattle.lvm_id.specs.LvmId.{IsId};
ghost use Rattle.lvm_name.specs.Names.{is_among, volume_name_refusal};
ghost use Rattle.meta_model.specs.Tables.{names_of};
ghost use Rattle.group_edits.specs.GivenSegments.{extents_in, segments_of};
ghost use Rattle.group_edits.specs.NewVolume as specs;

use crate::given_segments::add_segments;
use crate::next::next_of;
use bitflags::Flags;
use extent_alloc::{Given, Part};
use lvm_id::LvmId;
use lvm_name::VolumeName;
use meta_model::{Lv, LvStatus, LvWords, SegKind, Segments, TryCopy};
use sector_base::Text;
use std::alloc::{AllocError, Global};
use vg_check::Checked;

/// The next version of the group, with one more volume behind the others: of this name and id, with a segment of this kind for
/// each of the parts, made at this time.
///
/// # Errors
///
/// Where memory is wanting.
pub fn with_volume(
    alloc: Global,
    group: &Checked,
    name: &VolumeName,
    id: LvmId,
    kind: &SegKind,
    given: &Given,
    now: u64,
) -> Result<Checked, AllocError>
    requires free { is_among (names_of group.now.lvs) name.now ≡ false }
    requires valid { volume_name_refusal name.now ≡ None }
    requires id { IsId id }
    requires volume { specs.MayHave group.now id kind.now given.now now }
    requires seqno { group.now.seqno ≢ 4294967295 }
    ensures { IfOk result (λ next. next ≡ specs.with_volume (name.now, specs.new_lv id kind.now given.now now) group.now) }
{
    let found = group.group();
    let lv = new_lv(alloc, id, kind, given.as_slice(), now)?;
    let name = name.try_copy(alloc)?;
    let mut next = next_of(alloc, found)?;
    if next.lvs.push(name, lv).is_err() {
        return Err(AllocError);
    }
    Ok(Checked::new(next))
}

fn new_lv(
    alloc: Global,
    id: LvmId,
    kind: &SegKind,
    given: &[Part],
    now: u64,
) -> Result<Lv, AllocError>
    requires { extents_in (segments_of kind.now 0 given.now) < 2 ^ 64 }
    ensures { IfOk result (λ lv. lv ≡ specs.new_lv id kind.now given.now now) }
{
    let mut segments = Vec::with_capacity(alloc, given.len())?;
    add_segments(alloc, &mut segments, kind, 0, given)?;
    Ok(Lv {
        id,
        status: LvStatus::of(LvWords::READ.union(LvWords::WRITE).union(LvWords::VISIBLE)),
        created: now,
        host: Text::from_vec(Vec::from_slice(alloc, b"localhost")?),
        segments: Segments::from_vec(segments),
    })
}
