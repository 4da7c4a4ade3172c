//! Stripes whose pieces don't divide an extent.
ghost use Rattle.std.specs.Prelude.{◌≡◌};
ghost use Rattle.group_plan.specs.Judging.{Judges};
ghost use Rattle.group_plan.specs.Stripes.{kind_row, segments_row, stripe_row, stripes_row};

use crate::PlanRefusal;
use line_answers::OpRefusal;
use meta_model::{Group, SegKind, Segment};

/// The pieces of so many stripes divide an extent, where there are several: else `BadStripe`.
pub fn judge_stripe(extent_size: u64, stripes: u64, piece: u64) -> Result<(), PlanRefusal>
    ensures { Judges result (stripe_row extent_size stripes piece) }
{
    judged(bad_stripe(extent_size, stripes, piece))
}

/// So do those of each segment of the group: else `BadStripe`, of the first of which they don't.
pub fn judge_stripes(group: &Group) -> Result<(), PlanRefusal>
    ensures { Judges result (stripes_row group.now) }
{
    judged(bad_volume(group))
}

// It is refused so, if at all.
fn judged(refusal: Option<OpRefusal>) -> Result<(), PlanRefusal>
    ensures { Judges result refusal }
{
    match refusal {
        Some(refusal) => Err(PlanRefusal::Refused(refusal)),
        None => Ok(()),
    }
}

fn bad_stripe(extent_size: u64, stripes: u64, piece: u64) -> Option<OpRefusal>
    ensures { result ≡ stripe_row extent_size stripes piece }
{
    if stripes > 1 && (piece == 0 || extent_size % piece != 0) {
        return Some(OpRefusal::BadStripe(piece, extent_size));
    }
    None
}

// The refusal of the first volume that has one.
fn bad_volume(group: &Group) -> Option<OpRefusal>
    ensures { result ≡ stripes_row group.now }
{
    for place in 0..group.lvs.len() {
        let (_, lv) = group.lvs.get(place);
        if let Some(refusal) = bad_segment(group.extent_size, lv.segments.as_slice()) {
            return Some(refusal);
        }
    }
    None
}

// That of the first of these segments.
fn bad_segment(extent_size: u64, segments: &[Segment]) -> Option<OpRefusal>
    ensures { result ≡ segments_row extent_size segments.now }
{
    for segment in segments {
        if let Some(refusal) = bad_kind(extent_size, &segment.kind) {
            return Some(refusal);
        }
    }
    None
}

fn bad_kind(extent_size: u64, kind: &SegKind) -> Option<OpRefusal>
    ensures { result ≡ kind_row extent_size kind.now }
{
    match kind {
        SegKind::Striped { stripe, legs } => bad_stripe(extent_size, legs.len() as u64, *stripe),
        SegKind::Mirror { .. } => None,
    }
}
