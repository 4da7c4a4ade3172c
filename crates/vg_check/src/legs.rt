//! Whether each leg lies within the volume that it names.
ghost use Rattle.std.specs.Prelude.{◌↔◌, IsTrue, MatchBool, MatchOption, All};
ghost use Rattle.volume_rules.specs.Offences.{IsOffence};
ghost use Rattle.volume_rules.specs.declared.rule.Rule.TheVariants.{Within};
ghost use Rattle.volume_rules.specs.Rules.{KeepsBelow, LegsLieWithin, LiesWithin};
ghost use Rattle.vg_check.specs.Outside.{HasLegOutside, LegsLieInside, SegmentFails};
ghost use Rattle.vg_check.specs.Whole.{SegmentIsWhole};

use crate::extents::{extents, share};
use crate::open_group::OpenGroup;
use meta_model::{On, Segment};

// The numbers of a logical volume and of a segment there of which a leg doesn't lie within the volume that it names: the
// first.
pub(crate) fn leg_outside(group: &OpenGroup) -> Option<(u64, u64)>
    requires { KeepsBelow 9 group.now }
    ensures { MatchOption result (LegsLieWithin group.now) (λ place. IsOffence group.now Within place.0 place.1) }
{
    for number in 0..group.lv_count() {
        let segments = group.lv(number).segments.as_slice();
        if let Some(other) = segment_outside(group, segments) {
            return Some((number as u64, other));
        }
    }
    None
}

// The number of the first segment of these with such a leg.
fn segment_outside(group: &OpenGroup, segments: &[Segment]) -> Option<u64>
    requires below { KeepsBelow 9 group.now }
    requires whole { All SegmentIsWhole segments.now }
    ensures { MatchOption result (All (LegsLieInside group.now) segments.now) (SegmentFails group.now segments.now) }
{
    for (number, segment) in segments.iter().enumerate() {
        if !legs_lie_inside(group, segment) {
            return Some(number as u64);
        }
    }
    None
}

// Whether the legs of a segment lie within the volumes that they name.
fn legs_lie_inside(group: &OpenGroup, segment: &Segment) -> bool
    requires below { KeepsBelow 9 group.now }
    requires whole { SegmentIsWhole segment.now }
    ensures { MatchBool result (LegsLieInside group.now segment.now) (HasLegOutside group.now segment.now) }
{
    let count = share(segment);
    for leg in segment.kind.legs().as_slice() {
        if !lies_within(group, leg.on, leg.first + count) {
            return false;
        }
    }
    true
}

// Whether a run that ends there lies within the extents of its volume.
fn lies_within(group: &OpenGroup, on: On, end: u64) -> bool
    requires { KeepsBelow 9 group.now }
    ensures { IsTrue result ↔ LiesWithin group.now on end }
{
    match on {
        On::Pv(number) => lies_within_pv(group, number as usize, end),
        On::Lv(number) => lies_within_lv(group, number as usize, end),
    }
}

fn lies_within_pv(group: &OpenGroup, number: usize, end: u64) -> bool
    ensures { IsTrue result ↔ LiesWithin group.now (On.Pv number) end }
{
    number < group.pv_count() && end <= group.pv(number).pe_count
}

fn lies_within_lv(group: &OpenGroup, number: usize, end: u64) -> bool
    requires { KeepsBelow 9 group.now }
    ensures { IsTrue result ↔ LiesWithin group.now (On.Lv number) end }
{
    number < group.lv_count() && end <= extents(group.lv(number))
}
