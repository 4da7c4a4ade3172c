//! Whether stripes divide what they are spread over.
ghost use Rattle.std.specs.Prelude.{◌≡◌, ◌≤◌, ◌<◌, ◌%◌, ◌↔◌, IsTrue, All, MatchOption, length};
ghost use Rattle.volume_rules.specs.Offences.{FailsAt, IsOffence};
ghost use Rattle.volume_rules.specs.Rules.{IsPowerOfTwo, IsWholeStriped, StripesAreWhole};
ghost use Rattle.volume_rules.specs.declared.rule.Rule.TheVariants.{Stripes};

use crate::limits::MOST_LEGS;
use crate::open_group::OpenGroup;
use crate::powers::is_power_of_two;
use meta_model::{Legs, SegKind, Segment, Segments};

// The first segment whose stripes aren't whole, by the numbers of its volume and of the segment there.
pub(crate) fn uneven_stripes(group: &OpenGroup) -> Option<(u64, u64)>
    ensures { MatchOption result (StripesAreWhole group.now) (λ places. IsOffence group.now Stripes places.0 places.1) }
{
    let extent_size = group.extent_size;
    for number in 0..group.lvs.len() {
        let (_, lv) = group.lvs.get(number);
        if let Some(segment) = uneven_segment(extent_size, &lv.segments) {
            return Some((number as u64, segment));
        }
    }
    None
}

fn uneven_segment(extent_size: u64, segments: &Segments) -> Option<u64>
    ensures { MatchOption result
        (All (λ segment. IsWholeStriped extent_size segment.count segment.kind) segments.now)
        (FailsAt (λ segment. IsWholeStriped extent_size segment.count segment.kind) segments.now) }
{
    for number in 0..segments.len() {
        if !is_whole_striped(extent_size, segments.get(number)) {
            return Some(number as u64);
        }
    }
    None
}

fn is_whole_striped(extent_size: u64, segment: &Segment) -> bool
    ensures { IsTrue result ↔ IsWholeStriped extent_size segment.now.count segment.now.kind }
{
    match &segment.kind {
        SegKind::Striped { stripe, legs } => {
            stripes_are_whole(extent_size, segment.count, *stripe, legs.len())
        }
        SegKind::Mirror { .. } => true,
    }
}

// Whether the legs share the extents of a segment evenly, and the stripes divide an extent where there are several legs.
fn stripes_are_whole(extent_size: u64, count: u64, stripe: u64, legs: usize) -> bool
    ensures { IsTrue result
        ↔ ((1 ≤ legs) × (legs ≤ 8) × (count % legs ≡ 0) × (1 < legs → IsPowerOfTwo stripe × (8 ≤ stripe) × (extent_size % stripe ≡ 0))) }
{
    1 <= legs
        && legs <= MOST_LEGS
        && count % legs as u64 == 0
        && (legs == 1 || stripe_divides(stripe, extent_size))
}

fn stripe_divides(stripe: u64, extent_size: u64) -> bool
    ensures { IsTrue result ↔ (IsPowerOfTwo stripe × (8 ≤ stripe) × (extent_size % stripe ≡ 0)) }
{
    is_power_of_two(stripe) && 8 <= stripe && extent_size % stripe == 0
}
