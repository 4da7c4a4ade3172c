//! Regions of mirror segments.
ghost use Rattle.std.specs.Prelude.{◌≡◌, ◌≤◌, ◌/◌, None, Some, if◌then◌else◌, option_map};
ghost use Rattle.volume_view.specs.InSegments.{region_of};
ghost use Rattle.volume_view.specs.Places.{mirror_of};
ghost use Rattle.seg_place.specs.Legs.{HasLegs};
ghost use Rattle.seg_place.specs.CodeValues.{as_mirror, seen};

use crate::legs::is_finished;
use crate::met_segment::MetSegment;
use meta_model::{SegKind, Segment};

/// A region of a mirror segment: the number of its volume in the group, of the segment there, and of the region there.
#[derive(Clone, Copy, Debug, Drop, PartialEq, Eq)]
pub struct MirrorAt {
    pub lv: u32,
    pub segment: u32,
    pub region: u64,
}

// The region of the sector in its segment; there is none in a striped one and in a finished move.
pub(crate) fn mirror_of(met: MetSegment<'_>) -> Option<MirrorAt>
    requires { HasLegs met.segment.now.kind }
    ensures { option_map as_mirror result ≡ mirror_of (seen met.entry) }
{
    match region_of(met.segment, met.at) {
        None => None,
        Some(region) => Some(MirrorAt {
            lv: met.lv,
            segment: met.number,
            region,
        }),
    }
}

// The number of the region.
fn region_of(segment: &Segment, at: u64) -> Option<u64>
    requires { HasLegs segment.now.kind }
    ensures { result ≡ region_of segment.now.count segment.now.kind at }
{
    match &segment.kind {
        SegKind::Striped { .. } => None,
        SegKind::Mirror { region, moved, .. } => {
            region_unless(is_finished(segment.count, *moved), *region, at)
        }
    }
}

fn region_unless(finished: bool, region: u64, at: u64) -> Option<u64>
    requires { 1 ≤ region }
    ensures { result ≡ (if finished then None else Some (at / region)) }
{
    if finished { None } else { Some(at / region) }
}
