//! The segment of a volume that has a sector.
ghost use Rattle.std.specs.Prelude.{◌≡◌, IsSome, Some};
ghost use Rattle.volume_rules.specs.Rules.{IsAccepted};
ghost use Rattle.volume_view.specs.InSegments.{met};
ghost use Rattle.seg_place.specs.Search.{Halves};
ghost use Rattle.seg_place.specs.Sectors.{segments_in};
ghost use Rattle.seg_place.specs.CodeValues.{seen};

use crate::segment_search::number_with;
use crate::starts::Starts;
use meta_model::{Group, Segment};
use std::sync::ledger::Ledger;
use step_count::Steps;

// A segment that has a sector: its volume, its number there, and how far into it the sector stands.
#[derive(Clone, Copy)]
pub(crate) struct MetSegment<'a> {
    pub(crate) lv: u32,
    pub(crate) number: u32,
    pub(crate) segment: &'a Segment,
    pub(crate) at: u64,
}

// The segment of the volume that has the sector.
pub(crate) fn segment_at<'a, L: Ledger>(
    group: &'a Group,
    lv: u32,
    sector: u64,
    steps: &mut Steps<L>,
) -> MetSegment<'a>
    requires accepted { IsAccepted group.now }
    requires stands { IsSome (met group.now lv sector) }
    ensures met { met group.now lv sector ≡ Some (seen result) }
    ensures steps { Halves (segments_in group.now lv) steps.old steps.new }
{
    let (_, volume) = group.lvs.get(lv as usize);
    let segments = volume.segments.as_slice();
    let number = number_with(&Starts::of(segments), sector / group.extent_size, steps);
    let segment = &segments[number];
    MetSegment {
        lv,
        number: number as u32,
        segment,
        at: sector - segment.start * group.extent_size,
    }
}
