//! One step down: where a leg has a sector of its segment.
ghost use Rattle.std.specs.Prelude.{◌≡◌, ◌<◌, ◌^◌, Some, length};
ghost use Rattle.meta_model.specs.Runs.{legs_of};
ghost use Rattle.volume_rules.specs.Rules.{IsAccepted};
ghost use Rattle.volume_view.specs.InSegments.{leg_spot, primary_spot};
ghost use Rattle.seg_place.specs.CodeValues.{IsMet, as_spot, seen};

use crate::legs::{offset_in, primary_leg};
use crate::met_segment::MetSegment;
use meta_model::{Group, On};

// A sector of what a leg lies on, counted from the first extent there.
#[derive(Clone, Copy)]
pub(crate) struct Spot {
    pub(crate) on: On,
    pub(crate) sector: u64,
}

// Where the leg with this number has the sector.
pub(crate) fn leg_spot(group: &Group, met: MetSegment<'_>, leg: usize) -> Spot
    requires accepted { IsAccepted group.now }
    requires met { IsMet group.now (seen met) }
    requires within { leg < length (legs_of met.segment.now.kind) }
    ensures spot { leg_spot group.now.extent_size (seen met.entry) leg ≡ Some (as_spot result) }
    ensures small { result.sector < 2 ^ 48 }
{
    let offset = offset_in(&met.segment.kind, met.at);
    let leg = met.segment.kind.legs().as_slice()[leg];
    Spot {
        on: leg.on,
        sector: leg.first * group.extent_size + offset,
    }
}

// Where the leg that is read has it.
pub(crate) fn primary_spot(group: &Group, met: MetSegment<'_>) -> Spot
    requires accepted { IsAccepted group.now }
    requires met { IsMet group.now (seen met) }
    ensures spot { primary_spot group.now.extent_size (seen met.entry) ≡ Some (as_spot result) }
    ensures small { result.sector < 2 ^ 48 }
{
    leg_spot(group, met, primary_leg(met.segment, met.at))
}
