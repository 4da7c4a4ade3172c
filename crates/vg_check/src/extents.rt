//! How many extents volumes and legs have.
ghost use Rattle.std.specs.Prelude.{◌≡◌};
ghost use Rattle.volume_rules.specs.Extents.{extents_of, leg_share};
ghost use Rattle.volume_rules.specs.Rules.{Follow, LvIsSmall};
ghost use Rattle.vg_check.specs.Whole.{SegmentIsWhole};

use meta_model::{Lv, SegKind, Segment};

// The extents of a volume: its last segment ends there, since they follow each other.
pub(crate) fn extents(lv: &Lv) -> u64
    requires follow { Follow 0 lv.now.segments }
    requires small { LvIsSmall lv.now }
    ensures { result ≡ extents_of lv.now }
{
    match lv.segments.as_slice().last() {
        None => 0,
        Some(last) => last.start + last.count,
    }
}

// The extents that each leg of a segment covers.
pub(crate) fn share(segment: &Segment) -> u64
    requires { SegmentIsWhole segment.now }
    ensures { result ≡ leg_share segment.now.count segment.now.kind }
{
    match &segment.kind {
        SegKind::Striped { legs, .. } => segment.count / (legs.len() as u64),
        SegKind::Mirror { .. } => segment.count,
    }
}
