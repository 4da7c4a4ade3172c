//! Whether only a move says how much was moved.
ghost use Rattle.std.specs.Prelude.{◌≡◌, ◌≤◌, ◌↔◌, IsTrue, All, MatchOption};
ghost use Rattle.volume_rules.specs.Offences.{FailsAt, IsOffence};
ghost use Rattle.volume_rules.specs.Rules.{MovedIsAllowed, MovedStandsInPvmove};
ghost use Rattle.volume_rules.specs.declared.rule.Rule.TheVariants.{Moved};

use crate::open_group::OpenGroup;
use meta_model::{SegKind, Segment, Segments};

// The first segment that says how much was moved and isn't one of a move of so much, by the numbers of its volume and of
// the segment there.
pub(crate) fn stray_moved(group: &OpenGroup) -> Option<(u64, u64)>
    ensures { MatchOption result (MovedStandsInPvmove group.now) (λ places. IsOffence group.now Moved places.0 places.1) }
{
    for number in 0..group.lvs.len() {
        let (_, lv) = group.lvs.get(number);
        if let Some(segment) = stray_segment(lv.status.is_pvmove(), &lv.segments) {
            return Some((number as u64, segment));
        }
    }
    None
}

fn stray_segment(pvmove: bool, segments: &Segments) -> Option<u64>
    ensures { MatchOption result
        (All (λ segment. MovedIsAllowed pvmove segment.count segment.kind) segments.now)
        (FailsAt (λ segment. MovedIsAllowed pvmove segment.count segment.kind) segments.now) }
{
    for number in 0..segments.len() {
        if !moved_is_allowed(pvmove, segments.get(number)) {
            return Some(number as u64);
        }
    }
    None
}

fn moved_is_allowed(pvmove: bool, segment: &Segment) -> bool
    ensures { IsTrue result ↔ MovedIsAllowed pvmove segment.now.count segment.now.kind }
{
    match &segment.kind {
        SegKind::Striped { .. } => true,
        SegKind::Mirror { moved: None, .. } => true,
        SegKind::Mirror {
            moved: Some(moved),
            ..
        } => pvmove && *moved <= segment.count,
    }
}
