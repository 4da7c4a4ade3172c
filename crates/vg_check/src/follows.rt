//! Whether the segments of each logical volume follow each other.
ghost use Rattle.std.specs.Prelude.{◌≡◌, ◌*◌, ◌^◌, ◌<◌, ◌≤◌, ◌↔◌, IsTrue, All, MatchOption, sum_by};
ghost use Rattle.volume_rules.specs.Extents.{extents_of};
ghost use Rattle.volume_rules.specs.Offences.{FailsAt, IsOffence};
ghost use Rattle.volume_rules.specs.Rules.{Follow, KeepsBelow, SegmentsFollow};
ghost use Rattle.volume_rules.specs.declared.rule.Rule.TheVariants.{Follows};

use crate::limits::TOO_LARGE;
use crate::open_group::OpenGroup;
use meta_model::{Lv, LvRows, Segments};

// The first logical volume whose segments don't follow each other, or that is too large.
pub(crate) fn lv_with_gap(group: &OpenGroup) -> Option<u64>
    ensures { MatchOption result (SegmentsFollow group.now) (λ at. IsOffence group.now Follows at 0) }
{
    first_with_gap(group.extent_size, &group.lvs)
}

fn first_with_gap(extent_size: u64, lvs: &LvRows) -> Option<u64>
    ensures { MatchOption result
        (All (λ lv. Follow 0 lv.1.segments × (extents_of lv.1 * extent_size < 2 ^ 48)) lvs.now)
        (FailsAt (λ lv. Follow 0 lv.1.segments × (extents_of lv.1 * extent_size < 2 ^ 48)) lvs.now) }
{
    for number in 0..lvs.len() {
        let (_, lv) = lvs.get(number);
        if !is_whole(extent_size, lv) {
            return Some(number as u64);
        }
    }
    None
}

// Whether the segments of the volume follow each other, and it isn't too large.
fn is_whole(extent_size: u64, lv: &Lv) -> bool
    ensures { IsTrue result ↔ (Follow 0 lv.now.segments × (extents_of lv.now * extent_size < 2 ^ 48)) }
{
    match end_of_segments(&lv.segments) {
        Some(end) => sectors_are_few(end, extent_size),
        None => false,
    }
}

// The extents that segments have together, where they follow each other.
fn end_of_segments(segments: &Segments) -> Option<u128>
    ensures { MatchOption result (Follow 0 segments.now → ⊥) (λ end. Follow 0 segments.now × (end ≡ sum_by (λ segment. segment.count) segments.now)) }
{
    let mut end: u128 = 0;
    for number in 0..segments.len() {
        let segment = segments.get(number);
        if u128::from(segment.start) != end || segment.count == 0 {
            return None;
        }
        end += u128::from(segment.count);
    }
    Some(end)
}

// Whether so many extents of this size have few enough sectors.
fn sectors_are_few(extents: u128, extent_size: u64) -> bool
    ensures { IsTrue result ↔ (extents * extent_size < 2 ^ 48) }
{
    let limit = u128::from(TOO_LARGE);
    extent_size == 0 || (extents < limit && extents * u128::from(extent_size) < limit)
}
