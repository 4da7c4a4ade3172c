//! Whether mirrors have copies, and regions of a size.
ghost use Rattle.std.specs.Prelude.{◌≡◌, ◌≤◌, ◌↔◌, IsTrue, All, MatchOption, length};
ghost use Rattle.volume_rules.specs.Offences.{FailsAt, IsOffence};
ghost use Rattle.volume_rules.specs.Rules.{IsPowerOfTwo, IsWholeMirror, MirrorsAreWhole};
ghost use Rattle.volume_rules.specs.declared.rule.Rule.TheVariants.{Mirrors};

use crate::limits::MOST_LEGS;
use crate::open_group::OpenGroup;
use crate::powers::is_power_of_two;
use meta_model::{SegKind, Segments};

// The first mirror without copies or regions of a size, by the numbers of its volume and of the segment there.
pub(crate) fn broken_mirror(group: &OpenGroup) -> Option<(u64, u64)>
    ensures { MatchOption result (MirrorsAreWhole group.now) (λ places. IsOffence group.now Mirrors places.0 places.1) }
{
    for number in 0..group.lvs.len() {
        let (_, lv) = group.lvs.get(number);
        if let Some(segment) = broken_segment(&lv.segments) {
            return Some((number as u64, segment));
        }
    }
    None
}

fn broken_segment(segments: &Segments) -> Option<u64>
    ensures { MatchOption result
        (All (λ segment. IsWholeMirror segment.kind) segments.now)
        (FailsAt (λ segment. IsWholeMirror segment.kind) segments.now) }
{
    for number in 0..segments.len() {
        if !is_whole_mirror(&segments.get(number).kind) {
            return Some(number as u64);
        }
    }
    None
}

fn is_whole_mirror(kind: &SegKind) -> bool
    ensures { IsTrue result ↔ IsWholeMirror kind.now }
{
    match kind {
        SegKind::Striped { .. } => true,
        SegKind::Mirror { region, legs, .. } => copies_are_whole(*region, legs.len()),
    }
}

fn copies_are_whole(region: u64, legs: usize) -> bool
    ensures { IsTrue result ↔ ((2 ≤ legs) × (legs ≤ 8) × IsPowerOfTwo region × (8 ≤ region)) }
{
    2 <= legs && legs <= MOST_LEGS && is_power_of_two(region) && 8 <= region
}
