//! In which leg of its segment a sector stands, and how far into it.
ghost use Rattle.std.specs.Prelude.{◌≡◌, ◌≤◌, ◌<◌, if◌then◌else◌};
ghost use Rattle.volume_view.specs.InSegments.{is_finished, offset_in, primary_leg, stripe_leg, stripe_offset};
ghost use Rattle.seg_place.specs.Legs.{HasLegs};

use meta_model::{SegKind, Segment};

// The number of the leg that has a sector of a striped segment; one leg has all.
pub(crate) fn stripe_leg(stripe: u64, legs: usize, at: u64) -> usize
    requires some { 1 ≤ legs }
    requires size { 1 < legs → 1 ≤ stripe }
    ensures { result ≡ stripe_leg stripe legs at }
{
    if legs == 1 {
        0
    } else {
        (at / stripe % legs as u64) as usize
    }
}

// How far into that leg it stands.
pub(crate) fn stripe_offset(stripe: u64, legs: usize, at: u64) -> u64
    requires some { 1 ≤ legs }
    requires size { 1 < legs → 1 ≤ stripe }
    ensures { result ≡ stripe_offset stripe legs at }
{
    if legs == 1 {
        at
    } else {
        at / stripe / legs as u64 * stripe + at % stripe
    }
}

// Whether a mirror of so many extents is a segment of a move that is finished: all its extents were moved.
pub(crate) fn is_finished(count: u64, moved: Option<u64>) -> bool
    ensures { result ≡ is_finished count moved }
{
    match moved {
        None => false,
        Some(moved) => moved == count,
    }
}

// The number of the leg that is read for a sector of the segment: of a mirror the first, of a finished move the second.
pub(crate) fn primary_leg(segment: &Segment, at: u64) -> usize
    requires { HasLegs segment.now.kind }
    ensures { result ≡ primary_leg segment.now.count segment.now.kind at }
{
    match &segment.kind {
        SegKind::Striped { stripe, legs } => stripe_leg(*stripe, legs.len(), at),
        SegKind::Mirror { moved, .. } => second_if(is_finished(segment.count, *moved)),
    }
}

fn second_if(finished: bool) -> usize
    ensures { result ≡ (if finished then 1 else 0) }
{
    if finished { 1 } else { 0 }
}

// How far into its leg the sector stands.
pub(crate) fn offset_in(kind: &SegKind, at: u64) -> u64
    requires { HasLegs kind.now }
    ensures { result ≡ offset_in kind.now at }
{
    match kind {
        SegKind::Striped { stripe, legs } => stripe_offset(*stripe, legs.len(), at),
        SegKind::Mirror { .. } => at,
    }
}
