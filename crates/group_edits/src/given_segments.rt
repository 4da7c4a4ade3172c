//! The segments that are made of given extents.
ghost use Rattle.std.specs.Prelude.{◌≡◌, ◌<◌, ◌^◌, ◌+◌, ◌++◌, IfOk, OnOk, map};
ghost use Rattle.group_edits.specs.GivenSegments as specs;

use extent_alloc::{Part, PartRun};
use meta_model::{Leg, Legs, On, SegKind, Segment};
use std::alloc::{AllocError, Global};

// Adds the segments of these parts, one for each, from this extent on.
pub(crate) fn add_segments(
    alloc: Global,
    segments: &mut Vec<Segment>,
    kind: &SegKind,
    start: u64,
    given: &[Part],
) -> Result<(), AllocError>
    requires { start + specs.extents_in (specs.segments_of kind.now start given.now) < 2 ^ 64 }
    ensures { OnOk result (segments.new.items ≡ segments.old.items ++ specs.segments_of kind.now start given.now) }
{
    let mut at = start;
    for part in given {
        let segment = segment_of(alloc, kind, at, part)?;
        at += segment.count;
        segments.push(segment)?;
    }
    Ok(())
}

// The segment of a part, from this extent on.
fn segment_of(alloc: Global, kind: &SegKind, start: u64, part: &Part) -> Result<Segment, AllocError>
    requires { specs.extents_by part.now.extents (specs.kind_on (specs.legs_in part.now) kind.now) < 2 ^ 64 }
    ensures { IfOk result (λ segment. segment ≡ specs.segment_of kind.now start part.now) }
{
    let legs = legs_in(alloc, part)?;
    let kind = kind_on(legs, kind);
    Ok(Segment {
        start,
        count: extents_by(part.extents, &kind),
        kind,
    })
}

fn legs_in(alloc: Global, part: &Part) -> Result<Legs, AllocError>
    ensures { IfOk result (λ legs. legs ≡ specs.legs_in part.now) }
{
    let legs = legs_at(alloc, part.runs.as_slice())?;
    Ok(Legs::from_vec(legs))
}

fn legs_at(alloc: Global, runs: &[PartRun]) -> Result<Vec<Leg>, AllocError>
    ensures { IfOk result (λ legs. legs.items ≡ map specs.leg_at runs.now) }
{
    let mut legs = Vec::with_capacity(alloc, runs.len())?;
    for run in runs {
        legs.push(Leg {
            on: On::Pv(run.pv),
            first: run.first,
        })?;
    }
    Ok(legs)
}

// A kind like this one on other legs.
fn kind_on(legs: Legs, kind: &SegKind) -> SegKind
    ensures { result ≡ specs.kind_on legs kind.now }
{
    match kind {
        SegKind::Striped { stripe, .. } => SegKind::Striped {
            stripe: *stripe,
            legs,
        },
        SegKind::Mirror { region, .. } => SegKind::Mirror {
            region: *region,
            moved: None,
            legs,
        },
    }
}

// How many extents a segment has whose legs have so many each.
fn extents_by(share: u64, kind: &SegKind) -> u64
    requires { specs.extents_by share kind.now < 2 ^ 64 }
    ensures { result ≡ specs.extents_by share kind.now }
{
    match kind {
        SegKind::Striped { legs, .. } => share * legs.len() as u64,
        SegKind::Mirror { .. } => share,
    }
}
