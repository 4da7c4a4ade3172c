//! Logical volumes whose legs lie on volumes by their new numbers.
ghost use Rattle.std.specs.Prelude.{◌≡◌, IfOk, map};
ghost use Rattle.meta_model.specs.declared.segment.On.{On as Volume};
ghost use Rattle.group_edits.specs.Renumbered.{renumbered_kind, renumbered_leg, renumbered_legs, renumbered_lv, renumbered_segment};

use meta_model::{Leg, Legs, Lv, On, SegKind, Segment, Segments};
use sector_base::Text;
use std::alloc::{AllocError, Global};

/// Gives volumes new numbers.
pub(crate) trait Numbering {
    ghost new_of: { Self → Volume → Volume };

    /// What a leg lies on, by its new number.
    fn new_on(&self, on: On) -> On
        ensures { result ≡ new_of self.now on };
}

/// The volume with legs on volumes by their new numbers.
///
/// # Errors
///
/// Where memory is wanting.
pub(crate) fn renumbered_lv<N: Numbering>(
    alloc: Global,
    lv: &Lv,
    numbers: &N,
) -> Result<Lv, AllocError>
    ensures { IfOk result (λ copy. copy ≡ renumbered_lv (N.new_of numbers.now) lv.now) }
{
    Ok(Lv {
        id: lv.id,
        status: lv.status,
        created: lv.created,
        host: Text::from_vec(Vec::from_slice(alloc, lv.host.as_bytes())?),
        segments: Segments::from_vec(renumbered_segments(alloc, lv.segments.as_slice(), numbers)?),
    })
}

fn renumbered_segments<N: Numbering>(
    alloc: Global,
    segments: &[Segment],
    numbers: &N,
) -> Result<Vec<Segment>, AllocError>
    ensures { IfOk result (λ copies. copies.items ≡ map (renumbered_segment (N.new_of numbers.now)) segments.now) }
{
    let mut copies = Vec::with_capacity(alloc, segments.len())?;
    for segment in segments {
        copies.push(renumbered_segment(alloc, segment, numbers)?)?;
    }
    Ok(copies)
}

fn renumbered_segment<N: Numbering>(
    alloc: Global,
    segment: &Segment,
    numbers: &N,
) -> Result<Segment, AllocError>
    ensures { IfOk result (λ copy. copy ≡ renumbered_segment (N.new_of numbers.now) segment.now) }
{
    Ok(Segment {
        start: segment.start,
        count: segment.count,
        kind: renumbered_kind(alloc, &segment.kind, numbers)?,
    })
}

fn renumbered_kind<N: Numbering>(
    alloc: Global,
    kind: &SegKind,
    numbers: &N,
) -> Result<SegKind, AllocError>
    ensures { IfOk result (λ copy. copy ≡ renumbered_kind (N.new_of numbers.now) kind.now) }
{
    match kind {
        SegKind::Striped { stripe, legs } => Ok(SegKind::Striped {
            stripe: *stripe,
            legs: Legs::from_vec(renumbered_legs(alloc, legs.as_slice(), numbers)?),
        }),
        SegKind::Mirror {
            region,
            moved,
            legs,
        } => Ok(SegKind::Mirror {
            region: *region,
            moved: *moved,
            legs: Legs::from_vec(renumbered_legs(alloc, legs.as_slice(), numbers)?),
        }),
    }
}

fn renumbered_legs<N: Numbering>(
    alloc: Global,
    legs: &[Leg],
    numbers: &N,
) -> Result<Vec<Leg>, AllocError>
    ensures { IfOk result (λ copies. copies.items ≡ renumbered_legs (N.new_of numbers.now) legs.now) }
{
    let mut copies = Vec::with_capacity(alloc, legs.len())?;
    for leg in legs {
        copies.push(renumbered_leg(leg, numbers))?;
    }
    Ok(copies)
}

fn renumbered_leg<N: Numbering>(leg: &Leg, numbers: &N) -> Leg
    ensures { result ≡ renumbered_leg (N.new_of numbers.now) leg.now }
{
    Leg {
        on: numbers.new_on(leg.on),
        first: leg.first,
    }
}
