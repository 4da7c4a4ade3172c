//! Whether segments are those of a move from one physical volume.
ghost use Rattle.std.specs.Prelude.{◌≡◌, ◌↔◌, ℕ, IsTrue, All, Some};
ghost use Rattle.volume_rules.specs.Rules.{IsMoveFrom};
ghost use Rattle.vg_check.specs.Moves.{IsOnOther, MovesFrom, MovesFromOne};

use meta_model::{Leg, On, SegKind, Segment};

// Whether each segment is one of a move from one physical volume, the same for all.
pub(crate) fn move_from_one(segments: &[Segment]) -> bool
    ensures { IsTrue result ↔ MovesFromOne segments.now }
{
    match segments.first() {
        None => true,
        Some(first) => move_from_that_of(segments, first),
    }
}

// Whether each segment is one of a move from where the first leg of this one lies.
fn move_from_that_of(segments: &[Segment], first: &Segment) -> bool
    ensures { IsTrue result ↔ ((source : ℕ) × IsMoveFrom source first.now.kind × All (MovesFrom source) segments.now) }
{
    match source_of(first) {
        None => false,
        Some(source) => is_move_from(first, source) && all_move_from(segments, source),
    }
}

// The physical volume of the first leg.
fn source_of(segment: &Segment) -> Option<u32>
    ensures { (source : ℕ) → IsMoveFrom source segment.now.kind → result ≡ Some source }
{
    match segment.kind.legs().as_slice().first() {
        Some(
            Leg {
                on: On::Pv(number),
                ..
            },
        ) => Some(*number),
        _ => None,
    }
}

fn all_move_from(segments: &[Segment], source: u32) -> bool
    ensures { IsTrue result ↔ All (MovesFrom source) segments.now }
{
    for segment in segments {
        if !is_move_from(segment, source) {
            return false;
        }
    }
    true
}

// Whether the segment is one of a move from this physical volume to another one.
fn is_move_from(segment: &Segment, source: u32) -> bool
    ensures { IsTrue result ↔ IsMoveFrom source segment.now.kind }
{
    match &segment.kind {
        SegKind::Striped { .. } => false,
        SegKind::Mirror { legs, .. } => match legs.as_slice() {
            [a, b] => a.on == On::Pv(source) && is_on_other(b.on, source),
            _ => false,
        },
    }
}

// Whether it is another physical volume.
fn is_on_other(on: On, source: u32) -> bool
    ensures { IsTrue result ↔ IsOnOther source on }
{
    match on {
        On::Pv(number) => number != source,
        On::Lv(_) => false,
    }
}
