//! The sources of standing moves.
ghost use Rattle.std.specs.Prelude.{◌≡◌, ◌<◌, ◌||◌, ℕ};
ghost use Rattle.std.specs.FinSet as set;
ghost use Rattle.std.specs.List.{list_any};
ghost use Rattle.extent_map.specs.Covered.{is_on};
ghost use Rattle.extent_alloc.specs.Usable as specs;

use meta_model::{Leg, LvTable, On, Segment};
use sector_base::PvSet;

// The physical volumes that a segment of a move has its first leg on, by one walk over the logical volumes.
pub(crate) fn sources(lvs: &LvTable) -> PvSet
    ensures { (pv : ℕ) → pv < 64 → set.contains result pv ≡ list_any (specs.moves_from pv) lvs.now }
{
    let mut sources = PvSet::new();
    for number in 0..lvs.len() {
        let (_, lv) = lvs.get(number);
        if lv.status.is_pvmove() {
            put_segments(&mut sources, lv.segments.as_slice());
        }
    }
    sources
}

// Puts those of the segments in.
fn put_segments(sources: &mut PvSet, segments: &[Segment])
    ensures { (pv : ℕ) → pv < 64 → set.contains sources.new pv ≡ (set.contains sources.old pv || list_any (specs.begins_on pv) segments.now) }
{
    for segment in segments {
        put_first(sources, segment.kind.legs().as_slice());
    }
}

// Puts that of the first of the legs in.
fn put_first(sources: &mut PvSet, legs: &[Leg])
    ensures { (pv : ℕ) → pv < 64 → set.contains sources.new pv ≡ (set.contains sources.old pv || specs.first_is_on pv legs.now) }
{
    if let Some(leg) = legs.first() {
        put(sources, leg.on);
    }
}

// Puts it in, where it is a physical volume.
fn put(sources: &mut PvSet, on: On)
    ensures { (pv : ℕ) → pv < 64 → set.contains sources.new pv ≡ (set.contains sources.old pv || is_on pv on) }
{
    if let On::Pv(pv) = on {
        if pv < 64 {
            sources.insert(pv);
        }
    }
}
