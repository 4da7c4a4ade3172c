//! The segment whose legs are the places of a sector.
ghost use Rattle.std.specs.Prelude.{◌≡◌, ◌<◌, if◌then◌else◌, IsSome, None, find, length, option_map};
ghost use Rattle.volume_rules.specs.Moving.{has_pvmove, leads_to_pvmove};
ghost use Rattle.volume_rules.specs.Rules.{IsAccepted};
ghost use Rattle.volume_view.specs.InSegments.{is_mirror};
ghost use Rattle.volume_view.specs.Places.{deciding, down, way};
ghost use Rattle.seg_place.specs.CodeValues.{seen};
ghost use Rattle.seg_place.specs.Sought.{is_sought};

use crate::met_segment::{MetSegment, segment_at};
use crate::moving::is_moving;
use crate::spot::{Spot, primary_spot};
use meta_model::{Group, On, SegKind};
use std::sync::ledger::Ledger;
use step_count::Steps;

// What is sought on the way down.
#[derive(Clone, Copy)]
pub(crate) enum Sought {
    // A segment of the volume of a move.
    Move,
    // A mirror.
    Mirror,
}

// Whether the segment is what is sought.
fn is_sought(group: &Group, met: MetSegment<'_>, sought: Sought) -> bool
    requires { met.lv < length group.now.lvs }
    ensures { result ≡ is_sought group.now sought (seen met.entry) }
{
    match sought {
        Sought::Move => has_pvmove(group, met.lv),
        Sought::Mirror => is_mirror(&met.segment.kind),
    }
}

fn has_pvmove(group: &Group, lv: u32) -> bool
    requires { lv < length group.now.lvs }
    ensures { result ≡ has_pvmove group.now lv }
{
    let (_, volume) = group.lvs.get(lv as usize);
    volume.status.is_pvmove()
}

fn is_mirror(kind: &SegKind) -> bool
    ensures { result ≡ is_mirror kind.now }
{
    match kind {
        SegKind::Striped { .. } => false,
        SegKind::Mirror { .. } => true,
    }
}

// The first segment on the way down that is sought.
fn first_met<'a, L: Ledger>(
    group: &'a Group,
    spot: Spot,
    most: u32,
    sought: Sought,
    steps: &mut Steps<L>,
) -> Option<MetSegment<'a>>
    requires accepted { IsAccepted group.now }
    requires leads { IsSome (down group.now spot.on most spot.sector) }
    ensures { option_map seen result ≡ find (is_sought group.now sought) (way group.now spot.on most spot.sector) }
{
    match spot.on {
        On::Pv(_) => None,
        On::Lv(lv) => {
            let met = segment_at(group, lv, spot.sector, steps);
            if is_sought(group, met, sought) {
                return Some(met);
            }
            first_met(group, primary_spot(group, met), most - 1, sought, steps)
        }
    }
}

// The segment whose legs are the places: in a moving volume that of the move, in any other the first mirror on the way.
pub(crate) fn deciding<'a, L: Ledger>(
    group: &'a Group,
    lv: u32,
    sector: u64,
    steps: &mut Steps<L>,
) -> Option<MetSegment<'a>>
    requires accepted { IsAccepted group.now }
    requires leads { IsSome (down group.now (On.Lv lv) 5 sector) }
    ensures { option_map seen result ≡ deciding group.now lv sector }
{
    let spot = Spot {
        on: On::Lv(lv),
        sector,
    };
    match first_met(group, spot, 5, Sought::Move, steps) {
        Some(met) => Some(met),
        None => mirror_unless_moving(group, spot, lv, steps),
    }
}

// The first mirror on the way, where the volume isn't moving.
fn mirror_unless_moving<'a, L: Ledger>(
    group: &'a Group,
    spot: Spot,
    lv: u32,
    steps: &mut Steps<L>,
) -> Option<MetSegment<'a>>
    requires accepted { IsAccepted group.now }
    requires leads { IsSome (down group.now spot.on 5 spot.sector) }
    ensures { option_map seen result ≡ (if leads_to_pvmove group.now 4 lv then None else find (is_sought group.now Sought.Mirror) (way group.now spot.on 5 spot.sector)) }
{
    let mirror = first_met(group, spot, 5, Sought::Mirror, steps)?;
    if is_moving(group, lv) {
        None
    } else {
        Some(mirror)
    }
}
