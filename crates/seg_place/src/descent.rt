//! Down by the legs that are read.
ghost use Rattle.std.specs.Prelude.{◌≡◌, ◌<◌, ◌^◌, IsSome, Some};
ghost use Rattle.volume_rules.specs.Rules.{IsAccepted};
ghost use Rattle.volume_view.specs.Places.{down, way};
ghost use Rattle.seg_place.specs.Cost.{TakesSteps};

use crate::met_segment::segment_at;
use crate::spot::{Spot, primary_spot};
use meta_model::{Group, On};
use sector_base::At;
use std::sync::ledger::Ledger;
use step_count::Steps;

// The sector of a physical volume to which the legs that are read lead, through at most so many logical volumes.
pub(crate) fn follow<L: Ledger>(group: &Group, spot: Spot, most: u32, steps: &mut Steps<L>) -> At
    requires accepted { IsAccepted group.now }
    requires leads { IsSome (down group.now spot.on most spot.sector) }
    requires small { spot.sector < 2 ^ 48 }
    ensures at { down group.now spot.on most spot.sector ≡ Some result }
    ensures steps { TakesSteps group.now (way group.now spot.on most spot.sector) steps.old steps.new }
{
    match spot.on {
        On::Pv(pv) => sector_of(group, pv, spot.sector),
        On::Lv(lv) => {
            let met = segment_at(group, lv, spot.sector, steps);
            follow(group, primary_spot(group, met), most - 1, steps)
        }
    }
}

// The sector of the physical volume, counted from its first extent.
fn sector_of(group: &Group, pv: u32, sector: u64) -> At
    requires accepted { IsAccepted group.now }
    requires leads { IsSome (down group.now (On.Pv pv) 0 sector) }
    requires small { sector < 2 ^ 48 }
    ensures { down group.now (On.Pv pv) 0 sector ≡ Some result }
{
    let (_, volume) = group.pvs.get(pv as usize);
    At {
        pv,
        sector: volume.pe_start + sector,
    }
}
