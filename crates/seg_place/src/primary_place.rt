//! The place that is read.
ghost use Rattle.std.specs.Prelude.{◌≡◌, ◌≤◌, ◌<◌, Some, length};
ghost use Rattle.volume_view.specs.Places.{primary, way};
ghost use Rattle.seg_place.specs.Cost.{TakesSteps};
ghost use Rattle.seg_place.specs.Sectors.{sectors_of};

use crate::descent::follow;
use crate::spot::Spot;
use meta_model::On;
use sector_base::At;
use std::marker::Brand;
use std::sync::ledger::{Blank, Ledger};
use step_count::Steps;
use vg_check::Checked;

/// The place of the sector that is read, its primary place. The volume is told by its number in the group. In each logical
/// volume on the way down, at most five, the segment is found in at most d steps, 2^d being at most 2m + 1 for the m segments
/// of that volume. It takes no memory.
pub fn primary_in<L: Ledger>(group: &Checked, lv: u32, sector: u64, steps: &mut Steps<L>) -> At
    requires { sector < sectors_of group.now lv }
    ensures at { primary group.now lv sector ≡ Some result }
    ensures volumes { length (way group.now (On.Lv lv) 5 sector) ≤ 5 }
    ensures steps { TakesSteps group.now (way group.now (On.Lv lv) 5 sector) steps.old steps.new }
{
    let spot = Spot {
        on: On::Lv(lv),
        sector,
    };
    follow(group.group(), spot, 5, steps)
}

/// The place of the sector that is read. It takes no memory.
pub fn primary(group: &Checked, lv: u32, sector: u64) -> At
    requires { sector < sectors_of group.now lv }
    ensures { primary group.now lv sector ≡ Some result }
{
    primary_from::<Brand>(group, lv, sector, Blank::new(1))
}

fn primary_from<L: Ledger>(group: &Checked, lv: u32, sector: u64, blank: Blank) -> At
    requires within { sector < sectors_of group.now lv }
    requires name { blank.name ≡ L.name }
    requires parts { blank.parts ≡ L.parts }
    requires some { 0 < blank.parts }
    ensures { primary group.now lv sector ≡ Some result }
{
    let mut steps = Steps::<L>::new(blank);
    primary_in(group, lv, sector, &mut steps)
}
