//! All places of a sector.
ghost use Rattle.std.specs.Prelude.{◌≡◌, ◌<◌, IsSome, Some};
ghost use Rattle.volume_rules.specs.Rules.{IsAccepted};
ghost use Rattle.volume_view.specs.Places.{mirror_of, others_at, others_of, places};
ghost use Rattle.seg_place.specs.CodeValues.{IsMet, seen};
ghost use Rattle.seg_place.specs.Sectors.{sectors_of};
ghost use Rattle.seg_place.specs.CodePlaces.{as_places};

use crate::deciding::deciding;
use crate::descent::follow;
use crate::met_segment::MetSegment;
use crate::primary_place::primary_in;
use crate::region::mirror_of;
use crate::spot::leg_spot;
use crate::{Ats, Places};
use meta_model::Group;
use sector_base::At;
use std::marker::Brand;
use std::sync::ledger::{Blank, Ledger};
use step_count::Steps;
use vg_check::Checked;

/// The places of a sector of a volume, which is told by its number in the group. It takes no memory.
///
/// The others and the region are those of one mirror segment: in a moving volume of that of the move, in any other of the
/// first on the way down. There are none where there is no such segment, or it is one of a move that is finished.
pub fn places(group: &Checked, lv: u32, sector: u64) -> Places
    requires { sector < sectors_of group.now lv }
    ensures { places group.now lv sector ≡ Some (as_places result) }
{
    places_from::<Brand>(group, lv, sector, Blank::new(1))
}

fn places_from<L: Ledger>(group: &Checked, lv: u32, sector: u64, blank: Blank) -> Places
    requires within { sector < sectors_of group.now lv }
    requires name { blank.name ≡ L.name }
    requires parts { blank.parts ≡ L.parts }
    requires some { 0 < blank.parts }
    ensures { places group.now lv sector ≡ Some (as_places result) }
{
    let mut steps = Steps::<L>::new(blank);
    let primary = primary_in(group, lv, sector, &mut steps);
    let group = group.group();
    match deciding(group, lv, sector, &mut steps) {
        None => Places {
            primary,
            others: Ats::new(),
            mirror: None,
        },
        Some(met) => with_others(group, primary, met, &mut steps),
    }
}

// The places that the segment decides.
fn with_others<L: Ledger>(
    group: &Group,
    primary: At,
    met: MetSegment<'_>,
    steps: &mut Steps<L>,
) -> Places
    requires accepted { IsAccepted group.now }
    requires met { IsMet group.now (seen met) }
    ensures { as_places result ≡ record { primary = primary; others = others_at group.now (Some (seen met.entry)); mirror = mirror_of (seen met.entry) } }
{
    let mirror = mirror_of(met);
    let others = if mirror.is_some() {
        others_of(group, met, steps)
    } else {
        Ats::new()
    };
    Places {
        primary,
        others,
        mirror,
    }
}

// Where the legs of a mirror segment that isn't finished lead, but the one that is read.
fn others_of<L: Ledger>(group: &Group, met: MetSegment<'_>, steps: &mut Steps<L>) -> Ats
    requires accepted { IsAccepted group.now }
    requires met { IsMet group.now (seen met) }
    requires mirror { IsSome (mirror_of (seen met)) }
    ensures { result ≡ others_of group.now (seen met.entry) }
{
    let mut others = Ats::new();
    for leg in 1..met.segment.kind.legs().len() {
        others.push(follow(group, leg_spot(group, met, leg), 5, steps));
    }
    others
}
