//! Used extents.
ghost use Rattle.std.specs.Prelude.{◌≡◌, ◌↔◌, IsTrue, All};
ghost use Rattle.std.specs.List.{flat_map, list_any};
ghost use Rattle.meta_model.specs.declared.segment.On.TheVariants as on;
ghost use Rattle.extent_map.specs.Covered.{EachHasLeg, HasLeg, is_in, leg_on, lvs_on, segment_on};
ghost use Rattle.volume_rules.specs.Legs.{IsUsed};
ghost use Rattle.volume_rules.specs.Rules.{IsAccepted};

use crate::leg::{leg_has, share};
use meta_model::{Group, Leg, LvTable, Segment};

/// Whether the extent of the physical volume with this number lies in a leg. It takes no memory.
pub fn used(group: &Group, pv: u32, extent: u64) -> bool
    requires accepted { IsAccepted group.now }
    ensures { IsTrue result ↔ IsUsed group.now (on.Pv pv) extent }
{
    volumes_have(&group.lvs, pv, extent)
}

// Whether a leg of a volume has it.
fn volumes_have(lvs: &LvTable, pv: u32, extent: u64) -> bool
    requires { EachHasLeg lvs.now }
    ensures { result ≡ list_any (is_in extent) (lvs_on pv lvs.now) }
{
    for number in 0..lvs.len() {
        let (_, lv) = lvs.get(number);
        if segments_have(lv.segments.as_slice(), pv, extent) {
            return true;
        }
    }
    false
}

// Whether a leg of a segment has it.
fn segments_have(segments: &[Segment], pv: u32, extent: u64) -> bool
    requires { All HasLeg segments.now }
    ensures { result ≡ list_any (is_in extent) (flat_map (segment_on pv) segments.now) }
{
    for segment in segments {
        let share = share(segment);
        if legs_have(segment.kind.legs().as_slice(), share, pv, extent) {
            return true;
        }
    }
    false
}

// Whether one of the legs has it, each with so many extents.
fn legs_have(legs: &[Leg], share: u64, pv: u32, extent: u64) -> bool
    ensures { result ≡ list_any (is_in extent) (flat_map (leg_on pv share) legs.now) }
{
    for leg in legs {
        if leg_has(*leg, share, pv, extent) {
            return true;
        }
    }
    false
}
