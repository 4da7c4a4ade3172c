//! What a leg covers.
ghost use Rattle.std.specs.Prelude.{◌≡◌};
ghost use Rattle.std.specs.List.{list_any};
ghost use Rattle.extent_map.specs.Covered.{HasLeg, is_in, is_on, leg_on};
ghost use Rattle.volume_rules.specs.Extents.{leg_share};

use meta_model::{Leg, On, SegKind, Segment};

// How many extents each leg of the segment covers.
pub(crate) fn share(segment: &Segment) -> u64
    requires { HasLeg segment.now }
    ensures { result ≡ leg_share segment.now.count segment.now.kind }
{
    match &segment.kind {
        SegKind::Striped { legs, .. } => segment.count / legs.len() as u64,
        SegKind::Mirror { .. } => segment.count,
    }
}

// Whether it is the physical volume with this number.
pub(crate) fn is_pv(on: On, pv: u32) -> bool
    ensures { result ≡ is_on pv on }
{
    match on {
        On::Pv(number) => number == pv,
        On::Lv(_) => false,
    }
}

// Whether a leg with so many extents has the extent of the volume.
pub(crate) fn leg_has(leg: Leg, share: u64, pv: u32, extent: u64) -> bool
    ensures { result ≡ list_any (is_in extent) (leg_on pv share leg) }
{
    is_pv(leg.on, pv) && leg.first <= extent && extent - leg.first < share
}
