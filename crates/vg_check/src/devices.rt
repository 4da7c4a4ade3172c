//! Whether the extents of physical volumes lie on their devices.
ghost use Rattle.std.specs.Prelude.{◌≡◌, ◌+◌, ◌*◌, ◌↔◌, IsTrue, All, MatchOption, slice_get};
ghost use Rattle.volume_rules.specs.Offences.{FailsAt, IsOffence};
ghost use Rattle.volume_rules.specs.Rules.{ExtentsFitDevices, FitsDevice};
ghost use Rattle.volume_rules.specs.declared.rule.Rule.TheVariants.{Extents};

use crate::limits::TOO_LARGE;
use crate::open_group::OpenGroup;
use meta_model::{Pv, PvTable};

// The first physical volume whose extents don't lie on its device.
pub(crate) fn pv_beyond_device(group: &OpenGroup) -> Option<u64>
    ensures { MatchOption result (ExtentsFitDevices group.now) (λ at. IsOffence group.now Extents at 0) }
{
    first_beyond_device(group.extent_size, &group.pvs)
}

fn first_beyond_device(extent_size: u64, pvs: &PvTable) -> Option<u64>
    ensures { MatchOption result (All (λ pv. FitsDevice extent_size pv.1) pvs.now) (FailsAt (λ pv. FitsDevice extent_size pv.1) pvs.now) }
{
    for number in 0..pvs.len() {
        let (_, pv) = pvs.get(number);
        if !fits_device(extent_size, pv) {
            return Some(number as u64);
        }
    }
    None
}

// Whether the extents of the volume end on its device, where its size is known.
fn fits_device(extent_size: u64, pv: &Pv) -> bool
    ensures { IsTrue result ↔ FitsDevice extent_size pv.now }
{
    let end = end_of_extents(extent_size, pv);
    end < u128::from(TOO_LARGE) && (pv.dev_size == 0 || end <= u128::from(pv.dev_size))
}

// The sector behind the last extent of the volume.
fn end_of_extents(extent_size: u64, pv: &Pv) -> u128
    ensures { result ≡ pv.now.pe_start + pv.now.pe_count * extent_size }
{
    u128::from(pv.pe_start) + u128::from(pv.pe_count) * u128::from(extent_size)
}
