//! The runs of the legs on a volume, as a list and as a sum.
ghost use Rattle.std.specs.Prelude.{◌≡◌, ◌<◌, ◌^◌, ◌++◌, All, IfOk, OnOk};
ghost use Rattle.std.specs.List.{flat_map};
ghost use Rattle.extent_map.specs.Covered.{EachHasLeg, HasLeg, extents_in, leg_on, lvs_on, segment_on};

use crate::leg::{is_pv, share};
use meta_model::{ExtentSpan, Leg, LvTable, Segment};
use std::alloc::{AllocError, Global};

// The runs of all legs on the volume, in the order of the text.
pub(crate) fn runs_there(
    alloc: Global,
    lvs: &LvTable,
    pv: u32,
) -> Result<Vec<ExtentSpan>, AllocError>
    requires { EachHasLeg lvs.now }
    ensures { IfOk result (λ runs. runs.items ≡ lvs_on pv lvs.now) }
{
    let mut runs = Vec::new(alloc);
    for number in 0..lvs.len() {
        let (_, lv) = lvs.get(number);
        add_segments(&mut runs, lv.segments.as_slice(), pv)?;
    }
    Ok(runs)
}

// Adds those of the segments' legs.
pub(crate) fn add_segments(
    runs: &mut Vec<ExtentSpan>,
    segments: &[Segment],
    pv: u32,
) -> Result<(), AllocError>
    requires { All HasLeg segments.now }
    ensures { OnOk result (runs.new.items ≡ runs.old.items ++ flat_map (segment_on pv) segments.now) }
{
    for segment in segments {
        let share = share(segment);
        add_legs(runs, segment.kind.legs().as_slice(), share, pv)?;
    }
    Ok(())
}

// Adds those of the legs, each with so many extents.
fn add_legs(runs: &mut Vec<ExtentSpan>, legs: &[Leg], share: u64, pv: u32) -> Result<(), AllocError>
    ensures { OnOk result (runs.new.items ≡ runs.old.items ++ flat_map (leg_on pv share) legs.now) }
{
    for leg in legs {
        if is_pv(leg.on, pv) {
            let on = 2 * u64::from(pv);
            runs.push(ExtentSpan {
                on,
                first: leg.first,
                count: share,
            })?;
        }
    }
    Ok(())
}

// How many extents the legs on the volume have.
pub(crate) fn covered_there(lvs: &LvTable, pv: u32) -> u64
    requires legs { EachHasLeg lvs.now }
    requires fits { extents_in (lvs_on pv lvs.now) < 2 ^ 64 }
    ensures { result ≡ extents_in (lvs_on pv lvs.now) }
{
    let mut total = 0;
    for number in 0..lvs.len() {
        let (_, lv) = lvs.get(number);
        total += covered_by_segments(lv.segments.as_slice(), pv);
    }
    total
}

// How many those of the segments' legs are.
fn covered_by_segments(segments: &[Segment], pv: u32) -> u64
    requires legs { All HasLeg segments.now }
    requires fits { extents_in (flat_map (segment_on pv) segments.now) < 2 ^ 64 }
    ensures { result ≡ extents_in (flat_map (segment_on pv) segments.now) }
{
    let mut total = 0;
    for segment in segments {
        let share = share(segment);
        total += covered_by_legs(segment.kind.legs().as_slice(), share, pv);
    }
    total
}

// How many those of the legs are, each with so many.
fn covered_by_legs(legs: &[Leg], share: u64, pv: u32) -> u64
    requires { extents_in (flat_map (leg_on pv share) legs.now) < 2 ^ 64 }
    ensures { result ≡ extents_in (flat_map (leg_on pv share) legs.now) }
{
    let mut total = 0;
    for leg in legs {
        if is_pv(leg.on, pv) {
            total += share;
        }
    }
    total
}
