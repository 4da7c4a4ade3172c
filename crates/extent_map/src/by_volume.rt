//! The runs of all legs, each with those of its physical volume.
ghost use Rattle.std.specs.Prelude.{◌≡◌, All, IfOk, OnOk, [], map, replicate};
ghost use Rattle.std.specs.List.{flat_map, range_with_len};
ghost use Rattle.extent_map.specs.ByVolume.{each_with, lists_of};
ghost use Rattle.extent_map.specs.Covered.{EachHasLeg, HasLeg, leg_on, lvs_on, segment_on};

use crate::leg::share;
use meta_model::{ExtentSpan, Leg, LvTable, On, Segment};
use std::alloc::{AllocError, Global};

// For each of so many physical volumes the runs of the legs on it, in the order of the text.
pub(crate) fn runs_by_volume(
    alloc: Global,
    lvs: &LvTable,
    pvs: usize,
) -> Result<Vec<Vec<ExtentSpan>>, AllocError>
    requires { EachHasLeg lvs.now }
    ensures { IfOk result (λ buckets. lists_of buckets.items ≡ map (λ pv. lvs_on pv lvs.now) (range_with_len 0 pvs)) }
{
    let mut buckets = empty(alloc, pvs)?;
    for number in 0..lvs.len() {
        let (_, lv) = lvs.get(number);
        put_segments(&mut buckets, lv.segments.as_slice())?;
    }
    Ok(buckets)
}

// So many buckets without a run.
pub(crate) fn empty(alloc: Global, count: usize) -> Result<Vec<Vec<ExtentSpan>>, AllocError>
    ensures { IfOk result (λ buckets. lists_of buckets.items ≡ replicate count []) }
{
    let mut buckets = Vec::with_capacity(alloc, count)?;
    for _ in 0..count {
        buckets.push(Vec::new(alloc))?;
    }
    Ok(buckets)
}

// Puts the runs of the segments' legs into the buckets.
pub(crate) fn put_segments(
    buckets: &mut Vec<Vec<ExtentSpan>>,
    segments: &[Segment],
) -> Result<(), AllocError>
    requires { All HasLeg segments.now }
    ensures { OnOk result (lists_of buckets.new.items ≡ each_with (λ pv. flat_map (segment_on pv) segments.now) 0 (lists_of buckets.old.items)) }
{
    for segment in segments {
        let share = share(segment);
        put_legs(buckets, segment.kind.legs().as_slice(), share)?;
    }
    Ok(())
}

// Puts those of the legs, each with so many extents.
fn put_legs(buckets: &mut Vec<Vec<ExtentSpan>>, legs: &[Leg], share: u64) -> Result<(), AllocError>
    ensures { OnOk result (lists_of buckets.new.items ≡ each_with (λ pv. flat_map (leg_on pv share) legs.now) 0 (lists_of buckets.old.items)) }
{
    for leg in legs {
        put_leg(buckets, *leg, share)?;
    }
    Ok(())
}

// Puts that of the leg, where it lies on one of the volumes.
fn put_leg(buckets: &mut Vec<Vec<ExtentSpan>>, leg: Leg, share: u64) -> Result<(), AllocError>
    ensures { OnOk result (lists_of buckets.new.items ≡ each_with (λ pv. leg_on pv share leg) 0 (lists_of buckets.old.items)) }
{
    if let On::Pv(pv) = leg.on {
        if let Some(bucket) = buckets.get_mut(pv as usize) {
            bucket.push(ExtentSpan {
                on: 2 * u64::from(pv),
                first: leg.first,
                count: share,
            })?;
        }
    }
    Ok(())
}
