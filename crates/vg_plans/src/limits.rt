//! How many volumes and segments a group may have.
ghost use Rattle.std.specs.Prelude.{◌≡◌};
ghost use Rattle.group_plan.specs.Judging.{Judges};
ghost use Rattle.vg_plans.specs.Limits.{above_row, limit_row, limits_row, segment_count};

use group_plan::PlanRefusal;
use line_answers::OpRefusal;
use meta_model::{Group, LvTable};

/// The group exceeds no greatest number.
///
/// # Errors
///
/// `TooMany` with the first that it exceeds: of its physical volumes, of its logical ones, of these by its own limits, and of its
/// segments.
pub(crate) fn judge_limits(group: &Group) -> Result<(), PlanRefusal>
    ensures { Judges result (limits_row group.now) }
{
    let pvs = group.pvs.len() as u64;
    let lvs = group.lvs.len() as u64;
    judge_above(64, pvs)?;
    judge_above(1_024, lvs)?;
    judge_limit(group.max_pv, pvs)?;
    judge_limit(group.max_lv, lvs)?;
    judge_above(16_384, segment_count(&group.lvs))
}

// There are no more than so many.
fn judge_above(most: u64, count: u64) -> Result<(), PlanRefusal>
    ensures { Judges result (above_row most count) }
{
    if most < count {
        return Err(PlanRefusal::Refused(OpRefusal::TooMany(count, most)));
    }
    Ok(())
}

// There are no more than the limit allows, where it isn't 0.
fn judge_limit(limit: u64, count: u64) -> Result<(), PlanRefusal>
    ensures { Judges result (limit_row limit count) }
{
    if limit != 0 && limit < count {
        return Err(PlanRefusal::Refused(OpRefusal::TooMany(count, limit)));
    }
    Ok(())
}

// How many segments the volumes have, at most what 64 bits hold.
fn segment_count(lvs: &LvTable) -> u64
    ensures { result ≡ segment_count lvs.now }
{
    let mut count: u64 = 0;
    for place in 0..lvs.len() {
        let (_, lv) = lvs.get(place);
        count = count.saturating_add(lv.segments.len() as u64);
    }
    count
}
