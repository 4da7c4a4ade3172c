//! How many volumes and segments a group has.
ghost use Rattle.std.specs.Prelude.{◌≢◌, ◌+◌, ◌≤◌, ◌↔◌, IsTrue};
ghost use Rattle.volume_rules.specs.Rules.{SegmentsAreFew, VolumesAreFew};
ghost use Rattle.vg_check.specs.Counts.{HasFewSegments};

use crate::limits::{MOST_LVS, MOST_PVS, MOST_SEGMENTS};
use crate::open_group::OpenGroup;
use meta_model::LvRows;

// Whether the group has a physical volume, and no more volumes than are allowed.
pub(crate) fn volumes_are_few(group: &OpenGroup) -> bool
    ensures { IsTrue result ↔ VolumesAreFew group.now }
{
    let pvs = group.pvs.len() as u64;
    let lvs = group.lvs.len() as u64;
    (1 <= pvs && pvs <= MOST_PVS && lvs <= MOST_LVS)
        && keeps_limit(pvs, group.max_pv)
        && keeps_limit(lvs, group.max_lv)
}

// Whether a count is within a limit of the group, which is none where it is 0.
fn keeps_limit(count: u64, limit: u64) -> bool
    ensures { IsTrue result ↔ (limit ≢ 0 → count ≤ limit) }
{
    limit == 0 || count <= limit
}

// Whether each logical volume has a segment, and all together have no more than are allowed.
pub(crate) fn segments_are_few(group: &OpenGroup) -> bool
    ensures { IsTrue result ↔ SegmentsAreFew group.now }
{
    lvs_have_few_segments(&group.lvs)
}

fn lvs_have_few_segments(lvs: &LvRows) -> bool
    ensures { IsTrue result ↔ HasFewSegments lvs.now }
{
    let mut total = 0;
    for number in 0..lvs.len() {
        let (_, lv) = lvs.get(number);
        let count = lv.segments.len() as u64;
        if !more_are_allowed(total, count) {
            return false;
        }
        total += count;
    }
    true
}

// Whether a volume may have so many segments where those before it have this many.
fn more_are_allowed(before: u64, count: u64) -> bool
    requires { before ≤ 16384 }
    ensures { IsTrue result ↔ ((1 ≤ count) × (before + count ≤ 16384)) }
{
    1 <= count && count <= MOST_SEGMENTS - before
}
