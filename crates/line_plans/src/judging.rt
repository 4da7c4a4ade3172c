//! What is judged of a line that reads, writes or flushes a volume, before it is begun.
ghost use Rattle.std.specs.Prelude.{◌≡◌, ◌≤◌, ◌+◌, ◌&&◌, ℕ, IfSome, List, MatchResult, None, Some, not, option_map, true};
ghost use Rattle.std.specs.Option.{option_and_then, option_map_or};
ghost use Rattle.volume_rules.specs.Rules.{IsAccepted};
ghost use Rattle.meta_model.specs.declared.lv.Lv.{Lv};
ghost use Rattle.seg_place.specs.Sectors.{sectors_of};
ghost use Rattle.group_edits.specs.Visible.{visible_named};
ghost use Rattle.group_plan.specs.Judging.{IsRefusedBy, Judges, first_refusal};
ghost use Rattle.world_acts.specs.Volumes.{AreLaidOut};
ghost use Rattle.line_plans.specs.Judging.{IsFoundIn, may_write, number_on, past_end, path_rows, rows_on};
ghost use Rattle.line_plans.specs.Plans.{key_of};

use command_table::Path;
use group_edits::find_visible;
use group_plan::{PlanRefusal, copied_text, is_named, judge_name, unknown_group};
use line_answers::OpRefusal;
use meta_model::Group;
use seg_place::sectors;
use std::alloc::Global;
use vg_check::Checked;
use world_acts::{VolumeRow, Volumes};

/// The volume on this path, for a line that writes there or doesn't, and of these sectors, if it names some: the first, and how many.
///
/// # Errors
///
/// `UnknownGroup` where no group stands, or one of another name; `ReadOnly` where the line writes, and the group may not be written, or
/// the volume; `UnknownVolume` where no visible volume has the name; `PastEnd` where the sectors end behind the volume's: the first of
/// these. `NoMemory` where memory is wanting.
pub fn judge(
    alloc: Global,
    volumes: &Volumes,
    path: &Path,
    writes: bool,
    range: Option<(u64, u64)>,
) -> Result<VolumeRow, PlanRefusal>
    requires { (sizes : List ℕ) × AreLaidOut volumes.now sizes }
    ensures { MatchResult result
        (λ row. (first_refusal (rows_on volumes.now.group path.now writes range) ≡ None) × IsFoundIn volumes.now path.now range row)
        (IsRefusedBy (first_refusal (rows_on volumes.now.group path.now writes range))) }
{
    let Some(group) = &volumes.group else {
        return Err(unknown_group(alloc, &path.vg));
    };
    let lv = judge_path(alloc, group, path, writes, range)?;
    match volumes.with_number(lv) {
        Some(row) => Ok(row),
        None => unreachable!(),
    }
}

/// The key of the volume on this path, or 0 where there is none.
pub fn key_on(volumes: &Volumes, path: &Path) -> u32
    requires { (sizes : List ℕ) × AreLaidOut volumes.now sizes }
    ensures { result ≡ option_map_or (key_of volumes.now) (number_on volumes.now.group path.now) 0 }
{
    match number_on(volumes, path) {
        Some(lv) => key_of(volumes, lv),
        None => 0,
    }
}

// The number in the text of the volume on this path.
fn number_on(volumes: &Volumes, path: &Path) -> Option<u32>
    ensures { result ≡ number_on volumes.now.group path.now }
{
    let group = volumes.group.as_ref()?.group();
    if !is_named(group, &path.vg) {
        return None;
    }
    find_visible(group, &path.lv)
}

// The key of the volume with this number.
fn key_of(volumes: &Volumes, lv: u32) -> u32
    requires { (sizes : List ℕ) × AreLaidOut volumes.now sizes }
    ensures { result ≡ key_of volumes.now lv }
{
    match volumes.with_number(lv) {
        Some(row) => row.key,
        None => 0,
    }
}

// The number of the volume in its group.
fn judge_path(
    alloc: Global,
    group: &Checked,
    path: &Path,
    writes: bool,
    range: Option<(u64, u64)>,
) -> Result<u32, PlanRefusal>
    ensures { MatchResult result
        (λ lv. (first_refusal (path_rows group.now path.now writes range) ≡ None)
        × (option_map (λ (volume : ℕ × Lv). volume.0) (visible_named group.now path.now.lv) ≡ Some lv)
        × IfSome range (λ r. r.0 + r.1 ≤ sectors_of group.now lv))
        (IsRefusedBy (first_refusal (path_rows group.now path.now writes range))) }
{
    let own = group.group();
    judge_name(alloc, own, &path.vg)?;
    let found = find_visible(own, &path.lv);
    if is_read_only(own, path, found, writes) {
        return Err(PlanRefusal::Refused(OpRefusal::ReadOnly));
    }
    let Some(lv) = found else {
        let name = copied_text(alloc, &path.lv)?;
        return Err(PlanRefusal::Refused(OpRefusal::UnknownVolume(name)));
    };
    judge_end(group, lv, range)?;
    Ok(lv)
}

// The sectors end within the volume.
fn judge_end(group: &Checked, lv: u32, range: Option<(u64, u64)>) -> Result<(), PlanRefusal>
    requires { IsAccepted group.now }
    ensures { (volume : Lv) → Judges result (option_and_then (λ r. past_end group.now r (lv, volume)) range) }
{
    let Some((start, count)) = range else {
        return Ok(());
    };
    let length = sectors(group, lv);
    let end = start.saturating_add(count);
    if end > length {
        return Err(PlanRefusal::Refused(OpRefusal::PastEnd(end, length)));
    }
    Ok(())
}

// The line would write where it may not.
fn is_read_only(group: &Group, path: &Path, found: Option<u32>, writes: bool) -> bool
    requires { found ≡ option_map (λ (volume : ℕ × Lv). volume.0) (visible_named group.now path.now.lv) }
    ensures { result ≡ (writes && not (may_write group.now (visible_named group.now path.now.lv))) }
{
    writes && !may_write(group, path, found)
}

// The group may be written, and so may the volume, if it is there.
fn may_write(group: &Group, path: &Path, found: Option<u32>) -> bool
    requires { found ≡ option_map (λ (volume : ℕ × Lv). volume.0) (visible_named group.now path.now.lv) }
    ensures { result ≡ may_write group.now (visible_named group.now path.now.lv) }
{
    group.status.is_writable() && is_writable(group, path, found)
}

fn is_writable(group: &Group, path: &Path, found: Option<u32>) -> bool
    requires { found ≡ option_map (λ (volume : ℕ × Lv). volume.0) (visible_named group.now path.now.lv) }
    ensures { result ≡ option_map_or (λ (volume : ℕ × Lv). volume.1.status.write) (visible_named group.now path.now.lv) true }
{
    match found {
        Some(lv) => {
            let (_, volume) = group.lvs.get(lv as usize);
            volume.status.is_writable()
        }
        None => true,
    }
}
