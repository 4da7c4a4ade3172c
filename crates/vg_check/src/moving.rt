//! Whether each locked volume is moving.
ghost use Rattle.std.specs.Prelude.{◌≡◌, ◌≤◌, ◌↔◌, IsTrue, length, vec_len};
ghost use Rattle.meta_model.specs.Runs.{run_room};
ghost use Rattle.volume_rules.specs.Rules.{KeepsBelow, LockedVolumesMove};
ghost use Rattle.vg_check.specs.Marks.{LockedAreMarked};

use crate::climb::{Climb, climb_five};
use crate::open_group::OpenGroup;
use meta_model::ExtentSpan;

// Whether from each locked volume a way down meets the PVMOVE volume.
pub(crate) fn locked_volumes_move(group: &OpenGroup, runs: &mut Vec<ExtentSpan>) -> bool
    requires below { KeepsBelow 14 group.now }
    requires room { run_room group.now.lvs ≤ vec_len runs.old }
    ensures locked { IsTrue result ↔ LockedVolumesMove group.now }
    ensures kept { vec_len runs.new ≡ vec_len runs.old }
{
    marks_tell(group, runs)
}

fn marks_tell(group: &OpenGroup, runs: &mut [ExtentSpan]) -> bool
    requires below { KeepsBelow 14 group.now }
    requires room { run_room group.now.lvs ≤ length runs.old }
    ensures { IsTrue result ↔ LockedVolumesMove group.now }
{
    let numbers = &mut runs[..group.lv_count()];
    climb_five(group, Climb::Moves, numbers);
    locked_are_marked(group, numbers)
}

// Whether the number of each locked volume isn't 0.
fn locked_are_marked(group: &OpenGroup, numbers: &[ExtentSpan]) -> bool
    requires { length numbers.now ≡ length group.now.lvs }
    ensures { IsTrue result ↔ LockedAreMarked group.now numbers.now (length numbers.now) }
{
    for number in 0..numbers.len() {
        if group.lv(number).status.is_locked() && numbers[number].first == 0 {
            return false;
        }
    }
    true
}
