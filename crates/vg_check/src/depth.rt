//! Whether volumes don't lie on each other too deep, and those below are hidden.
ghost use Rattle.std.specs.Prelude.{◌≡◌, ◌≤◌, ◌<◌, ◌↔◌, ℕ, IsTrue, All, length, map, vec_len};
ghost use Rattle.meta_model.specs.Runs.{run_room};
ghost use Rattle.volume_rules.specs.Depths.{greatest};
ghost use Rattle.volume_rules.specs.Moving.{named_by};
ghost use Rattle.volume_rules.specs.Rules.{DepthIsAtMostThree, KeepsBelow, pvmove_number};
ghost use Rattle.vg_check.specs.Climbing.{told, ClimbsAtMost, WaysAreShort};
ghost use Rattle.vg_check.specs.Hidden.{LegsAreHidden, OnIsHidden, VolumesBelowAreHidden};

use crate::climb::{Climb, climb_five, greatest_below};
use crate::open_group::OpenGroup;
use meta_model::{ExtentSpan, Leg, On, Segment};

// Whether each volume that a leg names is hidden, and each way down from it ends: it has at most four volumes, and at most
// three beside the PVMOVE volume.
pub(crate) fn depth_is_allowed(group: &OpenGroup, runs: &mut Vec<ExtentSpan>) -> bool
    requires below { KeepsBelow 11 group.now }
    requires room { run_room group.now.lvs ≤ vec_len runs.old }
    ensures depth { IsTrue result ↔ DepthIsAtMostThree group.now }
    ensures kept { vec_len runs.new ≡ vec_len runs.old }
{
    volumes_below_are_hidden(group) && ways_are_short(group, runs)
}

// Whether ways down from the volumes that legs name end.
fn ways_are_short(group: &OpenGroup, runs: &mut [ExtentSpan]) -> bool
    requires below { KeepsBelow 11 group.now }
    requires room { run_room group.now.lvs ≤ length runs.old }
    ensures { IsTrue result ↔ WaysAreShort group.now }
{
    let numbers = &mut runs[..group.lv_count()];
    climbs_at_most(group, Climb::Length, 4, numbers)
        && climbs_at_most(group, Climb::Load(pvmove(group)), 3, numbers)
}

// Whether no number of a volume that a leg names is greater after five rounds.
fn climbs_at_most(group: &OpenGroup, climb: Climb, most: u64, numbers: &mut [ExtentSpan]) -> bool
    requires below { KeepsBelow 11 group.now }
    requires long { length numbers.old ≡ length group.now.lvs }
    ensures { IsTrue result ↔ ClimbsAtMost group.now climb most }
{
    climb_five(group, climb, numbers);
    named_are_at_most(group, numbers, most)
}

fn named_are_at_most(group: &OpenGroup, numbers: &[ExtentSpan], most: u64) -> bool
    ensures { IsTrue result ↔ ((lv : ℕ) → lv < length group.now.lvs → greatest (map (told numbers.now) (named_by group.now lv)) ≤ most) }
{
    for number in 0..group.lv_count() {
        let segments = group.lv(number).segments.as_slice();
        if greatest_below(segments, numbers) > most {
            return false;
        }
    }
    true
}

// The number of the first volume with PVMOVE, or how many volumes there are.
pub(crate) fn pvmove(group: &OpenGroup) -> usize
    ensures { result ≡ pvmove_number group.now.lvs }
{
    for number in 0..group.lv_count() {
        if group.lv(number).status.is_pvmove() {
            return number;
        }
    }
    group.lv_count()
}

// Whether each volume that a leg names is hidden.
fn volumes_below_are_hidden(group: &OpenGroup) -> bool
    requires { KeepsBelow 11 group.now }
    ensures { IsTrue result ↔ VolumesBelowAreHidden group.now }
{
    for number in 0..group.lv_count() {
        let segments = group.lv(number).segments.as_slice();
        if !segments_hide(group, segments) {
            return false;
        }
    }
    true
}

fn segments_hide(group: &OpenGroup, segments: &[Segment]) -> bool
    ensures { IsTrue result ↔ All (LegsAreHidden group.now) segments.now }
{
    for segment in segments {
        let legs = segment.kind.legs().as_slice();
        if !legs_hide(group, legs) {
            return false;
        }
    }
    true
}

fn legs_hide(group: &OpenGroup, legs: &[Leg]) -> bool
    ensures { IsTrue result ↔ All (λ leg. OnIsHidden group.now leg.on) legs.now }
{
    for leg in legs {
        if !is_hidden(group, leg.on) {
            return false;
        }
    }
    true
}

// Whether a leg lies on a physical volume or on a hidden one.
fn is_hidden(group: &OpenGroup, on: On) -> bool
    ensures { IsTrue result ↔ OnIsHidden group.now on }
{
    match on {
        On::Pv(_) => true,
        On::Lv(number) => lv_is_hidden(group, number as usize),
    }
}

fn lv_is_hidden(group: &OpenGroup, number: usize) -> bool
    ensures { IsTrue result ↔ OnIsHidden group.now (On.Lv number) }
{
    number >= group.lv_count() || !group.lv(number).status.is_visible()
}
