//! Whether each extent lies in one leg at most.
ghost use Rattle.std.specs.Prelude.{◌≡◌, ◌≤◌, ◌+◌, ◌↔◌, IsTrue, All, AllPairs, length, map, take, vec_len};
ghost use Rattle.std.specs.List.{AllAdjacentBelow};
ghost use Rattle.std.specs.List.Sorted.{IsPermutation};
ghost use Rattle.meta_model.specs.Runs.{run_room};
ghost use Rattle.volume_rules.specs.Rules.{KeepsBelow, LegsLieApart};
ghost use Rattle.volume_rules.specs.Sorting.{CanBeSorted, NoExtentInBoth, StandsBefore, on_number};
ghost use Rattle.vg_check.specs.SortedRuns.{leg_run, segment_runs, volume_runs, group_runs, Puts, HasSortedRuns};
ghost use Rattle.vg_check.specs.Whole.{SegmentIsWhole};

use crate::extents::share;
use crate::open_group::OpenGroup;
use meta_model::{ExtentSpan, Leg, On, Segment};
use volume_rules::{lie_apart, sort_runs};

// Whether no extent lies in two legs. Then the runs of the legs stand first, in order.
pub(crate) fn legs_lie_apart(group: &OpenGroup, runs: &mut Vec<ExtentSpan>) -> bool
    requires below { KeepsBelow 10 group.now }
    requires room { run_room group.now.lvs ≤ vec_len runs.old }
    ensures apart { IsTrue result ↔ LegsLieApart group.now }
    ensures kept { vec_len runs.new ≡ vec_len runs.old }
    ensures sorted { HasSortedRuns group.now runs.new.items }
{
    group_lies_apart(group, runs)
}

fn group_lies_apart(group: &OpenGroup, runs: &mut [ExtentSpan]) -> bool
    requires below { KeepsBelow 10 group.now }
    requires room { run_room group.now.lvs ≤ length runs.old }
    ensures apart { IsTrue result ↔ LegsLieApart group.now }
    ensures sorted { HasSortedRuns group.now runs.new }
{
    let count = put_group(runs, group);
    front_lies_apart(runs, count)
}

// Puts the run of each leg first, in order, and tells how many they are.
pub(crate) fn sort_legs(group: &OpenGroup, runs: &mut [ExtentSpan]) -> usize
    requires below { KeepsBelow 10 group.now }
    requires room { run_room group.now.lvs ≤ length runs.old }
    ensures count { result ≡ length (group_runs group.now) }
    ensures sorted { HasSortedRuns group.now runs.new }
{
    let count = put_group(runs, group);
    sort_front(runs, count);
    count
}

// Puts the first runs, so many, in order.
fn sort_front(runs: &mut [ExtentSpan], count: usize)
    requires within { count ≤ length runs.old }
    requires sortable { All CanBeSorted (take count runs.old) }
    ensures order { AllAdjacentBelow StandsBefore (take count runs.new) count }
    ensures moved { IsPermutation (take count runs.old) (take count runs.new) }
{
    sort_runs(&mut runs[..count])
}

// Whether the first runs lie apart, so many of them, which are put in order.
fn front_lies_apart(runs: &mut [ExtentSpan], count: usize) -> bool
    requires within { count ≤ length runs.old }
    requires sortable { All CanBeSorted (take count runs.old) }
    ensures apart { IsTrue result ↔ AllPairs NoExtentInBoth (take count runs.old) }
    ensures order { AllAdjacentBelow StandsBefore (take count runs.new) count }
    ensures moved { IsPermutation (take count runs.old) (take count runs.new) }
{
    lie_apart(&mut runs[..count])
}

// Puts the run of each leg of the group first, and tells how many they are.
fn put_group(runs: &mut [ExtentSpan], group: &OpenGroup) -> usize
    requires below { KeepsBelow 10 group.now }
    requires room { length (group_runs group.now) ≤ length runs.old }
    ensures { Puts runs.old 0 (group_runs group.now) runs.new result }
{
    let mut count = 0;
    for number in 0..group.lv_count() {
        let segments = group.lv(number).segments.as_slice();
        count = put_volume(runs, count, segments);
    }
    count
}

// Puts the run of each leg of these segments behind the first runs, so many, and tells how many they are then.
fn put_volume(runs: &mut [ExtentSpan], count: usize, segments: &[Segment]) -> usize
    requires whole { All SegmentIsWhole segments.now }
    requires room { count + length (volume_runs segments.now) ≤ length runs.old }
    ensures { Puts runs.old count (volume_runs segments.now) runs.new result }
{
    let mut count = count;
    for segment in segments {
        count = put_segment(runs, count, segment);
    }
    count
}

// Puts the run of each leg of the segment there.
fn put_segment(runs: &mut [ExtentSpan], count: usize, segment: &Segment) -> usize
    requires whole { SegmentIsWhole segment.now }
    requires room { count + length (segment_runs segment.now) ≤ length runs.old }
    ensures { Puts runs.old count (segment_runs segment.now) runs.new result }
{
    let extents = share(segment);
    let legs = segment.kind.legs().as_slice();
    put_legs(runs, count, extents, legs)
}

// Puts the run of each leg there, which covers so many extents.
fn put_legs(runs: &mut [ExtentSpan], count: usize, extents: u64, legs: &[Leg]) -> usize
    requires { count + length legs.now ≤ length runs.old }
    ensures { Puts runs.old count (map (leg_run extents) legs.now) runs.new result }
{
    let mut count = count;
    for leg in legs {
        runs[count] = run_of(leg, extents);
        count += 1;
    }
    count
}

// The run of a leg that covers so many extents.
fn run_of(leg: &Leg, count: u64) -> ExtentSpan
    ensures { result ≡ leg_run count leg.now }
{
    ExtentSpan {
        on: number_of(leg.on),
        first: leg.first,
        count,
    }
}

// One number for each physical and each logical volume.
fn number_of(on: On) -> u64
    ensures { result ≡ on_number on }
{
    match on {
        On::Pv(number) => 2 * u64::from(number),
        On::Lv(number) => 2 * u64::from(number) + 1,
    }
}
