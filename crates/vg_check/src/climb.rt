//! A number for each logical volume, which grows in rounds over the legs: what it becomes comes of those of the volumes on
//! which it lies.
ghost use Rattle.std.specs.Prelude.{◌≡◌, ◌≤◌, ◌<◌, ℕ, length, if◌then◌else◌};
ghost use Rattle.volume_rules.specs.Rules.{KeepsBelow};
ghost use Rattle.vg_check.specs.Climbing.{counted, grown, greatest_leg, greatest_segment, told, told_on, weight_beside, HasClimbed, HasGrown};

use crate::open_group::OpenGroup;
use meta_model::{ExtentSpan, Leg, On, Segment};

// What the numbers say of the ways down from a volume.
#[derive(Clone, Copy)]
pub(crate) enum Climb {
    // How many volumes the longest has.
    Length,
    // How many the longest has beside the volume with this number.
    Load(usize),
    // 1 where one meets a PVMOVE volume, else 0.
    Moves,
}

// The numbers after five rounds, as the first numbers of the runs.
pub(crate) fn climb_five(group: &OpenGroup, climb: Climb, numbers: &mut [ExtentSpan])
    requires below { KeepsBelow 11 group.now }
    requires long { length numbers.old ≡ length group.now.lvs }
    ensures { HasClimbed group.now climb 5 numbers.new }
{
    clear(numbers);
    for _round in 0..5u32 {
        grow(group, climb, numbers);
        settle(numbers);
    }
}

// Each number is 0.
fn clear(numbers: &mut [ExtentSpan])
    ensures { (lv : ℕ) → told numbers.new lv ≡ 0 }
{
    for i in 0..numbers.len() {
        numbers[i].first = 0;
    }
}

// Puts what each number becomes beside it.
fn grow(group: &OpenGroup, climb: Climb, numbers: &mut [ExtentSpan])
    requires long { length numbers.old ≡ length group.now.lvs }
    requires low { (lv : ℕ) → told numbers.old lv ≤ 4 }
    ensures { HasGrown group.now climb numbers.old numbers.new (length numbers.old) }
{
    for number in 0..numbers.len() {
        let segments = group.lv(number).segments.as_slice();
        let below = greatest_below(segments, numbers);
        numbers[number].count = grown_number(group, climb, number, below);
    }
}

// Each number is what stood beside it.
fn settle(numbers: &mut [ExtentSpan])
    ensures { (lv : ℕ) → told numbers.new lv ≡ counted numbers.old lv }
{
    for i in 0..numbers.len() {
        numbers[i].first = numbers[i].count;
    }
}

// What the number of a volume becomes, where this is the greatest of those on which it lies.
fn grown_number(group: &OpenGroup, climb: Climb, number: usize, below: u64) -> u64
    requires within { number < length group.now.lvs }
    requires low { below ≤ 4 }
    ensures { result ≡ grown group.now climb number below }
{
    match climb {
        Climb::Length => 1 + below,
        Climb::Load(light) => weight(light, number) + below,
        Climb::Moves => flag(group.lv(number).status.is_pvmove()).max(below),
    }
}

// What a volume weighs where one is light.
fn weight(light: usize, number: usize) -> u64
    ensures { result ≡ weight_beside light number }
{
    if number == light { 0 } else { 1 }
}

fn flag(is: bool) -> u64
    ensures { result ≡ (if is then 1 else 0) }
{
    if is { 1 } else { 0 }
}

// The greatest number of the volumes that these segments lie on, 0 where there is none.
pub(crate) fn greatest_below(segments: &[Segment], numbers: &[ExtentSpan]) -> u64
    ensures { result ≡ greatest_segment numbers.now segments.now }
{
    let mut best = 0;
    for segment in segments {
        let legs = segment.kind.legs().as_slice();
        best = best.max(greatest_of_legs(legs, numbers));
    }
    best
}

fn greatest_of_legs(legs: &[Leg], numbers: &[ExtentSpan]) -> u64
    ensures { result ≡ greatest_leg numbers.now legs.now }
{
    let mut best = 0;
    for leg in legs {
        best = best.max(number_on(leg.on, numbers));
    }
    best
}

// The number of a logical volume, and 0 for a physical one.
fn number_on(on: On, numbers: &[ExtentSpan]) -> u64
    ensures { result ≡ told_on numbers.now on }
{
    match on {
        On::Pv(_) => 0,
        On::Lv(number) => match numbers.get(number as usize) {
            Some(run) => run.first,
            None => 0,
        },
    }
}
