//! Whether a volume is moving, and whether a move stands.
ghost use Rattle.std.specs.Prelude.{◌≡◌, ◌≤◌, ◌||◌, ℕ, length};
ghost use Rattle.volume_rules.specs.Moving.{has_move, leads_to_pvmove};
ghost use Rattle.volume_rules.specs.Rules.{IsAccepted};
ghost use Rattle.seg_place.specs.Marks.{is_above, is_marked, legs_on_marked, lies_on_marked, segments_on_marked};

use meta_model::{Group, Leg, Lv, On, Segment};

// A mark for each logical volume, as many as a group may have.
type Marks = [bool; 1024];

/// Whether legs lead down from the volume to the PVMOVE volume. It goes over all legs five times, and over none where no
/// volume has PVMOVE.
pub fn is_moving(group: &Group, lv: u32) -> bool
    requires { IsAccepted group.now }
    ensures { result ≡ leads_to_pvmove group.now 4 lv }
{
    if !has_move(group) {
        return false;
    }
    let mut marks = [false; 1024];
    for _round in 0..5u32 {
        marks = marks_above(group, &marks);
    }
    lies_on_marked(On::Lv(lv), &marks)
}

/// Whether a move stands in the group: one of its volumes has PVMOVE.
pub fn has_move(group: &Group) -> bool
    ensures { result ≡ has_move group.now }
{
    for number in 0..group.lvs.len() {
        let (_, volume) = group.lvs.get(number);
        if volume.status.is_pvmove() {
            return true;
        }
    }
    false
}

// The volumes that have PVMOVE or lie on a marked one.
fn marks_above(group: &Group, marks: &Marks) -> Marks
    requires { length group.now.lvs ≤ 1024 }
    ensures { (lv : ℕ) → is_marked result lv ≡ is_above group.now marks.now lv }
{
    let mut above = [false; 1024];
    for number in 0..group.lvs.len() {
        let (_, volume) = group.lvs.get(number);
        above[number] = is_above(volume, marks);
    }
    above
}

fn is_above(volume: &Lv, marks: &Marks) -> bool
    ensures { result ≡ (volume.now.status.pvmove || segments_on_marked marks.now volume.now.segments) }
{
    volume.status.is_pvmove() || segments_on_marked(volume.segments.as_slice(), marks)
}

// Whether a leg of one of the segments lies on a marked volume.
fn segments_on_marked(segments: &[Segment], marks: &Marks) -> bool
    ensures { result ≡ segments_on_marked marks.now segments.now }
{
    segments.iter().any(|segment| legs_on_marked(segment.kind.legs().as_slice(), marks))
}

fn legs_on_marked(legs: &[Leg], marks: &Marks) -> bool
    ensures { result ≡ legs_on_marked marks.now legs.now }
{
    legs.iter().any(|leg| lies_on_marked(leg.on, marks))
}

fn lies_on_marked(on: On, marks: &Marks) -> bool
    ensures { result ≡ lies_on_marked marks.now on }
{
    match on {
        On::Pv(_) => false,
        On::Lv(lv) => marks.get(lv as usize).copied().unwrap_or(false),
    }
}
