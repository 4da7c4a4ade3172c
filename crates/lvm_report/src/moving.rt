//! Which volumes are moving.
ghost use Rattle.std.specs.Prelude.{◌≡◌, ◌||◌, IfOk};
ghost use Rattle.std.specs.List.{list_any};
ghost use Rattle.lvm_report.specs.Marks.{is_marked, leg_is_marked, names_marked, next_marks};
ghost use Rattle.lvm_report.specs.Volumes.{leading_down};

use meta_model::{Group, Leg, Lv, On, Segment};
use std::alloc::{AllocError, Global};

// In so many steps legs lead down from a volume to any that lies below it.
const STEPS: usize = 4;

/// Of each volume, whether it is moving: whether legs lead down from it to the volume of a move. It looks at each leg once for
/// each step down.
///
/// # Errors
///
/// Where memory is wanting.
pub fn moving_volumes(alloc: Global, group: &Group) -> Result<Vec<bool>, AllocError>
    ensures { IfOk result (λ moving. moving.items ≡ leading_down group.now 4) }
{
    let mut moving = pvmove_volumes(alloc, group)?;
    for _ in 0..STEPS {
        moving = with_one_step(alloc, group, &moving)?;
    }
    Ok(moving)
}

// Of each volume, whether it is the volume of a move.
fn pvmove_volumes(alloc: Global, group: &Group) -> Result<Vec<bool>, AllocError>
    ensures { IfOk result (λ moving. moving.items ≡ leading_down group.now 0) }
{
    let mut moving = Vec::with_capacity(alloc, group.lvs.len())?;
    for number in 0..group.lvs.len() {
        let (_, lv) = group.lvs.get(number);
        moving.push(lv.status.is_pvmove())?;
    }
    Ok(moving)
}

// Of each volume, whether legs lead down to the volume of a move in one step more than `below` says.
fn with_one_step(alloc: Global, group: &Group, below: &[bool]) -> Result<Vec<bool>, AllocError>
    ensures { IfOk result (λ moving. moving.items ≡ next_marks group.now below.now) }
{
    let mut moving = Vec::with_capacity(alloc, group.lvs.len())?;
    for number in 0..group.lvs.len() {
        let (_, lv) = group.lvs.get(number);
        moving.push(leads_down(lv, below))?;
    }
    Ok(moving)
}

// Whether the volume is that of a move, or one of its legs lies on a volume that is marked.
fn leads_down(lv: &Lv, marked: &[bool]) -> bool
    ensures { result ≡ (lv.now.status.pvmove || list_any (names_marked marked.now) lv.now.segments) }
{
    lv.status.is_pvmove() || names_marked(lv.segments.as_slice(), marked)
}

// Whether a leg of the segments lies on a volume that is marked.
fn names_marked(segments: &[Segment], marked: &[bool]) -> bool
    ensures { result ≡ list_any (names_marked marked.now) segments.now }
{
    for segment in segments {
        if lies_on_marked(segment.kind.legs().as_slice(), marked) {
            return true;
        }
    }
    false
}

// Whether one of the legs does.
fn lies_on_marked(legs: &[Leg], marked: &[bool]) -> bool
    ensures { result ≡ list_any (leg_is_marked marked.now) legs.now }
{
    for leg in legs {
        if is_marked(leg.on, marked) {
            return true;
        }
    }
    false
}

// Whether it is a logical volume that is marked.
fn is_marked(on: On, marked: &[bool]) -> bool
    ensures { result ≡ is_marked marked.now on }
{
    match on {
        On::Pv(_) => false,
        On::Lv(number) => match marked.get(number as usize) {
            Some(mark) => *mark,
            None => false,
        },
    }
}
