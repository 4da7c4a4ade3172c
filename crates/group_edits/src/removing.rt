//! A group without a logical volume, and without those that go with it.
ghost use Rattle.std.specs.Prelude.{◌≡◌, ◌≢◌, ◌<◌, ◌≤◌, ◌||◌, ℕ, false, length, map, IfOk};
ghost use Rattle.std.specs.List.{list_any};
ghost use Rattle.seg_place.specs.Marks as marks;
ghost use Rattle.volume_rules.specs.Moving.{leads_to_pvmove};
ghost use Rattle.volume_rules.specs.Rules.{IsAccepted};
ghost use Rattle.group_edits.specs.Marking as marking;
ghost use Rattle.group_edits.specs.Removing as removing;
ghost use Rattle.group_edits.specs.Renumbered.{renumbered_row};
ghost use Rattle.group_edits.specs.Visible.{IsVisible};

use crate::leg_numbers::renumbered_lv;
use crate::new_numbers::{Marks, NewNumbers, is_marked};
use crate::next::with_lvs;
use meta_model::{Group, Leg, LvTable, On, Segment};
use std::alloc::{AllocError, Global};
use vg_check::Checked;

/// The next version of the group without the visible volume with this number, and without the hidden ones that only its legs
/// name, downwards.
///
/// # Errors
///
/// Where memory is wanting.
pub fn without_volume(alloc: Global, group: &Checked, number: u32) -> Result<Checked, AllocError>
    requires visible { IsVisible group.now number }
    requires still { leads_to_pvmove group.now 4 number ≡ false }
    requires seqno { group.now.seqno ≢ 4294967295 }
    ensures { IfOk result (λ rest. rest ≡ removing.without_volume group.now number) }
{
    let found = group.group();
    let goes = going(found, number);
    let numbers = NewNumbers::new(goes);
    let lvs = rows_after(alloc, &found.lvs, &numbers)?;
    let next = with_lvs(alloc, found, lvs)?;
    Ok(Checked::new(next))
}

// Marks of the volumes that go where this one is removed. It goes over all legs five times.
fn going(group: &Group, removed: u32) -> Marks
    requires { IsAccepted group.now }
    ensures told { (lv : ℕ) → lv < 1024 → marks.is_marked result lv ≡ removing.goes_with group.now removed 4 lv }
    ensures past { (lv : ℕ) → 1024 ≤ lv → marks.is_marked result lv ≡ false }
{
    let none = [false; 1024];
    let named = below(group, &none);
    let mut goes = next(&none, &none, removed);
    for _round in 0..4u32 {
        let held = below(group, &goes);
        goes = next(&named, &held, removed);
    }
    goes
}

// The removed volume, and those of the named ones that aren't held.
fn next(named: &Marks, held: &Marks, removed: u32) -> Marks
    ensures told { (lv : ℕ) → lv < 1024 → marks.is_marked result lv ≡ marking.goes_by named.now held.now removed lv }
    ensures past { (lv : ℕ) → 1024 ≤ lv → marks.is_marked result lv ≡ false }
{
    let mut goes = [false; 1024];
    for lv in 0..1024u32 {
        goes[lv as usize] = goes_by(named, held, removed, lv);
    }
    goes
}

fn goes_by(named: &Marks, held: &Marks, removed: u32, lv: u32) -> bool
    ensures { result ≡ marking.goes_by named.now held.now removed lv }
{
    lv == removed || (is_marked(named, lv) && !is_marked(held, lv))
}

// Marks of the volumes on which legs lie of a volume that isn't marked.
fn below(group: &Group, skipped: &Marks) -> Marks
    requires { length group.now.lvs ≤ 1024 }
    ensures { (lv : ℕ) → lv < 1024 → marks.is_marked result lv ≡ list_any (marking.holds group.now skipped.now lv) (removing.lv_numbers group.now) }
{
    let mut all = [false; 1024];
    for number in 0..group.lvs.len() {
        let (_, lv) = group.lvs.get(number);
        if !is_marked(skipped, number as u32) {
            mark_segments(&mut all, lv.segments.as_slice());
        }
    }
    all
}

fn mark_segments(all: &mut Marks, segments: &[Segment])
    ensures { (x : ℕ) → x < 1024 → marks.is_marked all.new x ≡ (marks.is_marked all.old x || list_any (marking.segment_names x) segments.now) }
{
    for segment in segments {
        mark_legs(all, segment.kind.legs().as_slice());
    }
}

fn mark_legs(all: &mut Marks, legs: &[Leg])
    ensures { (x : ℕ) → x < 1024 → marks.is_marked all.new x ≡ (marks.is_marked all.old x || list_any (marking.leg_names x) legs.now) }
{
    for leg in legs {
        mark(all, leg.on);
    }
}

fn mark(all: &mut Marks, on: On)
    ensures { (x : ℕ) → x < 1024 → marks.is_marked all.new x ≡ (marks.is_marked all.old x || marking.on_names x on) }
{
    if let On::Lv(lv) = on {
        if lv < 1024 {
            all[lv as usize] = true;
        }
    }
}

// The volumes that aren't marked, with legs on volumes by their new numbers. That no name stands twice isn't asked, as in
// `renamed_volume`.
fn rows_after(alloc: Global, lvs: &LvTable, numbers: &NewNumbers) -> Result<LvTable, AllocError>
    requires { length lvs.now ≤ 1024 }
    ensures { IfOk result (λ rest. rest ≡ map (renumbered_row (removing.on_after (marking.unmarked numbers.now))) (removing.that_stay (marking.unmarked numbers.now) 0 lvs.now)) }
{
    let mut rest = LvTable::new(alloc);
    for number in 0..lvs.len() {
        let (name, lv) = lvs.get(number);
        if numbers.stays(number as u32) {
            let name = name.try_copy(alloc)?;
            let lv = renumbered_lv(alloc, lv, numbers)?;
            if rest.push(name, lv).is_err() {
                return Err(AllocError);
            }
        }
    }
    Ok(rest)
}
