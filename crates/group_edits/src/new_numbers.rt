//! The new numbers of the logical volumes that stay.
ghost use Rattle.std.specs.Prelude.{◌≡◌, List, Bool, not};
ghost use Rattle.seg_place.specs.Marks as marks;
ghost use Rattle.group_edits.specs.Marking.{HasNumbers, unmarked};
ghost use Rattle.group_edits.specs.Removing.{number_after, on_after};

use crate::leg_numbers::Numbering;
use meta_model::On;
use std::marker::Model;

/// A mark for each logical volume, as many as a group may have.
pub(crate) type Marks = [bool; 1024];

/// The new numbers of volumes, where those that are marked go. Contracts see the marks.
#[derive(Drop)]
pub(crate) struct NewNumbers {
    goes: Marks,
    // Of each volume that has a mark.
    table: [u32; 1024],
}

impl Model for NewNumbers {
    ghost Value = { List Bool };

    ghost view = { λ n. n.goes };

    ghost invariant = { λ n. HasNumbers n.goes n.table };
}

impl NewNumbers {
    /// Those where the marked volumes go.
    pub(crate) fn new(goes: Marks) -> NewNumbers
        ensures { result ≡ goes }
    {
        let table = numbered(&goes);
        NewNumbers { goes, table }
    }

    /// Whether this volume stays.
    pub(crate) fn stays(&self, lv: u32) -> bool
        ensures { result ≡ unmarked self.now lv }
    {
        !is_marked(&self.goes, lv)
    }

    // The new number of this volume.
    fn of(&self, lv: u32) -> u32
        ensures { result ≡ number_after (unmarked self.now) lv }
    {
        match self.table.get(lv as usize) {
            Some(number) => *number,
            None => counted(&self.goes, lv),
        }
    }
}

impl Numbering for NewNumbers {
    ghost new_of = { λ goes. on_after (unmarked goes) };

    fn new_on(&self, on: On) -> On {
        match on {
            On::Pv(pv) => On::Pv(pv),
            On::Lv(lv) => On::Lv(self.of(lv)),
        }
    }
}

// The new number of each volume that has a mark.
fn numbered(goes: &Marks) -> [u32; 1024]
    ensures { HasNumbers goes.now result }
{
    let mut table = [0; 1024];
    let mut number = 0;
    for lv in 0..1024u32 {
        table[lv as usize] = number;
        if !is_marked(goes, lv) {
            number += 1;
        }
    }
    table
}

// How many volumes before this one aren't marked.
fn counted(goes: &Marks, lv: u32) -> u32
    ensures { result ≡ number_after (unmarked goes.now) lv }
{
    let mut number = 0;
    for earlier in 0..lv {
        if !is_marked(goes, earlier) {
            number += 1;
        }
    }
    number
}

/// Whether this volume is marked.
pub(crate) fn is_marked(all: &Marks, lv: u32) -> bool
    ensures { result ≡ marks.is_marked all.now lv }
{
    all.get(lv as usize).copied().unwrap_or(false)
}
