//! Whether there is one move at most, and it is one from one physical volume.
ghost use Rattle.std.specs.Prelude.{◌≡◌, ◌≤◌, ◌<◌, ◌↔◌, ℕ, IsTrue, length, vec_len};
ghost use Rattle.meta_model.specs.Runs.{run_room};
ghost use Rattle.volume_rules.specs.Rules.{IsPvmove, KeepsBelow, PvmoveIsAllowed};
ghost use Rattle.vg_check.specs.Moves.{IsMoveAt, IsUsedWhole, LooksLikeMove};

use crate::apart::sort_legs;
use crate::covers::cover;
use crate::depth::pvmove;
use crate::extents::extents;
use crate::move_segments::move_from_one;
use crate::open_group::OpenGroup;
use lvm_name::VolumeName;
use meta_model::{ExtentSpan, Lv};

// Whether there is one PVMOVE volume at most, and it is a move.
pub(crate) fn move_is_allowed(group: &OpenGroup, runs: &mut Vec<ExtentSpan>) -> bool
    requires below { KeepsBelow 13 group.now }
    requires room { run_room group.now.lvs ≤ vec_len runs.old }
    ensures allowed { IsTrue result ↔ PvmoveIsAllowed group.now }
    ensures kept { vec_len runs.new ≡ vec_len runs.old }
{
    let number = pvmove(group);
    if number == group.lv_count() {
        return true;
    }
    none_moves(group, number + 1) && is_move(group, number, runs)
}

// Whether no volume from this number on has PVMOVE.
fn none_moves(group: &OpenGroup, from: usize) -> bool
    ensures { IsTrue result ↔ ((number : ℕ) → from ≤ number → IsPvmove group.now number → ⊥) }
{
    for number in from..group.lv_count() {
        if group.lv(number).status.is_pvmove() {
            return false;
        }
    }
    true
}

// Whether the volume is a move.
fn is_move(group: &OpenGroup, number: usize, runs: &mut [ExtentSpan]) -> bool
    requires below { KeepsBelow 13 group.now }
    requires room { run_room group.now.lvs ≤ length runs.old }
    requires within { number < length group.now.lvs }
    ensures { IsTrue result ↔ IsMoveAt group.now number }
{
    let (name, lv) = group.lv_row(number);
    looks_like_move(name, lv)
        && move_from_one(lv.segments.as_slice())
        && is_used_whole(group, number, runs)
}

// Whether the volume is hidden, locked, and named as a move.
fn looks_like_move(name: &VolumeName, lv: &Lv) -> bool
    ensures { IsTrue result ↔ LooksLikeMove name.now lv.now }
{
    !lv.status.is_visible() && lv.status.is_locked() && name.as_bytes().starts_with(b"pvmove")
}

// Whether each extent of the volume lies in a leg.
fn is_used_whole(group: &OpenGroup, number: usize, runs: &mut [ExtentSpan]) -> bool
    requires below { KeepsBelow 13 group.now }
    requires room { run_room group.now.lvs ≤ length runs.old }
    requires within { number < length group.now.lvs }
    ensures { IsTrue result ↔ IsUsedWhole group.now number }
{
    let count = sort_legs(group, runs);
    let on = 2 * number as u64 + 1;
    cover(&runs[..count], on, extents(group.lv(number)))
}
