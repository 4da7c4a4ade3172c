//! The line of vgs.
ghost use Rattle.std.specs.Prelude.{◌≡◌, ◌++◌, IfOk, if◌then◌else◌, length};
ghost use Rattle.volume_rules.specs.Rules.{IsAccepted};
ghost use Rattle.lvm_report.specs.Reports.{vg_line};
ghost use Rattle.lvm_report.specs.Volumes.{extents_of_group, free_of_group, visible_volumes};

use crate::columns::{put_last, put_left, put_right};
use crate::runs::total;
use extent_map::all_free_runs;
use meta_model::Group;
use std::alloc::{AllocError, Global};

/// Appends the line of the group.
pub fn put_group(alloc: Global, text: &mut Vec<u8>, group: &Group) -> Result<(), AllocError>
    requires { IsAccepted group.now }
    ensures { IfOk result (λ _. text.new.items ≡ text.old.items ++ vg_line group.now) }
{
    put_left(text, 16, group.name.as_bytes())?;
    put_right(text, 6, group.pvs.len() as u64)?;
    put_right(text, 6, count_visible(group))?;
    put_right(text, 10, group.seqno)?;
    put_right(text, 10, count_extents(group))?;
    put_last(text, 10, count_free(alloc, group)?)
}

// How many of the volumes are visible.
fn count_visible(group: &Group) -> u64
    ensures { result ≡ length (visible_volumes group.now) }
{
    let mut count = 0;
    for number in 0..group.lvs.len() {
        let (_, lv) = group.lvs.get(number);
        count += one_if(lv.status.is_visible());
    }
    count
}

// 1 where it is so, else 0.
fn one_if(is: bool) -> u64
    ensures { result ≡ (if is then 1 else 0) }
{
    if is { 1 } else { 0 }
}

// How many extents the physical volumes have.
fn count_extents(group: &Group) -> u64
    requires { IsAccepted group.now }
    ensures { result ≡ extents_of_group group.now }
{
    let mut extents = 0;
    for number in 0..group.pvs.len() {
        let (_, pv) = group.pvs.get(number);
        extents += pv.pe_count;
    }
    extents
}

// How many of them lie in no leg.
fn count_free(alloc: Global, group: &Group) -> Result<u64, AllocError>
    requires { IsAccepted group.now }
    ensures { IfOk result (λ free. free ≡ free_of_group group.now) }
{
    let all = all_free_runs(alloc, group)?;
    let mut free = 0;
    for number in 0..all.len() {
        free += total(all.get(number).as_slice());
    }
    Ok(free)
}
