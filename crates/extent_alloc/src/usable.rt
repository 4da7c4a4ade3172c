//! The physical volumes that a request may use.
ghost use Rattle.std.specs.Prelude.{◌≡◌, ◌<◌, IfOk, length, nat_eq};
ghost use Rattle.std.specs.FinSet as set;
ghost use Rattle.volume_rules.specs.Rules.{IsAccepted};
ghost use Rattle.extent_alloc.specs.Refusals as refusals;
ghost use Rattle.extent_alloc.specs.Usable as specs;

use crate::Request;
use crate::sources::sources;
use meta_model::Group;
use sector_base::PvSet;
use std::alloc::{AllocError, Global};

// How many physical volumes the group has.
pub(crate) fn pv_count(group: &Group) -> u32
    requires { IsAccepted group.now }
    ensures { result ≡ length group.now.pvs }
{
    group.pvs.len() as u32
}

// The first physical volume that the request names and that isn't allocatable.
pub(crate) fn first_barred(group: &Group, want: &Request) -> Option<u32>
    requires { IsAccepted group.now }
    ensures { result ≡ refusals.first_barred group.now want.now }
{
    for pv in 0..pv_count(group) {
        if is_barred(group, want, pv) {
            return Some(pv);
        }
    }
    None
}

// Whether the request names it, and it isn't allocatable.
fn is_barred(group: &Group, want: &Request, pv: u32) -> bool
    requires { pv < length group.now.pvs }
    ensures { result ≡ refusals.is_barred group.now want.now pv }
{
    want.on.contains(pv) && !is_allocatable(group, pv)
}

// Those that may be used, in the order of the text.
pub(crate) fn usable_pvs(
    alloc: Global,
    group: &Group,
    want: &Request,
) -> Result<Vec<u32>, AllocError>
    requires { IsAccepted group.now }
    ensures { IfOk result (λ pvs. pvs.items ≡ specs.usable_pvs group.now want.now) }
{
    let sources = sources(&group.lvs);
    let all = names_none(want);
    let mut pvs = Vec::new(alloc);
    for pv in 0..pv_count(group) {
        if is_usable(group, want, all, &sources, pv) {
            pvs.push(pv)?;
        }
    }
    Ok(pvs)
}

// Whether it may be used, where all are in reach or those that are named, and these are the sources of moves.
fn is_usable(group: &Group, want: &Request, all: bool, sources: &PvSet, pv: u32) -> bool
    requires stands { pv < length group.now.pvs }
    requires all { all ≡ nat_eq (set.len want.now.on) 0 }
    requires sources { set.contains sources.now pv ≡ specs.is_source group.now pv }
    ensures { result ≡ specs.is_usable group.now want.now pv }
{
    is_allocatable(group, pv)
        && !is_missing(group, pv)
        && is_wanted(want, all, pv)
        && !sources.contains(pv)
}

fn is_allocatable(group: &Group, pv: u32) -> bool
    requires { pv < length group.now.pvs }
    ensures { result ≡ specs.is_allocatable group.now pv }
{
    let (_, volume) = group.pvs.get(pv as usize);
    volume.allocatable
}

fn is_missing(group: &Group, pv: u32) -> bool
    requires { pv < length group.now.pvs }
    ensures { result ≡ specs.is_missing group.now pv }
{
    let (_, volume) = group.pvs.get(pv as usize);
    volume.missing
}

// Whether the request names no volume.
fn names_none(want: &Request) -> bool
    ensures { result ≡ nat_eq (set.len want.now.on) 0 }
{
    want.on.is_empty()
}

// Whether the request's sets let it be used.
fn is_wanted(want: &Request, all: bool, pv: u32) -> bool
    requires { all ≡ nat_eq (set.len want.now.on) 0 }
    ensures { result ≡ specs.is_wanted want.now pv }
{
    (all || want.on.contains(pv)) && !want.avoid.contains(pv)
}
