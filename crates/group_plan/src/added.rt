//! The physical volumes that a line adds to a group.
ghost use Rattle.std.specs.Prelude.{◌≡◌, ◌≤◌, ◌<◌, ◌^◌, [], ◌∷◌, length, IfOk, IfSome, MatchResult, None};
ghost use Rattle.command_table.specs.Options.{number_named};
ghost use Rattle.group_plan.specs.Added.{IsAdded, added_named, added_of, added_on, data_end, data_start, pv_of};
ghost use Rattle.group_plan.specs.Judging.{IsRefusedBy, Judges, is_small, need_of, unknown_row};
ghost use Rattle.group_plan.specs.State.{IsState};

use crate::copied::copied_text;
use crate::{GroupState, PlanRefusal};
use disk_contents::PvFound;
use line_answers::OpRefusal;
use meta_model::Pv;
use pv_header::{Extents, PvHeader};
use sector_base::{ItemList, Text};
use std::alloc::{AllocError, Global};
use vg_found::Disk;

/// A physical volume that a line adds to a group.
#[derive(Debug, Drop)]
pub struct AddedPv {
    /// The number of its disk.
    pub disk: u32,
    /// The name of its disk.
    pub name: Text,
    /// The sectors of its disk.
    pub sectors: u64,
    /// The sector of its label.
    pub label: u32,
    /// Its header, as it was found.
    pub header: PvHeader,
}

impl AddedPv {
    // The sector where its data begin.
    fn data_start(&self) -> u64
        ensures { result ≡ data_start self.now }
    {
        self.header.data_start(self.sectors)
    }

    // The sector where its data end.
    fn data_end(&self) -> u64
        ensures { result ≡ data_end self.now }
    {
        self.header.data_end(self.sectors)
    }

    // Whether no extent of so many sectors fits between these.
    pub(crate) fn is_small(&self, extent_size: u64) -> bool
        requires size { extent_size ≤ 2 ^ 31 }
        requires added { IsAdded self.now }
        ensures { result ≡ is_small extent_size self.now }
    {
        self.data_end() < self.data_start() + extent_size
    }

    // How many sectors its disk needs for one.
    pub(crate) fn need(&self, extent_size: u64) -> u64
        requires size { extent_size ≤ 2 ^ 31 }
        requires added { IsAdded self.now }
        ensures { result ≡ need_of extent_size self.now }
    {
        self.data_start() + extent_size + (self.sectors - self.data_end())
    }

    // What it is in a group with extents of so many sectors.
    pub(crate) fn pv(&self, alloc: Global, extent_size: u64) -> Result<Pv, AllocError>
        requires size { 1 ≤ extent_size }
        ensures { IfOk result (λ pv. pv ≡ pv_of extent_size self.now) }
    {
        Ok(Pv {
            id: self.header.id,
            device: copied_text(alloc, &self.name)?,
            allocatable: true,
            missing: false,
            dev_size: self.sectors,
            pe_start: self.data_start(),
            pe_count: self.data_end().saturating_sub(self.data_start()) / extent_size,
        })
    }
}

/// The physical volumes on the disks with these names, in their order.
///
/// # Errors
///
/// The first name that no disk has, or whose disk holds no physical volume, as `UnknownPv`; `NoMemory` where memory is
/// wanting.
#[tactic(auto, unfolding(crate::specs::Judging::unknown_row))]
pub fn find_all_added(
    alloc: Global,
    state: &GroupState,
    names: &[Text],
) -> Result<Vec<AddedPv>, PlanRefusal>
    requires { IsState state.now }
    ensures { MatchResult result
        (λ all. (unknown_row state.now names.now ≡ None) × (all.items ≡ added_of state.now names.now))
        (IsRefusedBy (unknown_row state.now names.now)) }
{
    let mut all = Vec::new(alloc);
    for name in names {
        let number = state.names.number_of(name.as_bytes());
        match find_added(alloc, state, name, number)? {
            Some(added) => all.push(added)?,
            None => {
                let name = copied_text(alloc, name)?;
                return Err(PlanRefusal::Refused(OpRefusal::UnknownPv(name)));
            }
        }
    }
    Ok(all)
}

/// Each of these names is that of a disk that holds a physical volume.
///
/// # Errors
///
/// Else `UnknownPv` for the first that isn't; `NoMemory` where memory is wanting.
pub fn judge_known(alloc: Global, state: &GroupState, names: &[Text]) -> Result<(), PlanRefusal>
    requires { IsState state.now }
    ensures { Judges result (unknown_row state.now names.now) }
{
    let _all = find_all_added(alloc, state, names)?;
    Ok(())
}

/// This name is that of a disk that holds a physical volume.
///
/// # Errors
///
/// Else `UnknownPv`; `NoMemory` where memory is wanting.
#[tactic(auto, unfolding(crate::specs::Judging::unknown_row))]
pub fn judge_one_known(alloc: Global, state: &GroupState, name: &Text) -> Result<(), PlanRefusal>
    requires { IsState state.now }
    ensures { Judges result (unknown_row state.now (name.now ∷ [])) }
{
    let number = state.names.number_of(name.as_bytes());
    if find_added(alloc, state, name, number)?.is_none() {
        let name = copied_text(alloc, name)?;
        return Err(PlanRefusal::Refused(OpRefusal::UnknownPv(name)));
    }
    Ok(())
}

// The physical volume on the disk with this name, whose number this is, where one has it and holds one.
#[tactic(auto, unfolding(crate::specs::Added::added_named))]
fn find_added(
    alloc: Global,
    state: &GroupState,
    name: &Text,
    number: Option<u32>,
) -> Result<Option<AddedPv>, AllocError>
    requires state { IsState state.now }
    requires named { number ≡ number_named state.now.names name.now }
    requires within { IfSome number (λ number. number < length state.now.names) }
    ensures { IfOk result (λ found. found ≡ added_named state.now name.now) }
{
    match number {
        Some(number) => { added_on(alloc, name, number, state.disks.get(number as usize)) }
        None => Ok(None),
    }
}

// The physical volume on the disk with this name and number, where it holds one.
fn added_on(
    alloc: Global,
    name: &Text,
    number: u32,
    disk: &Disk,
) -> Result<Option<AddedPv>, AllocError>
    ensures { IfOk result (λ found. found ≡ added_on name.now number disk.now) }
{
    match &disk.contents {
        Some(PvFound::Whole { label, header, .. }) => Ok(Some(AddedPv {
            disk: number,
            name: copied_text(alloc, name)?,
            sectors: disk.sectors,
            label: *label,
            header: copied_header(alloc, header)?,
        })),
        _ => Ok(None),
    }
}

/// The same header again.
///
/// # Errors
///
/// Where memory is wanting.
pub fn copied_header(alloc: Global, header: &PvHeader) -> Result<PvHeader, AllocError>
    ensures { IfOk result (λ copy. copy ≡ header.now) }
{
    Ok(PvHeader {
        id: header.id,
        device_bytes: header.device_bytes,
        data_areas: copied_areas(alloc, &header.data_areas)?,
        areas: copied_areas(alloc, &header.areas)?,
        version: header.version,
        flags: header.flags,
    })
}

fn copied_areas(alloc: Global, areas: &Extents) -> Result<Extents, AllocError>
    ensures { IfOk result (λ copy. copy ≡ areas.now) }
{
    Ok(ItemList::from_vec(Vec::from_slice(alloc, areas.as_slice())?))
}
