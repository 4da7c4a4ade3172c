//! The list of the states of a mirror segment's regions.
ghost use Rattle.std.specs.Prelude.{◌≡◌, ◌≤◌, ◌<◌, IfOk, length, position, replicate, slice_get, slice_set};
ghost use Rattle.std.specs.List.{position_or_len};
ghost use Rattle.region_log.specs.Regions.{is_unsynced};

use crate::Region;
use std::alloc::{AllocError, Global};
use std::marker::Model;

/// The states of the regions of a mirror segment. Contracts see it as the list of them.
#[derive(Debug, Drop)]
pub struct RegionLog {
    states: Vec<Region>,
    next: usize,
}

impl Model for RegionLog {
    ghost use Rattle.std.specs.Prelude.{◌≡◌, List};
    ghost use Rattle.std.specs.List.{position_or_len};
    ghost use Rattle.region_log.specs.declared.region.Region.{Region};
    ghost use Rattle.region_log.specs.Regions.{is_unsynced};

    ghost Value = { List Region };

    ghost view = { λ log. log.states.items };

    // The next one to be copied is kept: the first that is Unsynced, or the number of regions.
    ghost invariant = { λ log. log.next ≡ position_or_len is_unsynced log.states.items };
}

// The first Unsynced region, or their number, where there is none before `from`.
fn first_unsynced(states: &[Region], from: usize) -> usize
    requires { from ≤ position_or_len is_unsynced states.now }
    ensures { result ≡ position_or_len is_unsynced states.now }
{
    let mut at = from;
    while at < states.len() && !states[at].is_unsynced() {
        at += 1;
    }
    at
}

impl RegionLog {
    /// The log of so many regions, all Unsynced. Only memory can be wanting.
    pub fn new(alloc: Global, regions: u64) -> Result<Self, AllocError>
        ensures { IfOk result (λ log. log ≡ replicate regions Region.Unsynced) }
    {
        Ok(RegionLog {
            states: vec![in alloc; Region::Unsynced; regions as usize]?,
            next: 0,
        })
    }

    /// The state of the region.
    pub fn state(&self, region: u64) -> Region
        requires { region < length self.now }
        ensures { slice_get self.now region ≡ Some result }
    {
        self.states[region as usize]
    }

    /// The region is being copied from now on.
    pub fn copying(&mut self, region: u64)
        requires { region < length self.old }
        ensures { self.new ≡ slice_set self.old region Region.Copying }
    {
        self.set(region, Region::Copying);
    }

    /// The region's legs agree from now on.
    pub fn synced(&mut self, region: u64)
        requires { region < length self.old }
        ensures { self.new ≡ slice_set self.old region Region.Synced }
    {
        self.set(region, Region::Synced);
    }

    /// The region's legs may differ from now on.
    pub fn unsynced(&mut self, region: u64)
        requires { region < length self.old }
        ensures { self.new ≡ slice_set self.old region Region.Unsynced }
    {
        self.set(region, Region::Unsynced);
    }

    /// The least Unsynced region; `None` exactly where there is none.
    pub fn next_to_copy(&self) -> Option<u64>
        ensures { result ≡ position is_unsynced self.now }
    {
        if self.next < self.states.len() {
            Some(self.next as u64)
        } else {
            None
        }
    }

    // An Unsynced region may be the next one to be copied; otherwise the next one is where it was, or after it.
    fn set(&mut self, region: u64, state: Region)
        requires { region < length self.old }
        ensures { self.new ≡ slice_set self.old region state }
    {
        let at = region as usize;
        let from = if state.is_unsynced() {
            self.next.min(at)
        } else {
            self.next
        };
        self.states[at] = state;
        self.next = first_unsynced(&self.states, from);
    }
}
