//! The stale areas, where each area is asked for.
ghost use Rattle.std.specs.Prelude.{◌≡◌, IfOk};
ghost use Rattle.vg_repair.specs.Stale.{is_among};

use std::alloc::{AllocError, Global};
use std::collections::BTreeSet;
use std::marker::Model;

// Areas, each by the number of its disk and its own there, which are found without looking along them. Contracts see the
// list of them.
#[derive(Debug, Drop)]
pub(crate) struct StaleSet<'a> {
    list: &'a [(u32, u32)],
    set: BTreeSet<(u32, usize)>,
}

impl<'a> Model for StaleSet<'a> {
    ghost use Rattle.std.specs.Prelude.{ℕ, List};
    ghost use Rattle.vg_repair.specs.Stale.{HasAreas};

    ghost Value = { List (ℕ × ℕ) };

    ghost view = { λ stale. stale.list.now };

    ghost invariant = { λ stale. HasAreas stale.set stale.list.now };
}

impl<'a> StaleSet<'a> {
    // These areas. Only memory can be wanting.
    pub(crate) fn of(alloc: Global, list: &'a [(u32, u32)]) -> Result<Self, AllocError>
        ensures { IfOk result (λ stale. stale ≡ list.now) }
    {
        let mut set = BTreeSet::new(alloc);
        for (pv, number) in list {
            set.insert((*pv, *number as usize))?;
        }
        Ok(StaleSet { list, set })
    }

    // Whether the area with this number on this disk is one of them.
    pub(crate) fn contains(&self, pv: u32, number: usize) -> bool
        ensures { result ≡ is_among self.now pv number }
    {
        self.set.contains(&(pv, number))
    }
}
