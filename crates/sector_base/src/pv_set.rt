//! Sets of disks, or of physical volumes of a group.
ghost use Rattle.std.specs.Prelude.{◌≡◌, ◌<◌, ◌↔◌, IsTrue};
ghost use Rattle.std.specs.FinSet as set;

use std::marker::Model;

/// A set of numbers below 64. Contracts see it as a finite set.
#[derive(Clone, Copy, Debug, Drop)]
pub struct PvSet {
    has: [bool; 64],
}

impl Model for PvSet {
    ghost use Rattle.std.specs.Prelude.{◌≡◌, length};
    ghost use Rattle.std.specs.Ordering.{nat_cmp};
    ghost use Rattle.std.specs.Coded.{coded_ℕ};
    ghost use Rattle.std.specs.FinSet as set;
    ghost use Rattle.sector_base.specs.PvSets.{places_from, tests_from};
    ghost use Rattle.sector_base.specs.PvSetPlaces.{tests_from-contains};

    ghost Value = { set.FinSet nat_cmp };

    ghost coded = { set.code coded_ℕ };

    ghost view = { λ s. set.from_list (places_from 0 s.has) };

    ghost invariant = { λ s. length s.has ≡ 64 };

    ghost inverse = { λ v. record { has = tests_from (set.contains v) 0 64 } };

    ghost inverse_ok = { λ s h i. record { has = tests_from-contains s.has h i } };
}

impl PvSet {
    /// The empty set.
    pub fn new() -> Self
        ensures { result ≡ set.empty }
    {
        PvSet { has: [false; 64] }
    }

    /// Puts the number in.
    pub fn insert(&mut self, pv: u32)
        requires { pv < 64 }
        ensures { self.new ≡ set.insert self.old pv }
    {
        self.has[pv as usize] = true;
    }

    /// Takes the number out.
    pub fn remove(&mut self, pv: u32)
        requires { pv < 64 }
        ensures { self.new ≡ set.remove self.old pv }
    {
        self.has[pv as usize] = false;
    }

    /// Whether the number is in it.
    pub fn contains(&self, pv: u32) -> bool
        ensures { result ≡ set.contains self.now pv }
    {
        pv < 64 && self.has[pv as usize]
    }

    /// Whether no number is in it.
    pub fn is_empty(&self) -> bool
        ensures { IsTrue result ↔ (self.now ≡ set.empty) }
    {
        !self.has.contains(&true)
    }
}
