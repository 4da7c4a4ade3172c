//! Groups that are whole: each disk was read, and each physical volume is there.
ghost use Rattle.std.specs.Prelude.{◌≡◌, MatchOption, MatchResult};
ghost use Rattle.vg_found.specs.Shape.{HasShape};
ghost use Rattle.vg_found.specs.Whole.{IsNotWhole, IsWhole, first_of};

use crate::Found;
use sector_base::{PvDisks, PvSet};
use std::marker::Model;

/// What a scan found where each disk was read and each physical volume of the group is there. `Found::whole` alone
/// makes one.
#[derive(Debug, Drop)]
pub struct Whole {
    found: Found,
}

impl Model for Whole {
    ghost use Rattle.vg_found.specs.contracts.found.Found as row;
    ghost use Rattle.vg_found.specs.declared.found.Found.{Found};
    ghost use Rattle.vg_found.specs.Shape.{HasShape};
    ghost use Rattle.vg_found.specs.Whole.{IsWhole};

    ghost Value = { Found };

    ghost coded = { row.the_row.coded };

    ghost view = { λ whole. whole.found };

    ghost invariant = { λ whole. HasShape whole.found × IsWhole whole.found };
}

/// Why what was found isn't whole.
#[derive(Clone, Copy, Debug, Drop, PartialEq, Eq)]
pub enum NotWhole {
    /// A read of this disk failed, the first such.
    ReadFailed(u32),
    /// Physical volumes are missing: those that were found to be.
    Partial,
}

/// What was found, as it came, and why it isn't whole.
#[derive(Debug, Drop)]
pub struct ScanRefused {
    pub found: Found,
    pub why: NotWhole,
}

impl Found {
    /// What was found, where it is whole.
    ///
    /// # Errors
    ///
    /// `ReadFailed` exactly where a disk is unread, the first such; else `Partial` exactly where a physical volume is
    /// missing. What was found comes back as it was.
    pub fn whole(self) -> Result<Whole, ScanRefused>
        requires { HasShape self }
        ensures { MatchResult result
            (λ whole. (whole ≡ self) × IsWhole self)
            (λ refused. (refused.found ≡ self) × IsNotWhole self refused.why) }
    {
        match why_not_whole(&self) {
            Some(why) => Err(ScanRefused { found: self, why }),
            None => Ok(Whole { found: self }),
        }
    }
}

impl Whole {
    /// What was found.
    pub fn found(&self) -> &Found
        ensures found { result.now ≡ self.now }
        ensures shape { HasShape result.now }
        ensures whole { IsWhole result.now }
    {
        &self.found
    }

    /// What was found, by value.
    pub fn into_found(self) -> Found
        ensures found { result ≡ self }
        ensures shape { HasShape result }
        ensures whole { IsWhole result }
    {
        self.found
    }

    /// The disk of each physical volume of the group.
    pub fn disk_of(&self) -> &PvDisks
        ensures { result.now ≡ self.now.disk_of }
    {
        &self.found.disk_of
    }
}

// Why what was found isn't whole.
fn why_not_whole(found: &Found) -> Option<NotWhole>
    requires { HasShape found.now }
    ensures { MatchOption result (IsWhole found.now) (IsNotWhole found.now) }
{
    if let Some(pv) = first_of(&found.unread) {
        return Some(NotWhole::ReadFailed(pv));
    }
    if found.missing.len() > 0 {
        return Some(NotWhole::Partial);
    }
    None
}

// The least number in the set.
#[tactic(auto, unfolding(crate::specs::Whole::first_of))]
fn first_of(set: &PvSet) -> Option<u32>
    ensures { result ≡ first_of set.now }
{
    (0..64).find(|pv| set.contains(*pv))
}
