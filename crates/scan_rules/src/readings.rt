//! What was read of the disks of a run.
ghost use Rattle.std.specs.Prelude.{◌≡◌, ◌<◌, ◌++◌, [], ◌∷◌, length, MatchResult};
ghost use Rattle.scan_rules.specs.Readings.{AllAreOf, DiskIsOf, all_read, reading_of};

use crate::CopyRefusal;
use lvm_id::LvmId;
use meta_read::Unknown;
use sector_base::{ItemList, Text};
use std::alloc::{AllocError, Global};
use std::marker::Model;
use vg_check::Checked;

/// A copy of a group's metadata: its text, and what that stands for.
#[derive(Debug, Drop)]
pub struct GroupCopy {
    pub group: Checked,
    /// The text as it is stored, without a zero byte at its end.
    pub text: Text,
    /// The paths of the keys that are passed over.
    pub passed: Unknown,
}

/// What a metadata area gives.
#[derive(Debug, Drop)]
pub enum AreaGives {
    /// No text is committed in it.
    Nothing,
    /// The copy with this number among those that were read.
    Copy(usize),
    /// Why it has none.
    Refused(CopyRefusal),
}

/// A metadata area of a disk, in sectors.
#[derive(Debug, Drop)]
pub struct AreaRead {
    pub start: u64,
    pub sectors: u64,
    /// None where the area is ignored.
    pub gives: Option<AreaGives>,
}

/// A physical volume that was found on a disk.
#[derive(Debug, Drop)]
pub struct PvRead {
    pub id: LvmId,
    pub areas: ItemList<AreaRead>,
}

/// A disk: its size in sectors, and what was found on it.
#[derive(Debug, Drop)]
pub struct DiskRead {
    pub sectors: u64,
    pub pv: Option<PvRead>,
}

/// What was read of the disks, in their order. Copies with one text stand once among the copies, where it was seen that they
/// have one. Contracts see the copies by their numbers, and the readings of the disks, with each copy where it was found.
#[derive(Debug, Drop)]
pub struct Readings {
    copies: Vec<GroupCopy>,
    disks: Vec<DiskRead>,
}

impl Model for Readings {
    ghost use Rattle.scan_rules.specs.Readings.{AllAreOf, AllRead, all_read};

    ghost Value = { AllRead };

    ghost view = { λ r. all_read r.copies.items r.disks.items };

    ghost invariant = { λ r. AllAreOf r.copies.items r.disks.items };
}

impl Readings {
    /// Before any disk is read.
    pub fn new(alloc: Global) -> Self
        ensures copies { result.copies ≡ [] }
        ensures disks { result.disks ≡ [] }
    {
        Readings {
            copies: Vec::new(alloc),
            disks: Vec::new(alloc),
        }
    }

    /// The copies that were read, each at its number.
    pub fn copies(&self) -> &[GroupCopy]
        ensures { result.now ≡ self.now.copies }
    {
        &self.copies
    }

    /// Takes a copy in, and answers its number.
    ///
    /// # Errors
    ///
    /// Where memory is wanting; all stays then.
    pub fn push_copy(&mut self, copy: GroupCopy) -> Result<usize, AllocError>
        ensures copies { MatchResult result
            (λ number. (number ≡ length self.old.copies) × (self.new.copies ≡ self.old.copies ++ copy ∷ []))
            (λ _. self.new.copies ≡ self.old.copies) }
        ensures disks { self.new.disks ≡ self.old.disks }
    {
        let number = self.copies.len();
        self.copies.push(copy)?;
        Ok(number)
    }

    /// Takes in what was read of the next disk. It is one of at most 64, and has numbers of copies that were taken in.
    ///
    /// # Errors
    ///
    /// Where memory is wanting; all stays then.
    pub fn push_disk(&mut self, disk: DiskRead) -> Result<(), AllocError>
        requires room { length self.old.disks < 64 }
        requires numbers { DiskIsOf (length self.old.copies) disk }
        ensures copies { self.new.copies ≡ self.old.copies }
        ensures disks { MatchResult result
            (λ _. self.new.disks ≡ self.old.disks ++ reading_of self.old.copies disk ∷ [])
            (λ _. self.new.disks ≡ self.old.disks) }
    {
        self.disks.push(disk)?;
        Ok(())
    }

    // The copies and the disks.
    pub(crate) fn into_parts(self) -> (Vec<GroupCopy>, Vec<DiskRead>)
        ensures parts { self ≡ all_read result.0.items result.1.items }
        ensures whole { AllAreOf result.0.items result.1.items }
    {
        (self.copies, self.disks)
    }
}
