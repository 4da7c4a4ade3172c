//! What was read of the disks so far. A text that was read before is known again by its bytes, and neither summed nor parsed.
ghost use Rattle.std.specs.Prelude.{◌≡◌, ◌<◌, ◌++◌, [], ◌∷◌, length, IfSome, MatchResult};
ghost use Rattle.mda_header.specs.Header.{IsInside};
ghost use Rattle.mda_ring.specs.Areas.{IsArea};
ghost use Rattle.mda_ring.specs.Ring.{touched_count};
ghost use Rattle.mda_ring.specs.Texts.{taken_bytes};
ghost use Rattle.scan_rules.specs.Readings.{DiskIsOf, gives_of, reading_of};
ghost use Rattle.scan_rules.specs.declared.readings.AreaGives.TheVariants.{Copy as Numbered};
ghost use Rattle.vg_scan.specs.Collected.{IsKnown};
ghost use Rattle.vg_scan.specs.Texts.{IsStored};

use mda_header::Locn;
use mda_ring::{Area, is_stored_in};
use scan_rules::{DiskRead, GroupCopy, Readings};
use sector_base::Sectors;
use std::alloc::{AllocError, Global};
use std::collections::BTreeMap;
use std::marker::Model;
use std::mem;

// What was read of the disks so far. Contracts see it as its readings.
#[derive(Debug, Drop)]
pub(crate) struct Collected {
    readings: Readings,
    // The copy that was read at an entry of each size and sum; of several the last.
    numbers: BTreeMap<(u64, u32), usize>,
    // What the last text was read into, for the next one.
    buffer: Sectors,
}

impl Model for Collected {
    ghost use Rattle.scan_rules.specs.Readings.{AllRead};
    ghost use Rattle.vg_scan.specs.Collected.{AreNumbered};

    ghost Value = { AllRead };

    ghost view = { λ c. c.readings };

    ghost invariant = { λ c. AreNumbered c.numbers c.readings.copies };
}

impl Collected {
    // Before any disk is read.
    pub(crate) fn new(alloc: Global) -> Self
        ensures copies { result.copies ≡ [] }
        ensures disks { result.disks ≡ [] }
    {
        Collected {
            readings: Readings::new(alloc),
            numbers: BTreeMap::new(alloc),
            buffer: Sectors::from_vec(Vec::new(alloc)),
        }
    }

    // Gives the buffer of the last text away.
    pub(crate) fn take_buffer(&mut self, alloc: Global) -> Sectors
        ensures { self.new ≡ self.old }
    {
        let none = Sectors::from_vec(Vec::new(alloc));
        mem::replace(&mut self.buffer, none)
    }

    // Keeps it for the next one.
    pub(crate) fn keep_buffer(&mut self, buffer: Sectors)
        ensures { self.new ≡ self.old }
    {
        self.buffer = buffer;
    }

    // The number of a copy that was read at an entry of this size and sum, and whose text these sectors of the entry's spans store.
    pub(crate) fn find(&self, area: &Area, locn: Locn, sectors: &Sectors) -> Option<usize>
        requires area { IsArea area.now }
        requires entry { IsInside area.now.size locn }
        requires sectors { length sectors.now ≡ touched_count area.now.size locn.offset locn.size }
        ensures { IfSome result (λ number. (number < length self.now.copies)
            × IsStored locn (taken_bytes locn sectors.now) (gives_of self.now.copies (Numbered number))) }
    {
        let number = self.numbers.get(&(locn.size, locn.sum)).copied()?;
        let copy = self.readings.copies().get(number)?;
        if is_stored_in(copy.text.as_bytes(), area, locn, sectors) {
            Some(number)
        } else {
            None
        }
    }

    // Takes in a copy that was read at the entry, and answers its number. Only memory can be wanting; all stays then, but that
    // an older copy of this size and sum may be forgotten.
    pub(crate) fn push_copy(&mut self, locn: Locn, copy: GroupCopy) -> Result<usize, AllocError>
        requires known { IsKnown locn copy }
        ensures copies { MatchResult result
            (λ number. (number ≡ length self.old.copies) × (self.new.copies ≡ self.old.copies ++ copy ∷ []))
            (λ _. self.new.copies ≡ self.old.copies) }
        ensures disks { self.new.disks ≡ self.old.disks }
    {
        let place = (locn.size, locn.sum);
        self.numbers.insert(place, self.readings.copies().len())?;
        match self.readings.push_copy(copy) {
            Ok(number) => Ok(number),
            Err(wanting) => {
                self.numbers.remove(&place);
                Err(wanting)
            }
        }
    }

    // Takes in what was read of the next disk, one of at most 64. Only memory can be wanting; all stays then.
    pub(crate) fn push_disk(&mut self, disk: DiskRead) -> Result<(), AllocError>
        requires room { length self.old.disks < 64 }
        requires numbers { DiskIsOf (length self.old.copies) disk }
        ensures copies { self.new.copies ≡ self.old.copies }
        ensures disks { MatchResult result
            (λ _. self.new.disks ≡ self.old.disks ++ reading_of self.old.copies disk ∷ [])
            (λ _. self.new.disks ≡ self.old.disks) }
    {
        self.readings.push_disk(disk)
    }

    // The readings of all disks.
    pub(crate) fn into_readings(self) -> Readings
        ensures { result ≡ self }
    {
        self.readings
    }
}
