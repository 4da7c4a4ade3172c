//! Laws of what stands on disks.
ghost use Rattle.std.specs.Prelude.{◌≡◌, ℕ, List};
ghost use Rattle.disk_contents.specs.declared.contents.PvFound.{PvFound};
ghost use Rattle.disk_contents.specs.Contents.{IsFound};

/// What stands on a disk is one.
pub fn one_finding()
    ensures { (sector_at : ℕ → List ℕ) (disk : ℕ) (a b : PvFound) → IsFound sector_at disk a → IsFound sector_at disk b → a ≡ b }
{}
