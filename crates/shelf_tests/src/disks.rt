//! A shelf of one disk.
ghost use Rattle.std.specs.Prelude.{◌≡◌, [], ◌∷◌, IfOk};
ghost use Rattle.dev_shelf.specs.DiskRow.{new_state};

use dev_shelf::{Fail as Failure, Images, MemShelf, Shelf, ShelfPlan};
use sector_base::Sectors;
use std::alloc::{AllocError, Global};

/// A shelf of this disk, on which these operations are to fail.
pub fn shelf_of_one(
    alloc: Global,
    disk: Sectors,
    fails: Vec<Failure>,
) -> Result<MemShelf, AllocError>
    ensures { IfOk result (λ shelf. ⟦<MemShelf as Shelf>⟧.state shelf ≡ new_state (disk ∷ [])) }
{
    let mut disks = Vec::new(alloc);
    disks.push(disk)?;
    MemShelf::new(alloc, Images::from_vec(disks), plan(alloc, fails))
}

// These operations fail, and nothing is held back.
fn plan(alloc: Global, fails: Vec<Failure>) -> ShelfPlan
    ensures { result.holds.items ≡ [] }
{
    ShelfPlan {
        picks: Vec::new(alloc),
        fails,
        holds: Vec::new(alloc),
        limit: 0,
    }
}
