//! Laws of what a scan finds: each function does nothing, and its clause is proved.
ghost use Rattle.vg_found.specs.Laws.{AreasAreShaped, WholeHasItsDisks};

/// In each metadata area that isn't ignored the next text can be placed, and no two of these share a sector.
pub fn areas_are_shaped()
    ensures { AreasAreShaped }
{}

/// Where what was found is whole, each physical volume of the group is on a disk.
pub fn whole_has_its_disks()
    ensures { WholeHasItsDisks }
{}
