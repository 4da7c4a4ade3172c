//! Where writes lie: the function does nothing, and its clauses are proved.
ghost use Rattle.line_history.specs.Places.{ClearWritesLie, LineWritesLie, RepairWritesLie, ZeroWritesLie};

/// A line writes in metadata areas of the group that it commits, to the label sectors of the physical volumes that it creates
/// or adds, and to the headers of the areas of one that it creates; its zeros lie in extents that no volume has; and it clears
/// label sectors, and headers of areas, on the disks that the group lets go. A repair writes in stale areas, to the label
/// sectors of old physical volumes, whose headers are of an older version than 2, and to the label sectors of strays and the
/// headers of their areas.
pub fn writes_lie()
    ensures line { LineWritesLie }
    ensures zeros { ZeroWritesLie }
    ensures clears { ClearWritesLie }
    ensures repair { RepairWritesLie }
{}
