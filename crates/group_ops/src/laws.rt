//! Laws of what lines are judged against, and of what they give: each function does nothing, and its clause is proved.
ghost use Rattle.group_ops.specs.Laws.{ChangeIsPlaced, WholeIsState};

/// Where what was found is whole, and each disk has a name, lines may be judged against it.
pub fn whole_is_state()
    ensures { WholeIsState }
{}

/// Where the extents of each physical volume of the group in force lie well, those of the group that a line gives do.
pub fn change_is_placed()
    ensures { ChangeIsPlaced }
{}
