//! Laws of repairs: the function does nothing, and its clause is proved.
ghost use Rattle.vg_repair.specs.Laws.{LeavesAll};

/// Where nothing is stale, no disk is old and there is no stray, a repair writes nothing, and what is found stays as it is.
pub fn leaves_all()
    ensures { LeavesAll }
{}
