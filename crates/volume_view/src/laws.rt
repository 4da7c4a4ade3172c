//! What holds of every group: each function does nothing, and its clauses are proved.
ghost use Rattle.volume_view.specs.Laws.{PiecesLieInOneRegion, PrimariesLieApart, PrimariesStand, PrimaryIsNoOther, PutsChangeOneSector, ViewsReadPrimaries, VisibleIsTop};

/// Sectors of visible volumes lie in no leg. No two sectors that lie in no leg have one primary place, and none of these
/// is another leg's place.
pub fn places_lie_apart()
    ensures visible { VisibleIsTop }
    ensures primaries { PrimariesLieApart }
    ensures others { PrimaryIsNoOther }
{}

/// Each sector of a volume has a primary place.
pub fn places_stand()
    ensures { PrimariesStand }
{}

/// Sectors between two multiples of 8 lie in one segment and region at every depth, and their places side by side.
pub fn pieces_lie_in_one_region()
    ensures { PiecesLieInOneRegion }
{}

/// Two images that agree at the primary places of the visible volumes have one view. What is put at one of these changes
/// one sector.
pub fn views_read_primaries()
    ensures views { ViewsReadPrimaries }
    ensures puts { PutsChangeOneSector }
{}
