//! What holds of every table: the function does nothing, and its clauses are proved.
ghost use Rattle.claim_table.specs.Laws.{ClashesShareSectors, FreeWithoutConflict, NoneStartsSuspended, StartedAreApart, StartsInOrder};

/// Pieces clash exactly where they share a sector and one of them writes, and a piece is free to start exactly where it
/// conflicts with nothing. After any calls the started pieces are apart from one another and from the closed region. None
/// starts while its volume is suspended, and none before an earlier deferred one that it clashes with.
pub fn claims_stay_apart()
    ensures clashes { ClashesShareSectors }
    ensures free { FreeWithoutConflict }
    ensures apart { StartedAreApart }
    ensures suspended { NoneStartsSuspended }
    ensures in_order { StartsInOrder }
{}
