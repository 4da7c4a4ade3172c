//! What holds of the pieces of every request: each function does nothing, and its clauses are proved.
ghost use Rattle.piece_split.specs.Laws.{PiecesAreCut, PiecesAreOfRequest, PiecesCoverRequest, PiecesLieInOneRegion};

/// The pieces of a request follow each other from its first sector to its last and are of its volume and kind. Each has a
/// sector and lies between two multiples of eight, and none but the first begins elsewhere than at one.
pub fn pieces_cover_requests()
    ensures cover { PiecesCoverRequest }
    ensures request { PiecesAreOfRequest }
    ensures cut { PiecesAreCut }
{}

/// In every accepted group each piece lies in one segment, stripe and region at every depth, and its places side by side.
pub fn pieces_lie_in_one_region()
    ensures { PiecesLieInOneRegion }
{}
