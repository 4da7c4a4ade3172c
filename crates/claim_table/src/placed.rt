//! The place of a piece in its volume.
ghost use Rattle.std.specs.Prelude.{◌≡◌, IsTrue, true};
ghost use Rattle.claim_table.specs.declared.claim.Claim.{Claim as ClaimRecord};
ghost use Rattle.claim_table.specs.Conflict.{clash};
ghost use Rattle.claim_table.specs.Places.{placed};

use crate::Claim;

// Where a piece of this number lies. Places are in order of their volumes, and within one of their first sectors.
#[derive(Clone, Copy, Debug, Drop, PartialEq, Eq, PartialOrd, Ord)]
pub(crate) struct Placed {
    pub(crate) volume: u32,
    pub(crate) first: u64,
    pub(crate) number: u64,
    pub(crate) count: u32,
    pub(crate) write: bool,
}

// The place of a claim.
pub(crate) fn claim_place(claim: &Claim) -> Placed
    ensures { result ≡ placed claim.now }
{
    Placed {
        volume: claim.piece.volume,
        first: claim.piece.first,
        number: claim.number,
        count: claim.piece.count,
        write: claim.piece.write,
    }
}

// Whether one writes all sectors of the other: then what clashes with the other clashes with it.
pub(crate) fn is_over(one: &Claim, other: &Claim) -> bool
    ensures { IsTrue result → (d : ClaimRecord) → clash other.now d ≡ true → clash one.now d ≡ true }
{
    if !one.piece.write || one.piece.volume != other.piece.volume {
        return false;
    }
    if one.piece.first > other.piece.first {
        return false;
    }
    let skipped = other.piece.first - one.piece.first;
    let size = u64::from(one.piece.count);
    skipped <= size && u64::from(other.piece.count) <= size - skipped
}
