//! The pieces of a request.
ghost use Rattle.std.specs.Prelude.{◌≡◌, ◌+◌, ◌-◌, ◌%◌, ◌^◌, ◌<◌, min, IfOk};
ghost use Rattle.piece_split.specs.Pieces.{pieces_of};

use sector_base::{ItemList, Piece};
use std::alloc::{AllocError, Global};

/// Pieces, in the order of their volume. Contracts see the list of them.
pub type Pieces = ItemList<Piece>;

/// The pieces of a read or of a write of so many sectors of the volume from the sector `first` on, in order. They are cut
/// at every multiple of eight sectors of the volume. The request ends below sector 2^64.
///
/// # Errors
///
/// Where memory is wanting.
pub fn split(
    alloc: Global,
    volume: u32,
    first: u64,
    count: u32,
    write: bool,
) -> Result<Pieces, AllocError>
    requires { first + count < 2 ^ 64 }
    ensures { IfOk result (λ pieces. pieces ≡ pieces_of volume first count write) }
{
    let mut pieces = Vec::new(alloc);
    let mut at = first;
    let mut left = count;
    while left > 0 {
        let count = up_to_multiple(at, left);
        pieces.push(Piece {
            volume,
            first: at,
            count,
            write,
        })?;
        at += u64::from(count);
        left -= count;
    }
    Ok(ItemList::from_vec(pieces))
}

// So many of the sectors that are left, from this one on, lie before the next multiple of eight.
fn up_to_multiple(at: u64, left: u32) -> u32
    ensures { result ≡ min (8 - at % 8) left }
{
    (8 - (at % 8) as u32).min(left)
}
