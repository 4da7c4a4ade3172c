//! Requests and their pieces.
use piece_split::split;
use sector_base::Piece;
use std::test::Fail;

fn piece(first: u64, count: u32, write: bool) -> Piece {
    Piece {
        volume: 7,
        first,
        count,
        write,
    }
}

#[test]
fn a_request_across_a_multiple_of_eight_has_two_pieces(rt: HostRuntime) -> Result<(), Fail> {
    let pieces = split(rt.alloc(), 7, 8_190, 4, false)?;
    assert_eq!(rt;
        pieces.as_slice(),
        [piece(8_190, 2, false), piece(8_192, 2, false)].as_slice()
    );
    Ok(())
}

#[test]
fn a_request_in_one_block_is_one_piece(rt: HostRuntime) -> Result<(), Fail> {
    let pieces = split(rt.alloc(), 7, 8, 8, true)?;
    assert_eq!(rt; pieces.as_slice(), [piece(8, 8, true)].as_slice());
    let pieces = split(rt.alloc(), 7, 9, 1, true)?;
    assert_eq!(rt; pieces.as_slice(), [piece(9, 1, true)].as_slice());
    Ok(())
}

#[test]
fn a_long_request_has_whole_blocks_between_its_ends(rt: HostRuntime) -> Result<(), Fail> {
    let pieces = split(rt.alloc(), 7, 5, 22, true)?;
    let whole = [
        piece(5, 3, true),
        piece(8, 8, true),
        piece(16, 8, true),
        piece(24, 3, true),
    ];
    assert_eq!(rt; pieces.as_slice(), whole.as_slice());
    Ok(())
}

#[test]
fn no_sectors_have_no_piece(rt: HostRuntime) -> Result<(), Fail> {
    assert_eq!(rt; split(rt.alloc(), 7, 12, 0, true)?.len(), 0);
    Ok(())
}
