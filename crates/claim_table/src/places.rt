//! Looking among places: those that may share a sector with a piece stand side by side.
ghost use Rattle.std.specs.Prelude.{◌≡◌, ◌<◌, ◌≤◌, ◌&&◌, ◌==◌, ℕ, false, All, IfNone, IfSome, IsFalse, IsTrue, length, nat_lt, slice_index_or, true};
ghost use Rattle.std.specs.List.{list_any};
ghost use Rattle.std.specs.List.Sorted.{IsPartitionPoint};
ghost use Rattle.std.specs.VecDeque.{deque_len};
ghost use Rattle.claim_table.specs.Extents.{overlaps};
ghost use Rattle.claim_table.specs.Places.{is_below, is_met, is_past, meets, piece_of, placed, placed_cmp};
ghost use Rattle.claim_table.specs.Sorted.{IsAscending};

use crate::placed::Placed;
use crate::sorted::place_for;
use sector_base::Piece;
use std::collections::VecDeque;

// Whether they are of one volume and share a sector.
pub(crate) fn overlap(place: &Placed, piece: &Piece) -> bool
    ensures { result ≡ overlaps (piece_of place.now) piece.now }
{
    if place.volume != piece.volume {
        false
    } else if place.first <= piece.first {
        piece.count > 0 && piece.first - place.first < u64::from(place.count)
    } else {
        place.count > 0 && place.first - piece.first < u64::from(piece.count)
    }
}

// Whether the number is below the limit, if there is one.
fn is_below(limit: Option<u64>, number: u64) -> bool
    ensures { result ≡ is_below limit number }
{
    match limit {
        Some(limit) => number < limit,
        None => true,
    }
}

// Whether the number at the place is below the limit, and the piece meets what lies there.
fn is_met(place: &Placed, piece: &Piece, limit: Option<u64>) -> bool
    ensures { result ≡ is_met piece.now limit place.now }
{
    is_below(limit, place.number) && (place.write || piece.write) && overlap(place, piece)
}

// Whether the place lies past the piece's end, as all those behind it do then.
fn is_past(place: &Placed, piece: &Piece) -> bool
    ensures { result ≡ is_past piece.now place.now }
{
    if place.volume == piece.volume {
        place.first >= piece.first && place.first - piece.first >= u64::from(piece.count)
    } else {
        place.volume > piece.volume
    }
}

// Where the places begin that may reach into the piece, where none is longer than this.
fn window_start(places: &VecDeque<Placed>, longest: u32, piece: &Piece) -> usize
    requires ascending { IsAscending placed_cmp places.now.items }
    requires counted { deque_len places.now ≡ length places.now.items }
    requires short { All (λ e. e.count ≤ longest) places.now.items }
    ensures within { result ≤ length places.now.items }
    ensures before { (k : ℕ) (d : Placed) → k < result → meets piece.now (slice_index_or places.now.items k d) ≡ false }
{
    let start = Placed {
        volume: piece.volume,
        first: piece.first.saturating_sub(u64::from(longest)),
        number: 0,
        count: 0,
        write: false,
    };
    place_for(places, &start)
}

// The number of one of those below the limit that the piece meets.
pub(crate) fn first_met(
    places: &VecDeque<Placed>,
    longest: u32,
    piece: &Piece,
    limit: Option<u64>,
) -> Option<u64>
    requires ascending { IsAscending placed_cmp places.now.items }
    requires counted { deque_len places.now ≡ length places.now.items }
    requires short { All (λ e. e.count ≤ longest) places.now.items }
    ensures some { IfSome result (λ number. IsTrue (list_any (λ e. is_below limit e.number && ((e.number == number) && meets piece.now e)) places.now.items)) }
    ensures none { IfNone result (IsFalse (list_any (is_met piece.now limit) places.now.items)) }
{
    let mut at = window_start(places, longest, piece);
    while at < places.len() && !is_past(&places[at], piece) {
        if is_met(&places[at], piece, limit) {
            return Some(places[at].number);
        }
        at += 1;
    }
    None
}

// How many places are of volumes below this one.
fn first_of_volume(places: &VecDeque<Placed>, volume: u32) -> usize
    requires ascending { IsAscending placed_cmp places.now.items }
    requires counted { deque_len places.now ≡ length places.now.items }
    ensures parts { IsPartitionPoint (λ e. nat_lt e.volume volume ≡ true) (λ e. nat_lt e.volume volume ≡ false) places.now.items result }
    ensures within { result ≤ length places.now.items }
{
    places.partition_point(
        |place: &Placed| -> bool
            ensures { result ≡ nat_lt place.now.volume volume }
        { place.volume < volume },
    )
}

// Whether one of the places is of the volume.
pub(crate) fn is_of_volume(places: &VecDeque<Placed>, volume: u32) -> bool
    requires ascending { IsAscending placed_cmp places.now.items }
    requires counted { deque_len places.now ≡ length places.now.items }
    ensures { result ≡ list_any (λ e. e.volume == volume) places.now.items }
{
    let at = first_of_volume(places, volume);
    if at < places.len() {
        places[at].volume == volume
    } else {
        false
    }
}
