//! What a session's run keeps: the function does nothing, and its clause is proved.
ghost use Rattle.world_tracks.specs.Histories.{RunsKeepHistories};

use disk_model::Shelf;
use piece_split::pieces_cover_requests;
use volume_history::{histories_stay, parts_make_consistent};
use world_places::{
    answers_keep, entries_keep, lives_keep, places_begin, places_hold, steps_keep, writes_keep,
};

/// Each run of a session's script, from a world that was opened on what was found, has one history, each moment of which is
/// consistent.
pub fn runs_keep_histories<S: Shelf>(_shelf: &S)
    ensures { RunsKeepHistories S.state }
{
    pieces_cover_requests();
    histories_stay();
    parts_make_consistent();
    steps_keep();
    writes_keep();
    lives_keep();
    entries_keep();
    answers_keep();
    places_begin();
    places_hold();
}
