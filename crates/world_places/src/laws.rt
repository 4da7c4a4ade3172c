//! What acts keep of tracked places: each function does nothing, and its clauses are proved.
ghost use Rattle.world_places.specs.Laws.{AnswersKeep, BadReadsHold, BadWritesKeep, BeginningsKeep, BirthsTrack, ChangesKeep};
ghost use Rattle.world_places.specs.Laws.{FailedFlushesKeep, FailuresKeep, FlushesDoneKeep, FlushesKeep, ForgettingKeeps, GivingUpKeeps};
ghost use Rattle.world_places.specs.Laws.{LivesKeep, NewReadsHold, OksKeep, OpeningTracks, OpeningsKeep, OtherReadsHold, OtherTakesKeep};
ghost use Rattle.world_places.specs.Laws.{OtherWritesKeep, PlacesHold, SettledReadsHold, StepsKeep, SubmissionsKeep, TakesKeep};
ghost use Rattle.world_places.specs.Laws.{ValuesTrack, VolumesHold, WritesDoneKeep, WritesKeep};

/// Steps that bring nothing to the place keep it tracked, several submissions of one call, and flushes that are submitted,
/// complete well or fail.
pub fn steps_keep()
    ensures steps { StepsKeep }
    ensures submissions { SubmissionsKeep }
    ensures flushes { FlushesKeep }
    ensures flushed { FlushesDoneKeep }
    ensures lost { FailedFlushesKeep }
{}

/// The write of a piece is submitted there, completes well and is noted, or completes badly; or another completes elsewhere.
pub fn writes_keep()
    ensures submitted { WritesKeep }
    ensures written { WritesDoneKeep }
    ensures bad { BadWritesKeep }
    ensures other { OtherWritesKeep }
{}

/// Pieces enter, start and leave, notes of writes that last are dropped, and the plan forgets writes.
pub fn lives_keep()
    ensures lives { LivesKeep }
    ensures forgot { ForgettingKeeps }
{}

/// A line is begun; a commit is opened, given up, or makes a version in which the sector isn't born; a piece fails, or takes
/// place.
pub fn entries_keep()
    ensures begun { BeginningsKeep }
    ensures opened { OpeningsKeep }
    ensures given_up { GivingUpKeeps }
    ensures changed { ChangesKeep }
    ensures failed { FailuresKeep }
    ensures took { OtherTakesKeep }
    ensures written { TakesKeep }
{}

/// A line is answered: not ok, or ok where it waits for no write.
pub fn answers_keep()
    ensures answered { AnswersKeep }
    ensures ok { OksKeep }
{}

/// A place begins to be tracked: at the opening, at the sector's birth, and where only what the machine has is left there.
pub fn places_begin()
    ensures opening { OpeningTracks }
    ensures birth { BirthsTrack }
    ensures now { ValuesTrack }
{}

/// What follows: the place holds the sector as histories ask it, and so do the places of all volumes.
pub fn places_hold()
    ensures place { PlacesHold }
    ensures volumes { VolumesHold }
{}

/// What a read gives at the place stays what the machine has, but where a started piece has written already.
pub fn reads_hold()
    ensures steps { OtherReadsHold }
    ensures written { NewReadsHold }
    ensures bad { BadReadsHold }
    ensures settled { SettledReadsHold }
{}
