//! What a commit has made sure of, step by step.
ghost use Rattle.vg_commit.specs.Laws.{BeginsBuffered, BeginsHolding, BeginsSpending, BringsBuffer, ComElsewhere, ComShows, CommitsBuffered, CommitsHolding, CommitsSpending, FencedShows, GoesBuffered, GoesHolding, GoesSpending, LostShows, OthersComplete, OthersLeaveBuffers, OthersSubmit, OthersSubmitAll, PreElsewhere, PreShows, PublishesBuffered, PublishesHolding, PublishesSpending, ReadyElsewhere, ReadyShows, WholeElsewhere, WholeShows, WritesItsAreas};

/// A commit among other operations, whoever's, none of which writes its areas. Until it is published every image that a
/// crash may leave shows the old entry and its text in each area; from then on each area, by itself, shows these or the
/// new entry with its whole text; and once it is whole the new one in all. It writes sectors of its areas alone. From the
/// moment where it is ready each disk that it was given has been flushed since it began. Where it is lost or fenced no
/// write to its areas is in flight, and the count of faults of the disk that is named has risen; that all its operations
/// have completed is what the clauses of the two `on_done` say. A call uses up only what the commit had ahead, so where
/// all of it is spare at the beginning each call finds spare what it asks for; so with the buffers of the texts' blocks.
pub fn commit_laws()
    ensures begins { BeginsHolding }
    ensures goes { GoesHolding }
    ensures publishes { PublishesHolding }
    ensures commits { CommitsHolding }
    ensures pre_elsewhere { PreElsewhere }
    ensures ready_elsewhere { ReadyElsewhere }
    ensures com_elsewhere { ComElsewhere }
    ensures whole_elsewhere { WholeElsewhere }
    ensures others_complete { OthersComplete }
    ensures others_submit { OthersSubmit }
    ensures others_submit_all { OthersSubmitAll }
    ensures writes_its_areas { WritesItsAreas }
    ensures begins_spending { BeginsSpending }
    ensures goes_spending { GoesSpending }
    ensures publishes_spending { PublishesSpending }
    ensures commits_spending { CommitsSpending }
    ensures begins_buffered { BeginsBuffered }
    ensures brings_buffer { BringsBuffer }
    ensures goes_buffered { GoesBuffered }
    ensures publishes_buffered { PublishesBuffered }
    ensures commits_buffered { CommitsBuffered }
    ensures others_leave_buffers { OthersLeaveBuffers }
    ensures pre_shows { PreShows }
    ensures ready_shows { ReadyShows }
    ensures com_shows { ComShows }
    ensures whole_shows { WholeShows }
    ensures lost_shows { LostShows }
    ensures fenced_shows { FencedShows }
{}
