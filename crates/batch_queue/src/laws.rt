//! What a queue has made sure of, step by step.
ghost use Rattle.batch_queue.specs.Laws.{GoesBeside, ImagesOver, Made, RestsBeside, SettlingBeside, SettlingStarts, SettlingTurns, Started, Turned};

/// A queue whose sectors nobody else writes: in each of them a crash leaves only what the batches that are through leave, over a
/// value that the sector could have at the start, or what the batch on its way writes. So each image is one on the way of
/// these batches, over a base of its own, whose values in these sectors were possible at the start.
pub fn queue_laws()
    ensures made { Made }
    ensures started { Started }
    ensures turned { Turned }
    ensures rests_beside { RestsBeside }
    ensures goes_beside { GoesBeside }
    ensures images_over { ImagesOver }
{}

/// The flushes of a batch that writes something leave one value in each sector of their disks that neither it nor anybody else
/// writes meanwhile, and of which each write had ended well: whoever wrote it.
pub fn settling_laws()
    ensures starts { SettlingStarts }
    ensures turns { SettlingTurns }
    ensures beside { SettlingBeside }
{}
