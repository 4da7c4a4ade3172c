//! What a batch has made sure of, step by step.
ghost use Rattle.disk_batch.specs.Laws.{BeginsFlushes, EndsWell, GoesOn, GoesOnWriting, LosesOnFailure, LostHasRisen, StartsBringing, StaysElsewhere};

/// A batch that writes a value to a sector, where nobody else writes it: it brings the value from its start on, through
/// every step of others, its own completions and the submission of its next writes and of its flushes; once it is through
/// a crash can leave no other value there. Where one of its operations failed, that of which it says so did, and its count has risen.
pub fn batch_laws()
    ensures started { StartsBringing }
    ensures elsewhere { StaysElsewhere }
    ensures done { GoesOn }
    ensures next { GoesOnWriting }
    ensures flushes { BeginsFlushes }
    ensures well { EndsWell }
    ensures lost { LosesOnFailure }
    ensures risen { LostHasRisen }
{}
