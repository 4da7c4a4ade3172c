//! What holds after every history of a plan: the function does nothing, and its clause is proved.
ghost use Rattle.flush_plan.specs.History.{EndedIsEndedAfter, StableIsFlushedAfter};

/// After any events, from a new plan on, `stable` is true exactly where a write of that number on that disk is held and a
/// flush that was submitted after the completion of the last of them has completed well, by the list of the events alone; and
/// `ended` exactly where such a flush has ended, well or not. A write is held from its completion until it is forgotten.
pub fn stable_is_flushed_after()
    ensures stable { StableIsFlushedAfter }
    ensures ended { EndedIsEndedAfter }
{}
