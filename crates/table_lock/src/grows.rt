//! What lies under the lock.
ghost use Rattle.std.specs.Prelude.{List};

/// A value with an origin, which never changes, and a story, a list that only grows.
pub trait Grows {
    type Origin;

    type LogEntry;

    ghost origin: { Self → Self.Origin };

    ghost story: { Self → List Self.LogEntry };
}
