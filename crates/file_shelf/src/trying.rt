//! Which calls are made again.
ghost use Rattle.std.specs.Prelude.{◌≡◌, ◌↔◌, IfSome, IsNone, IsErrAnd, IsTrue};
ghost use Rattle.std.specs.IoError.{error_kind};

use std::io;
use std::io::ErrorKind;

// Whether a signal interrupted the call.
fn is_interrupted(e: &io::Error) -> bool
    ensures { IsTrue result ↔ (error_kind e.now ≡ ErrorKind.Interrupted) }
{
    e.kind() == ErrorKind::Interrupted
}

/// What the system told, unless a signal interrupted the call, which is then to be made again.
pub fn unless_interrupted<T>(told: io::Result<T>) -> Option<io::Result<T>>
    ensures again { IsNone result ↔ IsErrAnd told (λ e. error_kind e ≡ ErrorKind.Interrupted) }
    ensures told { IfSome result (λ it. it ≡ told) }
{
    match told {
        Err(e) if is_interrupted(&e) => None,
        told => Some(told),
    }
}
