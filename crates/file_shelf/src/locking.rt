//! Files are locked, and locks are waited for.
ghost use Rattle.std.specs.Prelude.{◌≡◌, ◌≢◌, IfOk, IfErr};
ghost use Rattle.std.specs.IoError.{error_kind};

use crate::image::{Access, ImageFile};
use crate::trying::unless_interrupted;
use std::fs::TryLockError;
use std::io::{Eprint, ErrorKind};
use std::time::{Clock, Duration};
use std::{io, thread};

// A lock is tried for a second, at each of so many steps of so many milliseconds, before the user is told.
const STEPS: u32 = 50;

const STEP: u64 = 20;

// Locks the file as the access wants, unless another open file keeps it from that.
fn try_lock<F: ImageFile>(file: &F, access: Access) -> Result<(), TryLockError>
    ensures { IfOk result (λ _. F.Holds file.now access) }
{
    match access {
        Access::Read => file.try_lock_shared(),
        Access::Change => file.try_lock(),
    }
}

// The same within a second.
fn lock_soon<R: Clock, F: ImageFile>(rt: &R, file: &F, access: Access) -> Result<(), TryLockError>
    ensures { IfOk result (λ _. F.Holds file.now access) }
{
    for _ in 0..STEPS {
        match try_lock(file, access) {
            Err(TryLockError::WouldBlock) => thread::sleep(rt, Duration::from_millis(STEP)),
            told => return told,
        }
    }
    try_lock(file, access)
}

// Locks the file as the access wants, once no other open file keeps it from that.
fn lock_late<F: ImageFile>(file: &F, access: Access) -> io::Result<()>
    ensures held { IfOk result (λ _. F.Holds file.now access) }
    ensures interrupted { IfErr result (λ e. error_kind e ≢ ErrorKind.Interrupted) }
{
    for _ in 0..u64::MAX {
        let told = match access {
            Access::Read => file.lock_shared(),
            Access::Change => file.lock(),
        };
        if let Some(told) = unless_interrupted(told) {
            return told;
        }
    }
    Err(io::Error::from(ErrorKind::TimedOut))
}

/// Locks the file of this name as the access wants, and waits for that as long as another open file keeps it from it. Where
/// that is longer than a second, it is said on standard error.
pub fn lock<R: Clock + Eprint, F: ImageFile>(
    rt: &R,
    file: &F,
    access: Access,
    name: &str,
) -> io::Result<()>
    ensures { IfOk result (λ _. F.Holds file.now access) }
{
    match lock_soon(rt, file, access) {
        Ok(()) => Ok(()),
        Err(TryLockError::Error(e)) => Err(e),
        Err(TryLockError::WouldBlock) => {
            let _ = eprintln!(rt; "waiting for {name}, which another program has locked");
            lock_late(file, access)
        }
    }
}
