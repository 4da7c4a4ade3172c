//! Which descriptors an image may have: never one of the standard streams', so that no line that is printed there can land in
//! an image.
ghost use Rattle.std.specs.Prelude.{◌↔◌, ◌<ℤ◌, pos, IsTrue};

use std::alloc::{AllocFailed, Global};
use std::fs::{File, Files};
use std::os::fd::{AsRawFd, RawFd};

/// Whether an image may have this descriptor, which is none of standard input, output and error.
pub fn is_spared(fd: RawFd) -> bool
    ensures { IsTrue result ↔ (pos 2 <ℤ fd) }
{
    fd > 2
}

/// Takes the descriptors of those standard streams that are closed, so that no file that is opened gets one of them while
/// these are held. It opens the root directory for reading, which can be neither read nor written as a stream. Where that
/// can't be opened, fewer are taken.
pub fn hold_standard<R: Files>(rt: &R, alloc: Global) -> Result<Vec<R::File>, AllocFailed<R::File>>
where
    R::File: AsRawFd,
{
    let mut held = Vec::new(alloc);
    for _ in 0..3u32 {
        match File::open(rt, "/") {
            Ok(file) if !is_spared(file.as_raw_fd()) => held.push(file)?,
            _ => break,
        }
    }
    Ok(held)
}
