//! The size of a disk over a file.
ghost use Rattle.std.specs.Prelude.{◌≡◌};
ghost use Rattle.file_shelf.specs.Sizes.{disk_size};

use crate::image::OpenCause;

const LEAST: u64 = 8;

const MOST: u64 = 1 << 40;

/// How many whole sectors a file of so many bytes has, where a disk may have as many.
pub fn size_of_disk(bytes: u64) -> Result<u64, OpenCause>
    ensures { result ≡ disk_size bytes }
{
    let sectors = bytes / 512;
    if sectors < LEAST {
        Err(OpenCause::FewSectors(sectors))
    } else if sectors > MOST {
        Err(OpenCause::ManySectors(sectors))
    } else {
        Ok(sectors)
    }
}
