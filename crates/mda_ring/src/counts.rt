//! How many sectors bytes need, and how many they touch.
ghost use Rattle.std.specs.Prelude.{◌≡◌, ◌+◌, ◌≤◌, ◌<◌, ◌^◌};
ghost use Rattle.mda_ring.specs.Ring.{need, touched_count};

/// How many sectors so many bytes need.
pub fn sectors_for(count: u64) -> u64
    ensures { result ≡ need count }
{
    count.div_ceil(512)
}

/// How many sectors of an area of this size so many bytes at this offset touch.
pub fn touched_sectors(size: u64, offset: u64, count: u64) -> u64
    requires size { 1536 ≤ size }
    requires fits { offset + count < 2 ^ 64 }
    ensures { result ≡ touched_count size offset count }
{
    let to_end = sectors_for(offset + count) - offset / 512;
    to_end.min(size / 512 - 1)
}
