//! The clock, and the source of the ids.
ghost use Rattle.std.specs.Prelude.{◌≡◌, ◌<◌, ◌^◌};
ghost use Rattle.lvm_cli.specs.Seed.{mixed_seed, seconds_since};

use lvm_id::MixWords;
use std::random::RandomSource;
use std::rt::Clock;
use std::time::{Duration, SystemTime, UNIX_EPOCH};

/// The latest time that a run is given, in seconds.
const LAST_SECOND: u64 = (1 << 48) - 1;

/// The time since 1970, where there is a clock that is past it.
pub fn since_1970<R: Clock>(rt: &R) -> Option<Duration> {
    SystemTime::now(rt).ok()?.duration_since(UNIX_EPOCH).ok()
}

/// The time of a run in seconds: 0 where there is none, and never after the last second that a run can be given.
pub fn seconds(since: Option<Duration>) -> u64
    ensures time { result ≡ seconds_since since }
    ensures limit { result < 2 ^ 48 }
{
    since.map_or(0, |since| since.as_secs()).min(LAST_SECOND)
}

// A number that differs from one nanosecond to the next.
fn nanoseconds(since: Duration) -> u64 {
    since
        .as_secs()
        .wrapping_mul(1_000_000_000)
        .wrapping_add(u64::from(since.subsec_nanos()))
}

// A number of the system's random source.
fn random_number<R: RandomSource>(rt: &R) -> Option<u64> {
    let mut bytes = [0; 8];
    rt.fill_bytes(&mut bytes).ok()?;
    Some(u64::from_le_bytes(bytes))
}

// The seed that these numbers give, where there is one of them.
fn mixed_seed(random: Option<u64>, clock: Option<u64>) -> Option<u64>
    ensures { result ≡ mixed_seed random clock }
{
    match (random, clock) {
        (Some(random), Some(clock)) => Some(random ^ clock),
        (Some(seed), None) | (None, Some(seed)) => Some(seed),
        (None, None) => None,
    }
}

/// The source of the ids: seeded from the system's random source and the clock, or from one of them. There is none where
/// neither is to be had.
pub fn ids_of_system<R: RandomSource>(rt: &R, since: Option<Duration>) -> Option<MixWords> {
    let clock = since.map(|since| nanoseconds(since));
    let state = mixed_seed(random_number(rt), clock)?;
    Some(MixWords { state })
}
