//! Mixed numbers.
ghost use Rattle.std.specs.Prelude.{◌≡◌};
ghost use Rattle.lvm_id.specs.Words.{splitmix_output, splitmix_words, length-splitmix_words};

use crate::Words64;

// What the state grows by at each number: 2^64 over the golden ratio, made odd.
const STEP: u64 = 0x9E37_79B9_7F4A_7C15;

/// SplitMix64, a small generator of numbers that look random. They are no secret. Its first state is its seed.
#[derive(Clone, Copy, Debug, Drop, PartialEq, Eq)]
pub struct MixWords {
    pub state: u64,
}

impl Words64 for MixWords {
    ghost upcoming = { λ words. splitmix_words words.state };

    ghost counted = { λ words. length-splitmix_words words.state };

    fn next(&mut self) -> u64 {
        self.state = self.state.wrapping_add(STEP);
        mix(self.state)
    }
}

// The bits of `z`, mixed.
fn mix(z: u64) -> u64
    ensures { result ≡ splitmix_output z }
{
    let z = (z ^ (z >> 30)).wrapping_mul(0xBF58_476D_1CE4_E5B9);
    let z = (z ^ (z >> 27)).wrapping_mul(0x94D0_49BB_1331_11EB);
    z ^ (z >> 31)
}
