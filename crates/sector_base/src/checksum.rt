//! The checksum of labels, area headers and metadata texts.
ghost use Rattle.std.specs.Prelude.{◌≡◌, ◌<◌, [], slice_index, slice_index_or};
ghost use Rattle.std.specs.List.{flat_map};
ghost use Rattle.sector_base.specs.Checksum.{bits_of, checksum, with_bits};

use crate::division_table::DIVIDED;
use byteorder::{ByteOrder, LittleEndian};

/// From where lvm2 starts the checksum of a label, of an area header and of a text.
pub const LVM_CRC_START: u32 = 0xF597_A6CF;

/// The checksum of lvm2's on-disk format: the reflected CRC-32 without a final inversion, from the state `start` on.
pub fn crc(start: u32, bytes: &[u8]) -> u32
    ensures { result ≡ checksum start bytes.now }
{
    let mut state = start;
    let mut rest = bytes;
    while let Some((eight, behind)) = rest.split_first_chunk::<8>() {
        state = divide_eight(state, eight);
        rest = behind;
    }
    for byte in rest {
        state = divide_byte(state, *byte);
    }
    state
}

// Eight bytes are combined with the state, which is then divided 64 times: the tables have what each byte leaves of that.
fn divide_eight(state: u32, bytes: &[u8; 8]) -> u32
    ensures { bits_of 32 result ≡ with_bits (bits_of 32 state) (flat_map (bits_of 8) bytes.now) }
{
    let mut rest = LittleEndian::read_u64(bytes) ^ u64::from(state);
    let mut left = 0;
    for at in 0..8usize {
        left ^= divided(7 - at, rest % 256);
        rest /= 256;
    }
    left
}

// One byte is combined with the state, which is then divided eight times: the first table has what that makes of the lowest
// byte, and the other bytes move down.
fn divide_byte(state: u32, byte: u8) -> u32
    ensures { bits_of 32 result ≡ with_bits (bits_of 32 state) (bits_of 8 byte) }
{
    let xor_bits = state ^ u32::from(byte);
    divided(0, u64::from(xor_bits % 256)) ^ (xor_bits / 256)
}

// What this table has of the byte.
fn divided(table: usize, byte: u64) -> u32
    requires table { table < 8 }
    requires byte { byte < 256 }
    ensures { result ≡ slice_index (slice_index_or DIVIDED table []) byte }
{
    DIVIDED[table][byte as usize]
}
