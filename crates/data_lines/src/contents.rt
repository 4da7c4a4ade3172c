//! What a line that writes brings.
ghost use Rattle.std.specs.Prelude.{◌≡◌, ◌≤◌, ◌+◌, IfOk, IfSome, length, map, true, unwrap_or};
ghost use Rattle.std.specs.List.{range_with_len};
ghost use Rattle.hex.specs.Hex.{hex_digit_value};
ghost use Rattle.data_lines.specs.DataLines.{bytes_of_hex, number_sector, range_of, value_for, writes};

use command_table::Command;
use sector_base::{Bytes512, Sectors};
use std::alloc::{AllocError, Global};

/// What the command brings to so many sectors of its volume, from this one on. It writes all of them.
///
/// # Errors
///
/// Where memory is wanting.
pub fn contents_for(
    alloc: Global,
    command: &Command,
    first: u64,
    count: u32,
) -> Result<Sectors, AllocError>
    requires writes { writes command.now ≡ true }
    requires within { IfSome (range_of command.now) (λ r. (r.0 ≤ first) × (first + count ≤ r.0 + r.1)) }
    requires counted { first + count ≤ 18446744073709551615 }
    ensures { IfOk result (λ sectors. sectors ≡ map (value_for command.now) (range_with_len first count)) }
{
    let mut list = Vec::with_capacity(alloc, count as usize)?;
    for at in first..first + u64::from(count) {
        list.push(sector_for(command, at))?;
    }
    Ok(Sectors::from_vec(list))
}

// What it brings to this sector.
fn sector_for(command: &Command, at: u64) -> Bytes512
    requires writes { writes command.now ≡ true }
    requires within { IfSome (range_of command.now) (λ r. (r.0 ≤ at) × (at + 1 ≤ r.0 + r.1)) }
    ensures { result ≡ value_for command.now at }
{
    match command {
        Command::Fill { start, value, .. } => number_sector(value.wrapping_add(at - *start)),
        Command::Write { start, hex, .. } => {
            let digits = hex.as_bytes();
            let skip = (at - *start) as usize * 1_024;
            digits_sector(&digits[skip..skip + 1_024])
        }
        _ => unreachable!(),
    }
}

// A sector of 64 times the number.
fn number_sector(number: u64) -> Bytes512
    ensures { result ≡ number_sector number }
{
    let mut bytes = [0u8; 512];
    let word = number.to_le_bytes();
    for k in 0..64usize {
        for j in 0..8usize {
            bytes[8 * k + j] = word[j];
        }
    }
    Bytes512::new(bytes)
}

// The sector that these 1,024 hex digits say.
fn digits_sector(digits: &[u8]) -> Bytes512
    requires { length digits.now ≡ 1_024 }
    ensures { result ≡ bytes_of_hex digits.now }
{
    let mut bytes = [0u8; 512];
    for k in 0..512usize {
        bytes[k] = digit(digits[2 * k]) * 16 + digit(digits[2 * k + 1]);
    }
    Bytes512::new(bytes)
}

// The value of a hex digit; 0 of another byte.
fn digit(byte: u8) -> u8
    ensures value { result ≡ unwrap_or (hex_digit_value byte) 0 }
    ensures small { result ≤ 15 }
{
    match byte {
        b'0'..=b'9' => byte - b'0',
        b'a'..=b'f' => byte - b'a' + 10,
        b'A'..=b'F' => byte - b'A' + 10,
        _ => 0,
    }
}
