//! Sectors as they are shown.
ghost use Rattle.std.specs.Prelude.{◌≡◌, ◌++◌, codes, flat_map, is_ok, length, reverse, take};
ghost use Rattle.byte_streams.specs.Streams.{WritesText};
ghost use Rattle.line_answers.specs.Answers.{hex_byte, is_one_number, token};

use byte_streams::{Failed, Sink, write_bytes};
use sector_base::Bytes512;

/// Writes the sector: `=` and the number that it is 64 times, in hex digits, where it is one, and else all of its bytes.
///
/// # Errors
///
/// As of `write_all`.
pub fn write_token<W: Sink>(out: &mut W, sector: &Bytes512) -> Result<(), Failed>
    ensures { WritesText (W.written out.old) (W.fault_count out.old) (token sector.now)
        (is_ok result) (W.written out.new) (W.fault_count out.new) }
{
    let bytes: &[u8] = sector.as_bytes();
    if is_one_number(bytes) {
        write_bytes(out, &number_text(&bytes[..8]))
    } else {
        write_bytes(out, &bytes_text(bytes))
    }
}

// Whether these are 64 times the first eight of them.
fn is_one_number(bytes: &[u8]) -> bool
    requires { length bytes.now ≡ 512 }
    ensures { result ≡ is_one_number bytes.now }
{
    bytes[8..] == bytes[..bytes.len() - 8]
}

// `=` and the hex digits of the number whose lowest byte stands first in these eight.
fn number_text(bytes: &[u8]) -> [u8; 17]
    requires { length bytes.now ≡ 8 }
    ensures { result ≡ codes "=" ++ flat_map hex_byte (reverse bytes.now) }
{
    let mut number = [0; 8];
    number.copy_from_slice(bytes);
    number.reverse();
    let mut text = [b'='; 17];
    hex::encode_to_slice(&number, &mut text[1..]).unwrap();
    text
}

// The hex digits of all bytes.
fn bytes_text(bytes: &[u8]) -> [u8; 1024]
    requires { length bytes.now ≡ 512 }
    ensures { result ≡ flat_map hex_byte bytes.now }
{
    let mut text = [0; 1024];
    hex::encode_to_slice(bytes, &mut text).unwrap();
    text
}
