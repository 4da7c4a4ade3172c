//! The values in a line: numbers and bytes.
use crate::line::words_in;
use crate::stop::{Stop, failed, failed_at};
use std::alloc::{AllocError, Global};

// The number, decimal or behind `0x`.
fn number_of(word: &str) -> Option<u64> {
    match word.strip_prefix("0x") {
        Some(digits) => hex_number(digits.as_bytes()),
        None => word.parse().ok(),
    }
}

// The number of these hex digits.
fn hex_number(digits: &[u8]) -> Option<u64> {
    if digits.is_empty() {
        return None;
    }
    let mut number = 0u64;
    for digit in digits {
        let digit = hex_digit(*digit)?;
        number = number.checked_mul(16)?.checked_add(u64::from(digit))?;
    }
    Some(number)
}

fn hex_digit(byte: u8) -> Option<u8> {
    match byte {
        b'0'..=b'9' => Some(byte - b'0'),
        b'a'..=b'f' => Some(byte - b'a' + 10),
        b'A'..=b'F' => Some(byte - b'A' + 10),
        _ => None,
    }
}

/// The number that this word of the line is.
pub fn number(alloc: Global, line: usize, word: &str) -> Result<u64, Stop> {
    match number_of(word) {
        Some(number) => Ok(number),
        None => Err(failed_at(alloc, line, "no number", word)),
    }
}

/// The same for a number of sectors or bytes.
pub fn place(alloc: Global, line: usize, word: &str) -> Result<usize, Stop> {
    let number = number(alloc, line, word)?;
    match usize::try_from(number) {
        Ok(place) => Ok(place),
        Err(_) => Err(failed_at(alloc, line, "too great a number", word)),
    }
}

/// The same for a number of 32 bits.
pub fn number32(alloc: Global, line: usize, word: &str) -> Result<u32, Stop> {
    let number = number(alloc, line, word)?;
    match u32::try_from(number) {
        Ok(number) => Ok(number),
        Err(_) => Err(failed_at(alloc, line, "too great a number", word)),
    }
}

/// An exit status.
pub fn status_in(alloc: Global, line: usize, word: &str) -> Result<u8, Stop> {
    let number = number(alloc, line, word)?;
    match u8::try_from(number) {
        Ok(status) => Ok(status),
        Err(_) => Err(failed_at(alloc, line, "no status", word)),
    }
}

/// The numbers that the words of the text are.
pub fn numbers(alloc: Global, line: usize, text: &str) -> Result<Vec<u64>, Stop> {
    let words = words_in(alloc, text)?;
    let mut all = Vec::new(alloc);
    for word in words.iter() {
        all.push(number(alloc, line, word)?)?;
    }
    Ok(all)
}

/// The bytes of a text between quotes, or of hex digits.
pub fn bytes_in(alloc: Global, line: usize, text: &str) -> Result<Vec<u8>, Stop> {
    if text.starts_with('"') {
        quoted(alloc, line, text)
    } else {
        hex_bytes(alloc, line, text)
    }
}

/// The bytes of a text between quotes.
pub fn quoted(alloc: Global, line: usize, text: &str) -> Result<Vec<u8>, Stop> {
    let inner = match text.strip_prefix('"') {
        Some(inner) => inner.strip_suffix('"'),
        None => None,
    };
    match inner {
        Some(inner) => unescaped(alloc, line, inner),
        None => Err(failed(alloc, line, "a text stands between quotes")),
    }
}

// The bytes of these hex digits, two for each, where blanks may stand in between.
fn hex_bytes(alloc: Global, line: usize, text: &str) -> Result<Vec<u8>, Stop> {
    let mut bytes = Vec::new(alloc);
    let mut half = None;
    for byte in text.bytes() {
        if byte == b' ' && half.is_none() {
            continue;
        }
        let Some(digit) = hex_digit(byte) else {
            return Err(failed(alloc, line, "neither a text between quotes nor hex bytes"));
        };
        half = match half {
            None => Some(digit),
            Some(high) => {
                bytes.push(byte_of(high, digit))?;
                None
            }
        };
    }
    if half.is_some() || bytes.is_empty() {
        return Err(failed(alloc, line, "a hex byte has two digits"));
    }
    Ok(bytes)
}

fn byte_of(high: u8, low: u8) -> u8 {
    high.wrapping_mul(16) | low
}

/// Where a reader of escapes stands.
#[derive(Clone, Copy, Debug, Drop)]
enum Escape {
    None,
    Begun,
    Hex,
    HalfHex(u8),
}

/// The bytes of the text, in which `\n`, `\t`, `\0`, `\"`, `\\` and `\xNN` stand for one each.
pub fn unescaped(alloc: Global, line: usize, text: &str) -> Result<Vec<u8>, Stop> {
    let mut bytes = Vec::new(alloc);
    let mut escape = Some(Escape::None);
    for byte in text.bytes() {
        let Some(at) = escape else {
            break;
        };
        escape = taken(&mut bytes, at, byte)?;
    }
    match escape {
        Some(Escape::None) => Ok(bytes),
        _ => Err(failed(
            alloc,
            line,
            "an escape is one of \\n \\t \\0 \\\" \\\\ \\xNN",
        )),
    }
}

// Takes one byte more, and gives where the reader then stands, if it is no fault.
fn taken(bytes: &mut Vec<u8>, at: Escape, byte: u8) -> Result<Option<Escape>, AllocError> {
    match at {
        Escape::None if byte == b'\\' => Ok(Some(Escape::Begun)),
        Escape::None => pushed(bytes, byte),
        Escape::Begun if byte == b'x' => Ok(Some(Escape::Hex)),
        Escape::Begun => match escaped(byte) {
            Some(byte) => pushed(bytes, byte),
            None => Ok(None),
        },
        Escape::Hex => Ok(hex_digit(byte).map(|digit| Escape::HalfHex(digit))),
        Escape::HalfHex(high) => match hex_digit(byte) {
            Some(low) => pushed(bytes, byte_of(high, low)),
            None => Ok(None),
        },
    }
}

fn pushed(bytes: &mut Vec<u8>, byte: u8) -> Result<Option<Escape>, AllocError> {
    bytes.push(byte)?;
    Ok(Some(Escape::None))
}

// The byte that stands behind a backslash as this one.
fn escaped(byte: u8) -> Option<u8> {
    match byte {
        b'n' => Some(b'\n'),
        b't' => Some(b'\t'),
        b'0' => Some(0),
        b'"' => Some(b'"'),
        b'\\' => Some(b'\\'),
        _ => None,
    }
}
