//! Bytes as they are shown where they differ from what was wanted.
use std::alloc::{AllocError, Global};

/// The bytes between quotes, with escapes.
pub fn shown(alloc: Global, bytes: &[u8]) -> Result<String, AllocError> {
    let mut text = String::new(alloc);
    text.push('"')?;
    for byte in bytes {
        push_shown(&mut text, *byte)?;
    }
    text.push('"')?;
    Ok(text)
}

fn push_shown(text: &mut String, byte: u8) -> Result<(), AllocError> {
    match byte {
        b'\n' => text.push_str("\\n"),
        b'\t' => text.push_str("\\t"),
        b'"' => text.push_str("\\\""),
        b'\\' => text.push_str("\\\\"),
        b' '..=b'~' => text.push(char::from(byte)),
        _ => {
            text.push_str("\\x")?;
            text.push(hex_of(byte / 16))?;
            text.push(hex_of(byte % 16))
        }
    }
}

fn hex_of(digit: u8) -> char {
    match char::from_digit(u32::from(digit), 16) {
        Some(digit) => digit,
        None => '?',
    }
}

/// In which line the two differ first, and how. The line ends with the text that is shown of it.
pub fn first_difference(
    alloc: Global,
    wanted: &[u8],
    is: &[u8],
) -> Result<Option<String>, AllocError> {
    if wanted == is {
        return Ok(None);
    }
    let same = wanted
        .iter()
        .zip(is.iter())
        .take_while(|both| both.0 == both.1)
        .count();
    let number = line_of(is, same);
    let wanted = shown(alloc, line_at(wanted, same))?;
    let is = shown(alloc, line_at(is, same))?;
    let text = format!(in alloc; "line {number} of the output is {is}, wanted {wanted}")?;
    Ok(Some(text))
}

// The number of the line in which this place is.
fn line_of(bytes: &[u8], place: usize) -> usize {
    let ends = front(bytes, place)
        .iter()
        .filter(|byte| **byte == b'\n')
        .count();
    ends.saturating_add(1)
}

// The line around this place, with its newline.
fn line_at(bytes: &[u8], place: usize) -> &[u8] {
    let begin = match front(bytes, place).iter().rposition(|byte| *byte == b'\n') {
        Some(end) => end.saturating_add(1),
        None => 0,
    };
    let rest = behind(bytes, begin);
    match rest.iter().position(|byte| *byte == b'\n') {
        Some(end) => front(rest, end.saturating_add(1)),
        None => rest,
    }
}

// The bytes before this place.
fn front(bytes: &[u8], place: usize) -> &[u8] {
    let (front, _) = bytes.split_at(place.min(bytes.len()));
    front
}

// The bytes from this place on.
fn behind(bytes: &[u8], place: usize) -> &[u8] {
    let (_, behind) = bytes.split_at(place.min(bytes.len()));
    behind
}
