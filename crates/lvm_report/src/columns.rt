//! Columns of a report: one space between two; longer texts aren't cut.
ghost use Rattle.std.specs.Prelude.{◌≡◌, ◌++◌, IfOk, codes, replicate};
ghost use Rattle.lvm_report.specs.Columns.{left, right};

use itoa::Buffer;
use std::alloc::AllocError;

/// Appends a column: the word, left in so many places.
pub fn put_left(text: &mut Vec<u8>, places: usize, word: &[u8]) -> Result<(), AllocError>
    ensures { IfOk result (λ _. text.new.items ≡ text.old.items ++ left places word.now ++ codes " ") }
{
    text.extend_from_slice(word)?;
    put_spaces(text, places.saturating_sub(word.len()))?;
    text.extend_from_slice(b" ")
}

/// Appends a column: the number, right in so many places.
pub fn put_right(text: &mut Vec<u8>, places: usize, number: u64) -> Result<(), AllocError>
    ensures { IfOk result (λ _. text.new.items ≡ text.old.items ++ right places number ++ codes " ") }
{
    put_number(text, places, number)?;
    text.extend_from_slice(b" ")
}

/// Appends the last column of a line: the number, right in so many places.
pub fn put_last(text: &mut Vec<u8>, places: usize, number: u64) -> Result<(), AllocError>
    ensures { IfOk result (λ _. text.new.items ≡ text.old.items ++ right places number ++ codes "\n") }
{
    put_number(text, places, number)?;
    text.extend_from_slice(b"\n")
}

// Appends the number, right in so many places.
fn put_number(text: &mut Vec<u8>, places: usize, number: u64) -> Result<(), AllocError>
    ensures { IfOk result (λ _. text.new.items ≡ text.old.items ++ right places number) }
{
    let mut buffer = Buffer::new();
    let digits = buffer.format(number).as_bytes();
    put_spaces(text, places.saturating_sub(digits.len()))?;
    text.extend_from_slice(digits)
}

// Appends so many spaces.
fn put_spaces(text: &mut Vec<u8>, count: usize) -> Result<(), AllocError>
    ensures { IfOk result (λ _. text.new.items ≡ text.old.items ++ replicate count 32) }
{
    for _ in 0..count {
        text.push(b' ')?;
    }
    Ok(())
}
