//! Writing a whole text.
ghost use Rattle.std.specs.Prelude.{decimal, is_ok};
ghost use Rattle.byte_streams.specs.Streams.{WritesText};

use crate::{Failed, Sink};
use itoa::Buffer;
use sector_base::Text;

/// Writes the whole text, in as many pieces as the sink takes.
///
/// # Errors
///
/// `Failed` exactly where the count of faults has risen in this call. Then a front of the text was written, and not all of it.
pub fn write_all<W: Sink>(out: &mut W, text: &Text) -> Result<(), Failed>
    ensures { WritesText (W.written out.old) (W.fault_count out.old) text.now (is_ok result) (W.written out.new) (W.fault_count out.new) }
{
    write_bytes(out, text.as_bytes())
}

/// The same of bytes that are no text of their own.
///
/// # Errors
///
/// As of `write_all`.
pub fn write_bytes<W: Sink>(out: &mut W, bytes: &[u8]) -> Result<(), Failed>
    ensures { WritesText (W.written out.old) (W.fault_count out.old) bytes.now (is_ok result) (W.written out.new) (W.fault_count out.new) }
{
    let mut done = 0;
    while done < bytes.len() {
        done += out.write(&bytes[done..])?;
    }
    Ok(())
}

/// Writes a number in decimal digits. It takes no memory.
///
/// # Errors
///
/// As of `write_all`.
pub fn write_number<W: Sink>(out: &mut W, number: u64) -> Result<(), Failed>
    ensures { WritesText (W.written out.old) (W.fault_count out.old) (decimal number) (is_ok result) (W.written out.new) (W.fault_count out.new) }
{
    let mut buffer = Buffer::new();
    write_bytes(out, buffer.format(number).as_bytes())
}
