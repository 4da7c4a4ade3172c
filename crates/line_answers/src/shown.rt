//! Refusals as they are shown: a kind, and its values.
ghost use Rattle.std.specs.Prelude.{◌++◌, codes, map, is_ok};
ghost use Rattle.sector_base.specs.Shown.{shown_text, value_text};
ghost use Rattle.byte_streams.specs.Streams.{WritesText};
ghost use Rattle.line_answers.specs.Answers.{value_of};

use byte_streams::{Failed, Sink, write_bytes, write_number};

/// A value of a refusal.
#[derive(Clone, Copy, Debug)]
pub enum Shown<'a> {
    /// A name or an id, written as it stands.
    Text(&'a [u8]),
    /// A number, written in decimal.
    Number(u64),
}

/// Writes KIND VALUES, each value behind a space.
///
/// # Errors
///
/// As of `write_all`.
pub fn write_kind<W: Sink>(out: &mut W, kind: &str, values: &[Shown]) -> Result<(), Failed>
    ensures { WritesText (W.written out.old) (W.fault_count out.old) (shown_text (kind.now, map value_of values.now))
        (is_ok result) (W.written out.new) (W.fault_count out.new) }
{
    write_bytes(out, kind.as_bytes())?;
    for value in values {
        write_behind_space(out, value)?;
    }
    Ok(())
}

// Writes a space and the value.
fn write_behind_space<W: Sink>(out: &mut W, value: &Shown) -> Result<(), Failed>
    ensures { WritesText (W.written out.old) (W.fault_count out.old) (codes " " ++ value_text (value_of value.now))
        (is_ok result) (W.written out.new) (W.fault_count out.new) }
{
    write_bytes(out, b" ")?;
    write_value(out, value)
}

fn write_value<W: Sink>(out: &mut W, value: &Shown) -> Result<(), Failed>
    ensures { WritesText (W.written out.old) (W.fault_count out.old) (value_text (value_of value.now))
        (is_ok result) (W.written out.new) (W.fault_count out.new) }
{
    match value {
        Shown::Text(text) => write_bytes(out, text),
        Shown::Number(number) => write_number(out, *number),
    }
}
