//! Writing entries, one on a line.
ghost use Rattle.std.specs.Prelude.{◌≡◌, ◌^◌, ◌<◌, ℕ, List, [], ◌∷◌, ◌++◌, map, IfOk, OnErr, decimal};
ghost use Rattle.conf_text.specs.Entries.{Open, Close, Assign, One, Many, Number, Text};
ghost use Rattle.conf_text.specs.Grammar.{escaped};
ghost use Rattle.conf_text.specs.Lists.{list_begun, list_added};
ghost use Rattle.conf_text.specs.Printed.{printed_scalar};
ghost use Rattle.conf_text.specs.Sinks.{Prints};

use crate::kind::{Kind, kind_of};
use crate::sink::TextSink;
use itoa::Buffer;
use std::alloc::AllocError;

/// Begins a section.
///
/// # Errors
///
/// As of the sink's `push`; so it is of each function here.
pub fn write_open<S: TextSink>(sink: &mut S, name: &[u8]) -> Result<(), AllocError>
    ensures added { IfOk result (λ _. Prints S.Adds sink.old (Open name.now ∷ []) sink.new) }
    ensures failed { OnErr result S.MayFail }
{
    sink.push(name)?;
    sink.push(b" {\n")
}

/// Begins a section whose name ends with a number.
pub fn write_numbered_open<S: TextSink>(
    sink: &mut S,
    name: &[u8],
    number: u64,
) -> Result<(), AllocError>
    ensures added { IfOk result (λ _. Prints S.Adds sink.old (Open (name.now ++ decimal number) ∷ []) sink.new) }
    ensures failed { OnErr result S.MayFail }
{
    sink.push(name)?;
    write_digits(sink, number)?;
    sink.push(b" {\n")
}

/// Ends the innermost section.
pub fn write_close<S: TextSink>(sink: &mut S) -> Result<(), AllocError>
    ensures added { IfOk result (λ _. Prints S.Adds sink.old (Close ∷ []) sink.new) }
    ensures failed { OnErr result S.MayFail }
{
    sink.push(b"}\n")
}

/// A key with a number.
pub fn write_number<S: TextSink>(sink: &mut S, key: &[u8], number: u64) -> Result<(), AllocError>
    ensures added { IfOk result (λ _. Prints S.Adds sink.old (Assign key.now (One (Number number)) ∷ []) sink.new) }
    ensures failed { OnErr result S.MayFail }
{
    write_key(sink, key)?;
    write_digits(sink, number)?;
    sink.push(b"\n")
}

/// A key with a string.
pub fn write_text<S: TextSink>(sink: &mut S, key: &[u8], text: &[u8]) -> Result<(), AllocError>
    ensures added { IfOk result (λ _. Prints S.Adds sink.old (Assign key.now (One (Text text.now)) ∷ []) sink.new) }
    ensures failed { OnErr result S.MayFail }
{
    write_key(sink, key)?;
    write_quoted(sink, text)?;
    sink.push(b"\n")
}

/// A key with a list of strings.
pub fn write_words<S: TextSink>(sink: &mut S, key: &[u8], words: &[&[u8]]) -> Result<(), AllocError>
    ensures added { IfOk result (λ _. Prints S.Adds sink.old (Assign key.now (Many (map (λ word. Text word.now) words.now)) ∷ []) sink.new) }
    ensures failed { OnErr result S.MayFail }
{
    begin_list(sink, key)?;
    for (at, word) in words.iter().enumerate() {
        list_text(sink, at, word)?;
    }
    end_list(sink)
}

/// Begins a list.
pub fn begin_list<S: TextSink>(sink: &mut S, key: &[u8]) -> Result<(), AllocError>
    ensures added { IfOk result (λ _. S.Adds sink.old (list_begun key.now []) sink.new) }
    ensures failed { OnErr result S.MayFail }
{
    write_key(sink, key)?;
    sink.push(b"[")
}

/// An element of a list that has so many.
pub fn list_text<S: TextSink>(sink: &mut S, before: usize, text: &[u8]) -> Result<(), AllocError>
    ensures added { IfOk result (λ _. S.Adds sink.old (list_added before (Text text.now ∷ [])) sink.new) }
    ensures failed { OnErr result S.MayFail }
{
    separate(sink, before)?;
    write_quoted(sink, text)
}

/// An element of a list that has so many.
pub fn list_number<S: TextSink>(sink: &mut S, before: usize, number: u64) -> Result<(), AllocError>
    ensures added { IfOk result (λ _. S.Adds sink.old (list_added before (Number number ∷ [])) sink.new) }
    ensures failed { OnErr result S.MayFail }
{
    separate(sink, before)?;
    write_digits(sink, number)
}

/// Two elements, of a list that has so many.
pub fn list_pair<S: TextSink>(
    sink: &mut S,
    before: usize,
    text: &[u8],
    number: u64,
) -> Result<(), AllocError>
    ensures added { IfOk result (λ _. S.Adds sink.old (list_added before (Text text.now ∷ Number number ∷ [])) sink.new) }
    ensures failed { OnErr result S.MayFail }
{
    separate(sink, before)?;
    write_quoted(sink, text)?;
    sink.push(b", ")?;
    write_digits(sink, number)
}

/// Ends a list.
pub fn end_list<S: TextSink>(sink: &mut S) -> Result<(), AllocError>
    ensures added { IfOk result (λ _. S.Adds sink.old (93 ∷ 10 ∷ []) sink.new) }
    ensures failed { OnErr result S.MayFail }
{
    sink.push(b"]\n")
}

// What stands before an element of a list that has so many.
fn separate<S: TextSink>(sink: &mut S, before: usize) -> Result<(), AllocError>
    ensures added { IfOk result (λ _. S.Adds sink.old (list_added before []) sink.new) }
    ensures failed { OnErr result S.MayFail }
{
    if before == 0 {
        sink.push(b"")
    } else {
        sink.push(b", ")
    }
}

fn write_key<S: TextSink>(sink: &mut S, key: &[u8]) -> Result<(), AllocError>
    ensures added { IfOk result (λ _. S.Adds sink.old (key.now ++ 32 ∷ 61 ∷ 32 ∷ []) sink.new) }
    ensures failed { OnErr result S.MayFail }
{
    sink.push(key)?;
    sink.push(b" = ")
}

fn write_digits<S: TextSink>(sink: &mut S, number: u64) -> Result<(), AllocError>
    ensures added { IfOk result (λ _. S.Adds sink.old (decimal number) sink.new) }
    ensures failed { OnErr result S.MayFail }
{
    let mut buffer = Buffer::new();
    sink.push(buffer.format(number).as_bytes())
}

// A string in quotes.
fn write_quoted<S: TextSink>(sink: &mut S, text: &[u8]) -> Result<(), AllocError>
    ensures added { IfOk result (λ _. S.Adds sink.old (printed_scalar (Text text.now)) sink.new) }
    ensures failed { OnErr result S.MayFail }
{
    sink.push(b"\"")?;
    for byte in text {
        write_escaped(sink, *byte)?;
    }
    sink.push(b"\"")
}

// A byte of a string, after a backslash where it needs one.
fn write_escaped<S: TextSink>(sink: &mut S, byte: u8) -> Result<(), AllocError>
    ensures added { IfOk result (λ _. S.Adds sink.old (escaped (byte ∷ [])) sink.new) }
    ensures failed { OnErr result S.MayFail }
{
    match kind_of(byte) {
        Kind::Quote | Kind::Backslash => sink.push(&[b'\\', byte]),
        _ => sink.push(&[byte]),
    }
}
