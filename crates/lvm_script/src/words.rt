//! From the words of a command line to what they ask for, or to their first refusal.
ghost use Rattle.std.specs.Prelude.{◌≡◌, ◌⊎◌, Err, IfErr, IfOk, IfSome, MatchResult, Ok, OnErr, Some};
ghost use Rattle.lvm_id.specs.LvmId.{IsId};
ghost use Rattle.command_table.specs.Commands.{draws};
ghost use Rattle.command_table.specs.Meaning.{meaning_of_words, request_named, request_of, request_read};
ghost use Rattle.command_table.specs.Options.{words_of};
ghost use Rattle.command_table.specs.Words.{numbered_from, read, read_by, split_by};
ghost use Rattle.lvm_script.specs.Lines.{TakesId, line_of as line_with};
ghost use Rattle.lvm_script.specs.Script.{IsRefusalOf, only_command};

use crate::script::refusal_at;
use crate::{Line, LineRefusal};
use command_table::{CommandName, CommandRefusal, LineFault, Reading, Request, request_by_name};
use lvm_id::Words64;
use std::alloc::{AllocError, Global};

/// The line of these words of a command line, the first of which is the command's name. It is line 1, and draws the next four
/// numbers of `ids` where its command draws an id.
///
/// # Errors
///
/// As of `read_request`, and `NotHere` at place 0 for a session and the demo, which are no line. After each no number of
/// `ids` was drawn.
pub fn line_of<N: Words64>(
    alloc: Global,
    words: &[String],
    ids: &mut N,
) -> Result<Line, LineRefusal>
    ensures command { MatchResult result (λ line. only_command (meaning_of_words (words_of words.now)) ≡ Ok line.command)
        (IsRefusalOf (only_command (meaning_of_words (words_of words.now)))) }
    ensures line { IfOk result (λ line. line ≡ line_with 1 line.command (N.upcoming ids.old)) }
    ensures valid { IfOk result (λ line. IfSome line.id IsId) }
    ensures drawn { IfOk result (λ line. TakesId (draws line.command) (N.upcoming ids.old) (N.upcoming ids.new)) }
    ensures undrawn { OnErr result (N.upcoming ids.new ≡ N.upcoming ids.old) }
{
    match read_request(alloc, words)? {
        Request::One(command) => Ok(Line::new(1, command, ids)),
        Request::Session(_) | Request::Demo { .. } => {
            Err(LineRefusal::Refused(LineFault::NotHere, 0))
        }
    }
}

/// What these words of a command line ask for, the first of which is the command's name.
///
/// # Errors
///
/// - `Refused` with the first fault and the place of the faulty word, from 0, exactly where there is one: that of the first
///   word, then that of the first faulty word from the left, then that the words are wrong as a whole, whose place is
///   their end.
/// - `NoMemory` where memory is wanting.
pub fn read_request(alloc: Global, words: &[String]) -> Result<Request, LineRefusal>
    ensures { MatchResult result (λ request. meaning_of_words (words_of words.now) ≡ Ok request) (IsRefusalOf (meaning_of_words (words_of words.now))) }
{
    let [first, rest @ ..] = words else {
        return Err(LineRefusal::Refused(LineFault::WrongWords, 0));
    };
    match CommandName::named(first.as_bytes()) {
        Some(name) => request_named(alloc, name, rest),
        None => Err(LineRefusal::Refused(LineFault::UnknownWord, 0)),
    }
}

// The same of the words after this name.
fn request_named(alloc: Global, name: CommandName, words: &[String]) -> Result<Request, LineRefusal>
    ensures { MatchResult result (λ request. request_named (Some name) (words_of words.now) ≡ Ok request) (IsRefusalOf (request_named (Some name) (words_of words.now))) }
{
    if !name.is_for_words() {
        return Err(LineRefusal::Refused(LineFault::NotHere, 0));
    }
    let reading = read_words(alloc, name, words)?;
    match request_read(alloc, name, &reading) {
        Ok(request) => Ok(request),
        Err(refusal) => Err(refusal_at(refusal, words.len() as u64 + 1)),
    }
}

// What was read asks for.
fn request_read(
    alloc: Global,
    name: CommandName,
    reading: &Reading,
) -> Result<Request, CommandRefusal>
    ensures ok { IfOk result (λ request. request_read name (read_by reading.now) ≡ Ok request) }
    ensures err { IfErr result (λ refusal. (refusal ≡ CommandRefusal.NoMemory)
        ⊎ (request_read name (read_by reading.now) ≡ Err refusal)) }
{
    if let Some((fault, place)) = reading.fault {
        return Err(CommandRefusal::Faulty(fault, place));
    }
    match request_of(alloc, name, reading) {
        Ok(Some(request)) => Ok(request),
        Ok(None) => Err(CommandRefusal::WrongWords),
        Err(AllocError) => Err(CommandRefusal::NoMemory),
    }
}

// The same, where no word is faulty.
fn request_of(
    alloc: Global,
    name: CommandName,
    reading: &Reading,
) -> Result<Option<Request>, AllocError>
    ensures { IfOk result (λ request. request ≡ request_of name (split_by reading.now)) }
{
    if !reading.is_complete() {
        return Ok(None);
    }
    request_by_name(
        alloc,
        name,
        &reading.options(),
        reading.arguments.as_slice(),
    )
}

// The words, read from left to right; the first has the number 1.
fn read_words<'a>(
    alloc: Global,
    name: CommandName,
    words: &'a [String],
) -> Result<Reading<'a>, AllocError>
    ensures { IfOk result (λ reading. read_by reading ≡ read name (numbered_from 1 (words_of words.now))) }
{
    let mut reading = Reading::new(alloc);
    let mut number = 1;
    for word in words {
        reading.take(name, word.as_bytes(), number)?;
        number += 1;
    }
    Ok(reading)
}
