//! From the words to what they ask for.
ghost use Rattle.std.specs.Prelude.{◌≡◌, ◌⊎◌, Err, IfErr, IfOk, Ok};
ghost use Rattle.command_table.specs.Commands.{command_by_name};
ghost use Rattle.command_table.specs.Given.{given_by};
ghost use Rattle.command_table.specs.Meaning.{command_of, demo, meaning_of, narrow, request_by_name, session, session_on, workers_in};
ghost use Rattle.command_table.specs.Options.{words_in};
ghost use Rattle.command_table.specs.Words.{placed, read, read_by, split_by};

use crate::commands::{command_by_name, one_word};
use crate::given_options::GivenOptions;
use crate::reading::Reading;
use crate::refusal::CommandRefusal;
use crate::values::number_of;
use crate::{Command, CommandName, OptionKey, Request, Session};
use lvm_name::{GroupName, NameRefusal};
use sector_base::Text;
use std::alloc::{AllocError, Global};

/// What the words of this name ask for, with these options and arguments, each of which is what it has to be. `None` is that
/// they are too few or too many or don't go together. Only memory can be wanting.
pub fn request_by_name(
    alloc: Global,
    name: CommandName,
    given: &GivenOptions,
    arguments: &[&[u8]],
) -> Result<Option<Request>, AllocError>
    ensures { IfOk result (λ request. request ≡ request_by_name name (given_by given.now) (words_in arguments.now)) }
{
    match name {
        CommandName::Session => session(alloc, given, arguments),
        CommandName::Demo => Ok(demo(arguments)),
        _ => match command_by_name(alloc, name, given, arguments)? {
            Some(command) => Ok(Some(Request::One(command))),
            None => Ok(None),
        },
    }
}

fn session(
    alloc: Global,
    given: &GivenOptions,
    arguments: &[&[u8]],
) -> Result<Option<Request>, AllocError>
    ensures { IfOk result (λ request. request ≡ session (given_by given.now) (words_in arguments.now)) }
{
    match one_word(alloc, arguments)? {
        Some(vg) => session_on(alloc, given, workers_in(given), &vg),
        None => Ok(None),
    }
}

// How many workers are to run.
fn workers_in(given: &GivenOptions) -> Option<u32>
    ensures { result ≡ workers_in (given_by given.now) }
{
    narrow(given.number(OptionKey::Workers)?)
}

// A session with so many workers on the group of this name.
fn session_on(
    alloc: Global,
    given: &GivenOptions,
    workers: Option<u32>,
    vg: &Text,
) -> Result<Option<Request>, AllocError>
    ensures { IfOk result (λ request. request ≡ session_on (given_by given.now) workers vg.now) }
{
    let Some(workers) = workers else {
        return Ok(None);
    };
    match GroupName::new(alloc, vg.as_bytes()) {
        Ok(group) => Ok(Some(Request::Session(Session {
            group,
            workers,
            disk_threads: given.has(OptionKey::DiskThreads),
            status: given.has(OptionKey::Status),
        }))),
        Err(NameRefusal::NoMemory) => Err(AllocError),
        Err(_) => Ok(None),
    }
}

fn demo(arguments: &[&[u8]]) -> Option<Request>
    ensures { result ≡ demo (words_in arguments.now) }
{
    let [seed, lines, workers] = arguments else {
        return None;
    };
    Some(Request::Demo {
        seed: number_of(seed)?,
        lines: number_of(lines)?,
        workers: narrow(number_of(workers)?)?,
    })
}

// The number, where it fits 32 bits.
fn narrow(number: u64) -> Option<u32>
    ensures { result ≡ narrow number }
{
    match u32::try_from(number) {
        Ok(narrow) => Some(narrow),
        Err(_) => None,
    }
}

/// The command of these words with their places, which stand after its name, or the first refusal.
pub fn read_command(
    alloc: Global,
    name: CommandName,
    words: &[(&[u8], u64)],
) -> Result<Command, CommandRefusal>
    ensures ok { IfOk result (λ command. meaning_of name (placed words.now) ≡ Ok command) }
    ensures err { IfErr result (λ refusal. (refusal ≡ CommandRefusal.NoMemory)
        ⊎ (meaning_of name (placed words.now) ≡ Err refusal)) }
{
    let Ok(reading) = read_placed(alloc, name, words) else {
        return Err(CommandRefusal::NoMemory);
    };
    if let Some((fault, place)) = reading.fault {
        return Err(CommandRefusal::Faulty(fault, place));
    }
    match command_of(alloc, name, &reading) {
        Ok(Some(command)) => Ok(command),
        Ok(None) => Err(CommandRefusal::WrongWords),
        Err(AllocError) => Err(CommandRefusal::NoMemory),
    }
}

// The words with their places, read from left to right.
fn read_placed<'a>(
    alloc: Global,
    name: CommandName,
    words: &[(&'a [u8], u64)],
) -> Result<Reading<'a>, AllocError>
    ensures { IfOk result (λ reading. read_by reading ≡ read name (placed words.now)) }
{
    let mut reading = Reading::new(alloc);
    for (word, place) in words {
        reading.take(name, word, *place)?;
    }
    Ok(reading)
}

// The command, where no word is faulty.
fn command_of(
    alloc: Global,
    name: CommandName,
    reading: &Reading,
) -> Result<Option<Command>, AllocError>
    ensures { IfOk result (λ command. command ≡ command_of name (split_by reading.now)) }
{
    if !reading.is_complete() {
        return Ok(None);
    }
    command_by_name(
        alloc,
        name,
        &reading.options(),
        reading.arguments.as_slice(),
    )
}
