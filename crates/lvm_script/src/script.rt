//! The lines of a script.
ghost use Rattle.std.specs.Prelude.{◌≡◌, ◌≢◌, ◌≤◌, ◌<◌, ◌+◌, ◌==◌, [], ◌∷◌, ◌++◌, length, map, Some, Ok, IfOk, IfSome, List, ℕ, MatchResult, OnErr, OnOk, option_map};
ghost use Rattle.std.specs.List.{position};
ghost use Rattle.command_table.specs.declared.command.Command.{Command as CommandRecord};
ghost use Rattle.command_table.specs.Commands.{sectors_of};
ghost use Rattle.command_table.specs.Words.{placed};
ghost use Rattle.lvm_script.specs.Script.{AreLines, IsRefusal, IsScriptRefusal, commands_in, limited, line_meant, line_named, line_of_words, lines_in, meaning_of_line, numbered, refusal_at, word_between, words_in};

use crate::Line;
use crate::script_refusal::{LineRefusal, ScriptRefusal};
use command_table::{Command, CommandName, CommandRefusal, LineFault, read_command};
use lvm_id::Words64;
use sector_base::{ItemList, Text};
use std::alloc::{AllocError, Global};

/// The most lines of a script.
const MOST_LINES: u64 = 65_536;

/// The most sectors in all reads and writes of a script.
const MOST_SECTORS: u64 = 524_288;

/// The lines of a script that have an answer, in order. Contracts see the list of them.
pub type Script = ItemList<Line>;

/// The lines of this text. Each that creates something draws four numbers of `ids`, in the order of the lines.
///
/// # Errors
///
/// - `LineRefused` of the first line with a fault, exactly where there is one. The first fault of a line is that of its
///   first word, then that of the first faulty word from the left, then that the words are wrong as a whole. `SessionFull`
///   comes exactly at line 65,537, whatever it holds, and where the sectors of reads and writes pass 524,288.
/// - `NoMemory` where memory is wanting.
///
/// After both no number of `ids` was drawn.
pub fn script_of<N: Words64>(
    alloc: Global,
    text: &Text,
    ids: &mut N,
) -> Result<Script, ScriptRefusal>
    ensures script { MatchResult result
        (λ script. (commands : List (ℕ × CommandRecord)) × (commands_in text.now ≡ Ok commands) × AreLines (N.upcoming ids.old) commands script (N.upcoming ids.new))
        (IsScriptRefusal (commands_in text.now)) }
    ensures undrawn { OnErr result (N.upcoming ids.new ≡ N.upcoming ids.old) }
{
    let mut lines = lines_without_ids(alloc, text.as_bytes())?;
    draw_ids(&mut lines, ids);
    Ok(ItemList::from_vec(lines))
}

// Draws the ids of these lines, in their order.
fn draw_ids<N: Words64>(lines: &mut [Line], ids: &mut N)
    ensures { AreLines (N.upcoming ids.old) (map numbered lines.old) lines.new (N.upcoming ids.new) }
{
    for line in lines.iter_mut() {
        line.draw_id(ids);
    }
}

// The lines of this text, before any has drawn its id.
fn lines_without_ids(alloc: Global, text: &[u8]) -> Result<Vec<Line>, ScriptRefusal>
    ensures { MatchResult result (λ lines. commands_in text.now ≡ Ok (map numbered lines.items)) (IsScriptRefusal (commands_in text.now)) }
{
    let mut lines = Vec::with_capacity(alloc, most_lines_of(text))?;
    let mut number = 0;
    let mut sectors = 0;
    let mut rest = text;
    while !rest.is_empty() {
        let (line, after) = first_line(rest);
        rest = after;
        number += 1;
        match command_in(alloc, line, number, sectors) {
            Ok(None) => {}
            Ok(Some(command)) => {
                sectors += command.sectors();
                lines.push(Line {
                    number,
                    id: None,
                    command,
                })?;
            }
            Err(refusal) => return Err(refusal.in_line(number)),
        }
    }
    Ok(lines)
}

// No fewer than the lines of this text that a script has: room for all of them at once, so that no list of them is copied.
fn most_lines_of(text: &[u8]) -> usize
    ensures { result ≤ 65536 }
{
    let ends = text.iter().filter(|byte| **byte == b'\n').count();
    ends.saturating_add(1).min(MOST_LINES as usize)
}

// The first line of a text that isn't empty, and what follows its line feed.
#[tactic(auto, using(crate::proofs::Lines::ended_line, crate::proofs::Lines::last_line))]
fn first_line(text: &[u8]) -> (&[u8], &[u8])
    requires { text.now ≢ [] }
    ensures lines { lines_in text.now ≡ result.0.now ∷ lines_in result.1.now }
    ensures shorter { length result.1.now < length text.now }
{
    match line_feed_in(text) {
        Some(at) => (&text[..at], &text[at + 1..]),
        None => (text, &[]),
    }
}

// The place of the first line feed.
fn line_feed_in(text: &[u8]) -> Option<usize>
    ensures place { result ≡ position (λ byte. byte == 10) text.now }
    ensures within { IfSome result (λ place. place < length text.now) }
{
    text.iter().position(|byte| *byte == b'\n')
}

// The command of the line with this number, where the lines before it have so many sectors.
fn command_in(
    alloc: Global,
    line: &[u8],
    number: u64,
    sectors: u64,
) -> Result<Option<Command>, LineRefusal>
    requires { sectors ≤ 524288 }
    ensures meant { MatchResult result (λ command. limited sectors (line_meant number line.now) ≡ option_map Ok command) (IsRefusal (limited sectors (line_meant number line.now))) }
    ensures lines { IfOk result (λ _. number ≤ 65536) }
    ensures sectors { IfOk result (λ command. IfSome command (λ command. sectors + sectors_of command ≤ 524288)) }
{
    if number > MOST_LINES {
        return Err(LineRefusal::Refused(LineFault::SessionFull, 0));
    }
    match command_of_line(alloc, line)? {
        Some(command) => within(command, sectors),
        None => Ok(None),
    }
}

// The command, where its sectors don't take these past the most.
fn within(command: Command, sectors: u64) -> Result<Option<Command>, LineRefusal>
    requires { sectors ≤ 524288 }
    ensures sectors { IfOk result (λ taken. IfSome taken (λ command. sectors + sectors_of command ≤ 524288)) }
    ensures meant { MatchResult result (λ taken. limited sectors (Some (Ok command)) ≡ option_map Ok taken) (IsRefusal (limited sectors (Some (Ok command)))) }
{
    if command.sectors() > MOST_SECTORS - sectors {
        Err(LineRefusal::Refused(LineFault::SessionFull, 0))
    } else {
        Ok(Some(command))
    }
}

// What a line asks for: nothing where it is empty or a comment.
fn command_of_line(alloc: Global, line: &[u8]) -> Result<Option<Command>, LineRefusal>
    ensures { MatchResult result (λ command. meaning_of_line line.now ≡ option_map Ok command) (IsRefusal (meaning_of_line line.now)) }
{
    if line.first() == Some(&b'#') {
        return Ok(None);
    }
    let words = words_in(alloc, line)?;
    command_of_words(alloc, &words, line.len() as u64)
}

// What the words of a line of this length ask for: nothing where there are none.
fn command_of_words(
    alloc: Global,
    words: &[(&[u8], u64)],
    end: u64,
) -> Result<Option<Command>, LineRefusal>
    ensures { MatchResult result (λ command. line_of_words end (placed words.now) ≡ option_map Ok command) (IsRefusal (line_of_words end (placed words.now))) }
{
    match words {
        [] => Ok(None),
        [(first, place), rest @ ..] => {
            match named_command(alloc, CommandName::named(first), *place, end, rest) {
                Ok(command) => Ok(Some(command)),
                Err(refusal) => Err(refusal),
            }
        }
    }
}

// The command with this name, which stands in this place of a line of this length before these words.
fn named_command(
    alloc: Global,
    name: Option<CommandName>,
    place: u64,
    end: u64,
    rest: &[(&[u8], u64)],
) -> Result<Command, LineRefusal>
    ensures { MatchResult result (λ command. line_named name place end (placed rest.now) ≡ Ok command) (λ refusal. IsRefusal (Some (line_named name place end (placed rest.now))) refusal) }
{
    match name {
        None => Err(LineRefusal::Refused(LineFault::UnknownWord, place)),
        Some(name) => script_command(alloc, name, place, end, rest),
    }
}

// The same of this name.
fn script_command(
    alloc: Global,
    name: CommandName,
    place: u64,
    end: u64,
    rest: &[(&[u8], u64)],
) -> Result<Command, LineRefusal>
    ensures { MatchResult result (λ command. line_named (Some name) place end (placed rest.now) ≡ Ok command) (λ refusal. IsRefusal (Some (line_named (Some name) place end (placed rest.now))) refusal) }
{
    if !name.is_for_scripts() {
        return Err(LineRefusal::Refused(LineFault::NotHere, place));
    }
    match read_command(alloc, name, rest) {
        Ok(command) => Ok(command),
        Err(refusal) => Err(refusal_at(refusal, end)),
    }
}

/// The refusal of words in a line of this length.
pub(crate) fn refusal_at(refusal: CommandRefusal, end: u64) -> LineRefusal
    ensures { result ≡ refusal_at end refusal }
{
    match refusal {
        CommandRefusal::Faulty(fault, place) => {
            LineRefusal::Refused(LineFault::Faulty(fault), place)
        }
        CommandRefusal::WrongWords => LineRefusal::Refused(LineFault::WrongWords, end),
        CommandRefusal::NoMemory => LineRefusal::NoMemory,
    }
}

// The words of a line, each with its place. One or more spaces separate them.
fn words_in<'a>(alloc: Global, line: &'a [u8]) -> Result<Vec<(&'a [u8], u64)>, AllocError>
    ensures { IfOk result (λ words. placed words.items ≡ words_in line.now) }
{
    let mut words = Vec::new(alloc);
    let mut from = 0;
    for at in 0..line.len() {
        if line[at] == b' ' {
            push_word(&mut words, line, from, at)?;
            from = at + 1;
        }
    }
    push_word(&mut words, line, from, line.len())?;
    Ok(words)
}

// Adds the word between these places of a line, if there is one.
fn push_word<'a>(
    words: &mut Vec<(&'a [u8], u64)>,
    line: &'a [u8],
    from: usize,
    to: usize,
) -> Result<(), AllocError>
    requires within { from ≤ to }
    requires most { to ≤ length line.now }
    ensures { OnOk result (placed words.new.items ≡ placed words.old.items ++ word_between line.now from to) }
{
    if from < to {
        words.push((&line[from..to], from as u64))?;
    }
    Ok(())
}
