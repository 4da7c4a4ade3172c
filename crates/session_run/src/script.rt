//! The script of a session.
ghost use Rattle.std.specs.Prelude.{◌≡◌, ◌≤◌, ◌==◌, ◌-◌, ℕ, All, List, Some, None, MatchOption, MatchResult, IfOk, Ok, OnErr, length, not, position, take, true, if◌then◌else◌};
ghost use Rattle.std.specs.List.{after_first, before_first, position_or_len};
ghost use Rattle.command_table.specs.declared.command.Command.{Command as CommandRecord};
ghost use Rattle.data_lines.specs.DataLines.{runs_beside};
ghost use Rattle.lvm_script.specs.Script.{AreLines, IsScriptRefusal, commands_from, lines_in, words_in};
ghost use Rattle.session_run.specs.SessionScript.{AreOfSession, first_unrun, is_unrun, runs_named, session_commands, unrun_fault, unrun_in, unrun_line};

use command_table::{CommandName, LineFault};
use io_core::DataLine;
use lvm_id::{MixWords, Words64};
use lvm_script::{Line, Script, ScriptRefusal, script_of};
use sector_base::Text;
use std::alloc::{AllocError, Global};
use std::collections::VecDeque;

/// The lines of this text, which a world runs: each that reads or writes has a sector.
///
/// # Errors
///
/// As `script_of`, and `UnknownWord` at the first word of one of the first 65,536 lines that asks for a command which doesn't run in a
/// session yet: of the first line with a fault. `NoMemory` where memory is wanting. After each of them no number of `ids` was drawn.
pub fn session_script<N: Words64>(
    alloc: Global,
    text: &Text,
    ids: &mut N,
) -> Result<VecDeque<DataLine>, ScriptRefusal>
    ensures script { MatchResult result
        (λ lines. (commands : List (ℕ × CommandRecord)) × (session_commands text.now ≡ Ok commands) × AreLines (N.upcoming ids.old) commands lines.items (N.upcoming ids.new))
        (IsScriptRefusal (session_commands text.now)) }
    ensures session { IfOk result (λ lines. AreOfSession lines.items) }
    ensures undrawn { OnErr result (N.upcoming ids.new ≡ N.upcoming ids.old) }
{
    match first_unrun(text.as_bytes()) {
        Some(unrun) => Err(refusal_at(alloc, text.as_bytes(), unrun)),
        None => lines_that_run(alloc, text, ids),
    }
}

// A line that begins with the name of a command which doesn't run: its number, the place of the name in it, and how many bytes stand
// before the line.
#[derive(Clone, Copy, Debug)]
struct Unrun {
    number: u64,
    place: u64,
    before: usize,
}

// The most lines of a script.
const MOST_LINES: u64 = 65536;

// The lines of a text of which none begins with such a name.
fn lines_that_run<N: Words64>(
    alloc: Global,
    text: &Text,
    ids: &mut N,
) -> Result<VecDeque<DataLine>, ScriptRefusal>
    requires { first_unrun 1 (lines_in text.now) ≡ None }
    ensures script { MatchResult result
        (λ lines. (commands : List (ℕ × CommandRecord)) × (session_commands text.now ≡ Ok commands) × AreLines (N.upcoming ids.old) commands lines.items (N.upcoming ids.new))
        (IsScriptRefusal (session_commands text.now)) }
    ensures session { IfOk result (λ lines. AreOfSession lines.items) }
    ensures undrawn { OnErr result (N.upcoming ids.new ≡ N.upcoming ids.old) }
{
    let script = script_of(alloc, text, ids)?;
    let lines = data_lines(alloc, script)?;
    Ok(lines)
}

// The same lines, each of which runs.
fn data_lines(alloc: Global, script: Script) -> Result<VecDeque<DataLine>, AllocError>
    requires { All (λ line. runs_beside line.command ≡ true) script }
    ensures { IfOk result (λ lines. lines.items ≡ script) }
{
    let all = script.into_vec();
    let mut lines = VecDeque::with_capacity(alloc, all.len())?;
    for line in all {
        lines.push_back(data_line(line))?;
    }
    Ok(lines)
}

// The same line, which runs.
fn data_line(line: Line) -> DataLine
    requires { runs_beside line.command ≡ true }
    ensures { result ≡ line }
{
    match DataLine::new(line) {
        Ok(line) => line,
        Err(_) => unreachable!(),
    }
}

// The refusal of a script with such a line: of that line, where no line before it is refused.
fn refusal_at(alloc: Global, text: &[u8], unrun: Unrun) -> ScriptRefusal
    requires first { first_unrun 1 (lines_in text.now) ≡ Some (unrun.number, unrun.place) }
    requires within { unrun.before ≤ length text.now }
    requires before { lines_in (take unrun.before text.now) ≡ take (unrun.number - 1) (lines_in text.now) }
    ensures { IsScriptRefusal (session_commands text.now) result }
{
    let (fault, place) = fault_of(unrun);
    let refusal = ScriptRefusal::LineRefused {
        number: unrun.number,
        fault,
        place,
    };
    refusal_of(alloc, &text[..unrun.before]).unwrap_or(refusal)
}

// What is wrong with such a line, and where: where it is one too many, that.
fn fault_of(unrun: Unrun) -> (LineFault, u64)
    ensures { result ≡ unrun_fault (unrun.number, unrun.place) }
{
    if unrun.number > MOST_LINES {
        (LineFault::SessionFull, 0)
    } else {
        (LineFault::UnknownWord, unrun.place)
    }
}

// The refusal of a script, if it is refused.
fn refusal_of(alloc: Global, text: &[u8]) -> Option<ScriptRefusal>
    ensures { MatchOption result ((commands : List (ℕ × CommandRecord)) × (commands_from (lines_in text.now) 1 0 ≡ Ok commands))
        (IsScriptRefusal (commands_from (lines_in text.now) 1 0)) }
{
    script_without_ids(alloc, text).err()
}

// The script of this text, with ids that count for nothing.
fn script_without_ids(alloc: Global, text: &[u8]) -> Result<Script, ScriptRefusal>
    ensures { MatchResult result
        (λ _. (commands : List (ℕ × CommandRecord)) × (commands_from (lines_in text.now) 1 0 ≡ Ok commands))
        (IsScriptRefusal (commands_from (lines_in text.now) 1 0)) }
{
    let mut copy = Vec::with_capacity(alloc, text.len())?;
    copy.extend_from_slice(text)?;
    script_of(alloc, &Text::from_vec(copy), &mut MixWords { state: 0 })
}

// The first line of a text that begins with the name of a command which doesn't run.
fn first_unrun(text: &[u8]) -> Option<Unrun>
    ensures { MatchOption result (first_unrun 1 (lines_in text.now) ≡ None) (λ unrun. (first_unrun 1 (lines_in text.now) ≡ Some (unrun.number, unrun.place))
        × (unrun.before ≤ length text.now) × (lines_in (take unrun.before text.now) ≡ take (unrun.number - 1) (lines_in text.now))) }
{
    let size = text.len();
    let mut number = 0;
    let mut rest = text;
    while !rest.is_empty() {
        let (line, after) = cut(rest, b'\n');
        number += 1;
        match unrun_line(line) {
            Some(place) => {
                return Some(Unrun {
                    number,
                    place,
                    before: size - rest.len(),
                });
            }
            None => rest = after,
        }
    }
    None
}

// The place of the first word of this line, where it is such a name.
fn unrun_line(line: &[u8]) -> Option<u64>
    ensures { result ≡ unrun_line line.now }
{
    if line.first() == Some(&b'#') {
        return None;
    }
    unrun_in(line)
}

// The same of a line that is no comment.
fn unrun_in(line: &[u8]) -> Option<u64>
    ensures { result ≡ unrun_in (words_in line.now) }
{
    let place = spaces_before(line);
    unrun_at(&line[place..], place as u64)
}

// This place, where what stands there before a space is such a name.
fn unrun_at(rest: &[u8], place: u64) -> Option<u64>
    ensures { result ≡ (if is_unrun (before_first (λ byte. byte == 32) rest.now) then Some place else None) }
{
    let (word, _) = cut(rest, b' ');
    if is_unrun(word) { Some(place) } else { None }
}

// Whether the word names a command of scripts that doesn't run.
fn is_unrun(word: &[u8]) -> bool
    ensures { result ≡ is_unrun word.now }
{
    match CommandName::named(word) {
        Some(name) => name.is_for_scripts() && !runs_named(name),
        None => false,
    }
}

// Whether lines of this name run in a session.
fn runs_named(name: CommandName) -> bool
    ensures { result ≡ runs_named name }
{
    matches!(
        name,
        CommandName::Read
            | CommandName::Fill
            | CommandName::Write
            | CommandName::Flush
            | CommandName::List
            | CommandName::Wait
    )
}

// How many spaces a line begins with.
fn spaces_before(line: &[u8]) -> usize
    ensures place { result ≡ position_or_len (λ byte. not (byte == 32)) line.now }
    ensures within { result ≤ length line.now }
{
    first_other(line).unwrap_or(line.len())
}

// The place of the first byte that is no space.
fn first_other(line: &[u8]) -> Option<usize>
    ensures { result ≡ position (λ byte. not (byte == 32)) line.now }
{
    line.iter().position(|byte| *byte != b' ')
}

// The place of the first such byte, or how many bytes there are.
fn place_of(bytes: &[u8], wanted: u8) -> usize
    ensures { result ≡ position_or_len (λ byte. byte == wanted) bytes.now }
{
    first_of(bytes, wanted).unwrap_or(bytes.len())
}

// The place of the first such byte.
fn first_of(bytes: &[u8], wanted: u8) -> Option<usize>
    ensures { result ≡ position (λ byte. byte == wanted) bytes.now }
{
    bytes.iter().position(|byte| *byte == wanted)
}

// What stands before the first such byte, or all, and what follows it.
fn cut(bytes: &[u8], wanted: u8) -> (&[u8], &[u8])
    ensures before { result.0.now ≡ before_first (λ byte. byte == wanted) bytes.now }
    ensures after { result.1.now ≡ after_first (λ byte. byte == wanted) bytes.now }
{
    let place = place_of(bytes, wanted);
    if place < bytes.len() {
        (&bytes[..place], &bytes[place + 1..])
    } else {
        (bytes, &[])
    }
}
