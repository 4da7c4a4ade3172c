//! The session that words ask for.
ghost use Rattle.std.specs.Prelude.{◌≡◌, false, IfOk, MatchOption, None, Some};
ghost use Rattle.command_table.specs.Options.{words_of};
ghost use Rattle.lvm_run.specs.Sessions.{AsksFor, asks_session, session_in};

use command_table::{Request, Session};
use line_answers::DiskNames;
use lvm_words::{CommandLine, WordsRefusal, read_command_line};
use std::alloc::{AllocError, Global};

/// A session, and the names of its disks.
#[derive(Drop)]
pub struct AskedSession {
    pub names: DiskNames,
    pub session: Session,
}

/// The session that the words ask for, if they ask for one. Only memory can be wanting.
pub fn asked_session(alloc: Global, words: &[String]) -> Result<Option<AskedSession>, AllocError>
    ensures { IfOk result (λ found. MatchOption found (asks_session (words_of words.now) ≡ false)
        (λ asked. AsksFor (words_of words.now) asked.names asked.session)) }
{
    match read_command_line(alloc, words) {
        Ok(line) => Ok(session_of_line(line)),
        Err(WordsRefusal::NoMeaning) => Ok(None),
        Err(WordsRefusal::NoMemory) => Err(AllocError),
    }
}

// The session of a command line, if it asks for one.
fn session_of_line(line: CommandLine) -> Option<AskedSession>
    ensures { MatchOption result (session_in line.request ≡ None)
        (λ asked. (line.names ≡ asked.names) × (session_in line.request ≡ Some asked.session)) }
{
    let CommandLine { names, request } = line;
    match request {
        Request::Session(session) => Some(AskedSession { names, session }),
        Request::One(_) => None,
        Request::Demo { .. } => None,
    }
}
