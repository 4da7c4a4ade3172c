//! The command after the pairs.
ghost use Rattle.std.specs.Prelude.{◌≡◌, None, Some, IfOk, IsErrOf};
ghost use Rattle.command_table.specs.Options.{words_of};
ghost use Rattle.lvm_words.specs.CommandLines.{command_line_of};

use crate::WordsRefusal;
use crate::disks::disks_front;
use crate::request::request_of_words;
use command_table::Request;
use line_answers::DiskNames;
use std::alloc::Global;

/// The names of the disks, and what is asked for.
#[derive(Debug, Drop)]
pub struct CommandLine {
    pub names: DiskNames,
    pub request: Request,
}

/// What these words ask for, and of which disks.
///
/// # Errors
///
/// `NoMemory` where memory is wanting, and else `NoMeaning` exactly where the words have no meaning.
pub fn read_command_line(alloc: Global, words: &[String]) -> Result<CommandLine, WordsRefusal>
    ensures ok { IfOk result (λ line. command_line_of (words_of words.now) ≡ Some line) }
    ensures no_meaning { IsErrOf result WordsRefusal.NoMeaning → command_line_of (words_of words.now) ≡ None }
{
    let (names, rest) = disks_front(alloc, words)?;
    match request_of_words(alloc, rest)? {
        Some(request) => Ok(CommandLine {
            names: DiskNames::from_vec(names),
            request,
        }),
        None => Err(WordsRefusal::NoMeaning),
    }
}
