//! What is wrong with words that have no meaning.
ghost use Rattle.std.specs.Prelude.{IfOk};
ghost use Rattle.command_table.specs.Options.{words_of};
ghost use Rattle.command_table.specs.Meaning.{meaning_of_words};
ghost use Rattle.lvm_words.specs.CommandLines.{IsCommandFault, IsFaultOf};
ghost use Rattle.lvm_words.specs.Disks.{disks_front};

use crate::WordsRefusal;
use crate::disks::disks_front;
use command_table::LineFault;
use lvm_script::{LineRefusal, read_request};
use std::alloc::{AllocError, Global};

/// What is wrong with the words of a command line.
#[derive(Clone, Copy, Debug, PartialEq, Eq)]
pub enum WordsFault {
    /// They don't name 1 to 64 disks at their front.
    Disks,
    /// The first fault of the words after the pairs, and the place of the faulty word among these, from 0.
    Command(LineFault, u64),
}

/// What is wrong with these words, nothing where they have a meaning. Only memory can be wanting.
pub fn fault_of_command_line(
    alloc: Global,
    words: &[String],
) -> Result<Option<WordsFault>, AllocError>
    ensures { IfOk result (IsFaultOf (disks_front (words_of words.now))) }
{
    match disks_front(alloc, words) {
        Ok((_, rest)) => command_fault(alloc, rest),
        Err(WordsRefusal::NoMeaning) => Ok(Some(WordsFault::Disks)),
        Err(WordsRefusal::NoMemory) => Err(AllocError),
    }
}

// What is wrong with the words after the pairs.
fn command_fault(alloc: Global, words: &[String]) -> Result<Option<WordsFault>, AllocError>
    ensures { IfOk result (IsCommandFault (meaning_of_words (words_of words.now))) }
{
    match read_request(alloc, words) {
        Ok(_) => Ok(None),
        Err(LineRefusal::Refused(fault, place)) => Ok(Some(WordsFault::Command(fault, place))),
        Err(LineRefusal::NoMemory) => Err(AllocError),
    }
}
