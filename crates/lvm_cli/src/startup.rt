//! The disks of a run, opened as its words want them.
ghost use Rattle.std.specs.Prelude.{◌≡◌, IfOk, IfErr, Some, vec_len};
ghost use Rattle.command_table.specs.Options.{words_of};
ghost use Rattle.lvm_words.specs.CommandLines.{command_line_of};
ghost use Rattle.file_shelf.specs.Opened.{IsOpened, NamesFile};
ghost use Rattle.lvm_cli.specs.Startup.{changes_disks, opening_status};

use command_table::Request;
use disk_model::Shelf;
use file_shelf::{FileShelf, ImageFile, OpenFault};
use lvm_run::{is_built, is_built_session};
use lvm_words::{CommandLine, WordsRefusal, read_command_line};
use std::alloc::{AllocError, Global};
use std::fs::Files;
use std::io::Eprint;
use std::rt::Clock;

/// The exit status for want of memory.
pub const NO_MEMORY: u8 = 2;

/// The exit status of words that have no meaning.
pub const WORDS_REFUSED: u8 = 3;

/// The exit status where what a run needs of the system isn't to be had.
pub const NOT_TO_BE_HAD: u8 = 6;

/// Opens these disks to be changed where the words ask for a command that runs and changes something, or for a session that runs,
/// and else to be read.
pub fn open_images<F: ImageFile + Drop, R: Files<File = F> + Clock + Eprint>(
    rt: &R,
    alloc: Global,
    words: &Vec<String>,
    names: &Vec<String>,
) -> Result<FileShelf<F>, OpenFault>
    ensures ok { IfOk result (λ shelf. IsOpened (vec_len names.now) (⟦<FileShelf<F> as Shelf>⟧.state shelf)) }
    ensures file { IfErr result (NamesFile (vec_len names.now)) }
{
    if changes_disks(alloc, words)? {
        FileShelf::open(rt, alloc, names)
    } else {
        FileShelf::open_to_read(rt, alloc, names)
    }
}

// Whether the words ask for a command that runs and changes something, or for a session that runs.
fn changes_disks(alloc: Global, words: &[String]) -> Result<bool, AllocError>
    ensures { IfOk result (λ changes. changes ≡ changes_disks (command_line_of (words_of words.now))) }
{
    match read_command_line(alloc, words) {
        Ok(line) => Ok(changes_disk(&line)),
        Err(WordsRefusal::NoMeaning) => Ok(false),
        Err(WordsRefusal::NoMemory) => Err(AllocError),
    }
}

// The same of this command line.
fn changes_disk(line: &CommandLine) -> bool
    ensures { result ≡ changes_disks (Some line.now) }
{
    match &line.request {
        Request::One(command) => is_built(command) && command.changes(),
        Request::Session(session) => is_built_session(session),
        Request::Demo { .. } => false,
    }
}

/// Says on standard error which disk can't be opened, and why, and gives the exit status.
pub fn say_fault<R: Eprint>(rt: &R, names: &Vec<String>, fault: OpenFault) -> u8
    requires { NamesFile (vec_len names.now) fault }
    ensures { result ≡ opening_status fault }
{
    match fault {
        OpenFault::NoMemory => NO_MEMORY,
        OpenFault::File(number, cause) => {
            let _ = eprintln!(rt; "cannot open {}", names[number as usize]);
            let _ = eprintln!(rt; "{cause}");
            NOT_TO_BE_HAD
        }
    }
}
