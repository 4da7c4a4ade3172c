//! What a command line asks for, with what its line draws.
ghost use Rattle.std.specs.Prelude.{◌≡◌, None, Some, IfOk, OnErr, IsErrOf};
ghost use Rattle.command_table.specs.Options.{words_of};
ghost use Rattle.lvm_script.specs.Lines.{TakesId};
ghost use Rattle.lvm_words.specs.CommandLines.{HasId, command_line_of, draws_id, line_in, request_in, task_of};
ghost use Rattle.lvm_words.specs.declared.command_line.CommandLine.{CommandLine as CommandLineRecord};

use crate::{CommandLine, WordsRefusal, read_command_line};
use command_table::{Request, Session};
use line_answers::DiskNames;
use lvm_id::Words64;
use lvm_script::Line;
use std::alloc::Global;

/// What a run is to do.
#[derive(Debug, Drop)]
pub enum Task {
    /// One command, which is line 1.
    One(Line),
    /// A session, whose script comes from the source.
    Session(Session),
    /// The demo with this seed, so many lines, 1 to 4,096, and so many workers, 1 to 8.
    Demo { seed: u64, lines: u64, workers: u32 },
}

/// What a command line asks for.
#[derive(Debug, Drop)]
pub struct Asked {
    /// The names of the disks, 1 to 64.
    pub names: DiskNames,
    pub task: Task,
}

/// What these words ask for. It draws the next four numbers of `ids` where they are a command that draws an id.
///
/// # Errors
///
/// `NoMemory` where memory is wanting, and else `NoMeaning` exactly where the words have no meaning. After both no number of
/// `ids` was drawn.
pub fn read_words<N: Words64>(
    alloc: Global,
    words: &[String],
    ids: &mut N,
) -> Result<Asked, WordsRefusal>
    ensures line { IfOk result (λ asked. command_line_of (words_of words.now) ≡ Some (line_in asked)) }
    ensures task { IfOk result (λ asked. asked.task ≡ task_of (request_in asked.task) (N.upcoming ids.old)) }
    ensures valid { IfOk result (λ asked. HasId asked.task) }
    ensures drawn { IfOk result (λ asked. TakesId (draws_id (request_in asked.task)) (N.upcoming ids.old) (N.upcoming ids.new)) }
    ensures undrawn { OnErr result (N.upcoming ids.new ≡ N.upcoming ids.old) }
    ensures no_meaning { IsErrOf result WordsRefusal.NoMeaning → command_line_of (words_of words.now) ≡ None }
{
    let CommandLine { names, request } = read_command_line(alloc, words)?;
    Ok(Asked {
        names,
        task: Task::new(request, ids),
    })
}

impl Task {
    // The task that is asked for.
    fn new<N: Words64>(request: Request, ids: &mut N) -> Self
        ensures task { result ≡ task_of request (N.upcoming ids.old) }
        ensures request { request_in result ≡ request }
        ensures valid { HasId result }
        ensures drawn { TakesId (draws_id request) (N.upcoming ids.old) (N.upcoming ids.new) }
    {
        match request {
            Request::One(command) => Task::One(Line::new(1, command, ids)),
            Request::Session(session) => Task::Session(session),
            Request::Demo {
                seed,
                lines,
                workers,
            } => Task::Demo {
                seed,
                lines,
                workers,
            },
        }
    }
}
