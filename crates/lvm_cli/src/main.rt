//! `lvm`, a volume manager over disk images in lvm2's own on-disk format.
//!
//! `main` makes the real files, clock and streams, and calls `guarded_run` (`lvm_run`), which is all that the program does.
#![tactic(auto)]

ghost use Rattle.std.specs.Prelude.{◌≡◌, List, Some, IfOk};
ghost use Rattle.command_table.specs.Options.{Word, words_of};
ghost use Rattle.lvm_words.specs.Disks.{disks_named};

mod arguments;
mod force;
mod not_run;
mod seed;
mod startup;
mod usage;

use arguments::arguments;
use file_shelf::{StdSink, StdSource};
use force::take_force;
use line_answers::DiskNames;
use lvm_run::guarded_run;
use lvm_words::{WordsRefusal, disk_names};
use not_run::say_not_run;
use seed::{ids_of_system, seconds, since_1970};
use startup::{NO_MEMORY, NOT_TO_BE_HAD, WORDS_REFUSED, open_images, say_fault};
use std::alloc::{AllocError, Global};
use std::io::Eprint;
use std::process::ExitCode;
use table_lock::OpenGate;
use usage::usage_text;

fn main(rt: HostRuntime) -> ExitCode {
    let since = since_1970(&rt);
    let Some(mut ids) = ids_of_system(&rt, since) else {
        let _ = eprintln!(rt; "neither random numbers nor a clock to draw ids from");
        return ExitCode::from(NOT_TO_BE_HAD);
    };
    let Ok(mut words) = arguments(&rt) else {
        return ExitCode::from(NO_MEMORY);
    };
    let forced = take_force(&mut words);
    let Ok(names) = named_disks(rt.alloc(), &words) else {
        return ExitCode::from(NO_MEMORY);
    };
    let names = names.as_vec();
    let shelf = match open_images(&rt, rt.alloc(), &words, names) {
        Ok(shelf) => shelf,
        Err(fault) => return ExitCode::from(say_fault(&rt, names, fault)),
    };
    let mut script = StdSource::new(&rt);
    let mut out = StdSink::new(&rt);
    let ended = guarded_run(
        &rt,
        rt.alloc(),
        forced,
        &words,
        &mut script,
        &mut out,
        shelf,
        &mut ids,
        seconds(since),
        &OpenGate,
    );
    match ended {
        Ok(ended) => {
            if ended.status == WORDS_REFUSED {
                say_usage(&rt, rt.alloc(), &words);
            }
            ExitCode::from(ended.status)
        }
        Err((why, _)) => ExitCode::from(say_not_run(&rt, names, why)),
    }
}

// Says on standard error which word is at fault, and how the command is used.
fn say_usage<R: Eprint>(rt: &R, alloc: Global, words: &[String]) {
    if let Ok(text) = usage_text(alloc, words) {
        let _ = eprint!(rt; "{text}");
    }
}

// The disks that the words name, none where they name none.
fn named_disks(alloc: Global, words: &[String]) -> Result<DiskNames, AllocError>
    ensures { IfOk result (λ names. (named : List Word) → disks_named (words_of words.now) ≡ Some named → named ≡ names) }
{
    match disk_names(alloc, words) {
        Ok(names) => Ok(names),
        Err(WordsRefusal::NoMeaning) => Ok(DiskNames::from_vec(Vec::new(alloc))),
        Err(WordsRefusal::NoMemory) => Err(AllocError),
    }
}
