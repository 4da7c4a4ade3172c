//! One run of the program's words.
ghost use Rattle.std.specs.Prelude.{All, IfOk, IfSome, IsTrue};
ghost use Rattle.command_table.specs.Options.{words_of};
ghost use Rattle.lvm_run.specs.Disks.{HasDisks};
ghost use Rattle.lvm_rows.specs.Named.{AreNamed, IsSized};

use byte_streams::{MemSink, MemSource};
use dev_shelf::{Fail, Images, MemShelf, Shelf, ShelfPlan};
use lvm_id::MemWords;
use lvm_run::{Ended, lvm_run};
use lvm_words::{WordsRefusal, disk_names};
use row_text::{Run, Stop, failed};
use std::alloc::{AllocError, Global};
use std::sync::Wait;
use std::thread::Threads;
use table_lock::OpenGate;

/// How many bytes a run may print.
const ROOM: usize = 1 << 18;

/// The last second that a run can be given.
const LAST_SECOND: u64 = (1 << 48) - 1;

/// A run that has ended: how, what it wrote, and the source that it read from.
#[derive(Drop)]
pub struct EndedRun {
    pub ended: Ended<MemShelf>,
    pub out: MemSink,
    pub source: MemSource,
}

/// Runs the words on these disks. One more operation is to fail, where one is given.
pub fn run<T: Threads + Wait + Sync>(
    rt: &T,
    alloc: Global,
    run: &Run,
    images: Images,
    failing: Option<Fail>,
) -> Result<EndedRun, Stop> {
    let Some(shelf) = shelf_for(alloc, run, images, failing)? else {
        return Err(failed(alloc, run.line, "the words name other disks than there are"));
    };
    let settings = &run.settings;
    let input = Vec::from_slice(alloc, &settings.input)?;
    let mut source = MemSource::new(input, Vec::from_slice(alloc, &settings.read_fails)?);
    let mut out = MemSink::new(alloc, ROOM, Vec::from_slice(alloc, &settings.write_fails)?)?;
    let mut ids = MemWords::new(Vec::from_slice(alloc, &settings.ids)?);
    let now = settings.time.min(LAST_SECOND);
    let ended = lvm_run(
        rt,
        alloc,
        false,
        &run.words,
        &mut source,
        &mut out,
        shelf,
        &mut ids,
        now,
        &OpenGate,
    );
    Ok(EndedRun { ended, out, source })
}

// A shelf of these disks with the run's plan, if the run's words name so many, or none.
fn shelf_for(
    alloc: Global,
    run: &Run,
    images: Images,
    failing: Option<Fail>,
) -> Result<Option<MemShelf>, Stop>
    ensures { IfOk result (λ found. IfSome found (λ shelf. HasDisks (words_of run.now.words.items) (⟦<MemShelf as Shelf>⟧.state shelf))) }
{
    if images.len() > 64 || !are_named(alloc, &run.words, &images)? {
        return Ok(None);
    }
    let mut fails = Vec::new(alloc);
    if let Some(failing) = failing {
        fails.push(failing)?;
    }
    fails.extend_from_slice(&run.settings.fails)?;
    let plan = ShelfPlan {
        picks: Vec::from_slice(alloc, &run.settings.picks)?,
        fails,
        holds: Vec::from_slice(alloc, &run.settings.holds)?,
        limit: run.settings.limit,
    };
    Ok(Some(MemShelf::new(alloc, images, plan)?))
}

// Whether the words name as many disks as there are, each of them large enough, or none.
fn are_named(alloc: Global, words: &[String], images: &Images) -> Result<bool, AllocError>
    ensures { IfOk result (λ are. IsTrue are → AreNamed (words_of words.now) images.now) }
{
    match disk_names(alloc, words) {
        Ok(names) => Ok(names.len() == images.len() && are_sized(images)),
        Err(WordsRefusal::NoMeaning) => Ok(true),
        Err(WordsRefusal::NoMemory) => Err(AllocError),
    }
}

// Whether each disk has 8 to 2^40 sectors.
fn are_sized(images: &Images) -> bool
    ensures { IsTrue result → All IsSized images.now }
{
    images
        .as_slice()
        .iter()
        .all(|disk| (8..=1 << 40).contains(&disk.len()))
}
