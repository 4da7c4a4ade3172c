//! Files as a row of disks.
ghost use Rattle.std.specs.Prelude.{◌≡◌, ◌<◌, ◌^◌, ◌↔◌, [], length, map, vec_len, All, MatchOption, IfOk, IfErr, IfSome, IsNone, Contains};
ghost use Rattle.disk_model.specs.Calls.{Completes};
ghost use Rattle.op_queue.specs.Queue.{state_of};
ghost use Rattle.op_queue.specs.QueueInvariant.{IsGood, good_prop};
ghost use Rattle.file_shelf.specs.Sizes.{IsSize, sizes_prop};

use crate::carrier::Carrier;
use crate::image::{Access, Image, ImageFile};
use crate::opening::{OpenFault, open_all};
use disk_model::{Done, Op, Shelf};
use op_queue::{OpQueue, Waiting, disk_of};
use std::alloc::{AllocError, Global};
use std::fs::{Files, OpenFile};
use std::io::Eprint;
use std::os::unix::fs::FileExt;
use std::time::Clock;

/// Open files as a row of disks of whole 512-byte sectors. It tells no content.
///
/// Every operation in flight is ready, and the oldest completes when one is asked to. It is carried out then, and with it the
/// next ones, by one call of the system, as long as they read, or write, what lies right behind on the same disk, up to 64 KiB;
/// these complete in their turn. Where such a call fails, each of them is carried out alone. A fault of the file is a completion
/// that did not go well, and counts as a fault of that disk. A flush syncs the file.
#[derive(Drop)]
pub struct FileShelf<F> {
    images: Vec<Image<F>>,
    queue: OpQueue,
    carrier: Carrier,
    ghost good: { IsGood queue } by { good_prop queue },
    ghost sizes: { All IsSize (state_of queue).sizes } by { sizes_prop (state_of queue).sizes },
    ghost each: { vec_len images ≡ length (state_of queue).sizes },
}

// The size of each disk in sectors.
fn sizes_of<F>(alloc: Global, images: &Vec<Image<F>>) -> Result<Vec<u64>, AllocError>
    ensures { IfOk result (λ sizes. sizes.items ≡ map (λ image. image.sectors) images.now.items) }
{
    images.iter().map(|image| image.sectors).collect(alloc)
}

// The oldest operation completes, if there is one.
fn complete_oldest<F: FileExt + OpenFile>(
    queue: &mut OpQueue,
    images: &Vec<Image<F>>,
    carrier: &mut Carrier,
) -> Option<Done>
    requires good { IsGood queue.old }
    requires within { All IsSize (state_of queue.old).sizes }
    requires each { vec_len images.now ≡ length (state_of queue.old).sizes }
    ensures good { IsGood queue.new }
    ensures sizes { (state_of queue.new).sizes ≡ (state_of queue.old).sizes }
    ensures none { IsNone result ↔ ((state_of queue.old).in_flight ≡ []) }
    ensures cases { MatchOption result (state_of queue.new ≡ state_of queue.old) (λ done. Completes (state_of queue.old) done (state_of queue.new)) }
    ensures ready { IfSome result (λ done. Contains (state_of queue.old).ready done.tag) }
{
    if queue.in_flight() == 0 {
        return None;
    }
    carrier.go_ahead(queue, images);
    let Waiting { tag, op } = queue.take(0);
    let pv = disk_of(&op);
    let (op, well) = carrier.carry_out(&images[pv as usize].file, op);
    Some(queue.complete(tag, op, well))
}

impl<F: ImageFile + Drop> FileShelf<F> {
    ghost use Rattle.file_shelf.specs.Opened.{IsOpened, NamesFile};

    /// Opens these files as the disks 0, 1 and so on, to be changed: for reading and writing, and locked for this program alone
    /// until the shelf is dropped. It waits as long as another program has one of them locked, and says so on standard error
    /// where that is longer than a second. The bytes of a file past its last whole sector are left alone.
    ///
    /// # Errors
    ///
    /// `File` with the number of a file that can't be opened so, and why. First each file is opened: an error of the system, no
    /// regular file, or the same file as an earlier one. Then each is locked: an error of the system. Then each is measured: an
    /// error of the system, or fewer than 8 or more than 2^40 whole sectors. In the first and the last step it is the first
    /// file at fault. `NoMemory` where memory is wanting.
    pub fn open<R: Files<File = F> + Clock + Eprint>(
        rt: &R,
        alloc: Global,
        names: &Vec<String>,
    ) -> Result<Self, OpenFault>
        ensures ok { IfOk result (λ shelf. IsOpened (vec_len names.now) (⟦<FileShelf<F> as Shelf>⟧.state shelf)) }
        ensures locked { IfOk result (λ shelf. All (λ image. F.Holds image.file Access.Change) shelf.images.items) }
        ensures file { IfErr result (NamesFile (vec_len names.now)) }
    {
        let images = open_all(rt, alloc, Access::Change, names)?;
        Ok(FileShelf::over(alloc, images)?)
    }

    /// Opens these files as the disks 0, 1 and so on, to be read alone: a write to one of them fails. Others may read them
    /// meanwhile, and none may change them. It waits, as `open` does, for programs that change them.
    ///
    /// # Errors
    ///
    /// As `open`.
    pub fn open_to_read<R: Files<File = F> + Clock + Eprint>(
        rt: &R,
        alloc: Global,
        names: &Vec<String>,
    ) -> Result<Self, OpenFault>
        ensures ok { IfOk result (λ shelf. IsOpened (vec_len names.now) (⟦<FileShelf<F> as Shelf>⟧.state shelf)) }
        ensures locked { IfOk result (λ shelf. All (λ image. F.Holds image.file Access.Read) shelf.images.items) }
        ensures file { IfErr result (NamesFile (vec_len names.now)) }
    {
        let images = open_all(rt, alloc, Access::Read, names)?;
        Ok(FileShelf::over(alloc, images)?)
    }
}

impl<F: FileExt + OpenFile + Drop> FileShelf<F> {
    ghost use Rattle.op_queue.specs.Queue.{opened_state};

    // A row of these files. Only memory can be wanting.
    fn over(alloc: Global, images: Vec<Image<F>>) -> Result<Self, AllocError>
        requires few { vec_len images < 2 ^ 32 }
        requires sizes { All (λ image. IsSize image.sectors) images.items }
        ensures state { IfOk result (λ shelf. state_of shelf.queue ≡ opened_state (map (λ image. image.sectors) images.items)) }
        ensures images { IfOk result (λ shelf. shelf.images ≡ images) }
    {
        let sizes = sizes_of(alloc, &images)?;
        let queue = OpQueue::new(alloc, sizes)?;
        let carrier = Carrier::new(alloc)?;
        Ok(FileShelf {
            images,
            queue,
            carrier,
        })
    }
}

impl<F: FileExt + OpenFile> Shelf for FileShelf<F> {
    ghost use Rattle.op_queue.specs.QueueInvariant.{lawful_of};

    ghost state = { λ shelf. state_of shelf.queue };

    ghost lawful = { λ shelf. lawful_of shelf.queue shelf.good };

    fn count(&self) -> u32 {
        self.queue.count()
    }

    fn sectors(&self, pv: u32) -> u64 {
        self.queue.sectors(pv)
    }

    fn faults(&self, pv: u32) -> u64 {
        self.queue.faults(pv)
    }

    fn steps(&self) -> u64 {
        self.queue.steps()
    }

    fn reserve(&mut self, ops: u64, sectors: u64) -> Result<(), AllocError> {
        self.queue.reserve(ops, sectors)
    }

    fn submit(&mut self, op: Op) -> u64 {
        self.queue.submit(op)
    }

    fn reap(&mut self) -> Option<Done> {
        complete_oldest(&mut self.queue, &self.images, &mut self.carrier)
    }

    fn settle(&mut self) -> Option<Done> {
        complete_oldest(&mut self.queue, &self.images, &mut self.carrier)
    }
}

#[cfg(test)]
mod tests;
