//! The file of one disk: opened, locked and measured.
ghost use Rattle.std.specs.Prelude.{◌≡◌, ◌<ℤ◌, pos, IfOk, IfSome, None};
ghost use Rattle.std.specs.BTreeMap.{get};
ghost use Rattle.file_shelf.specs.Nodes.{node_cmp};
ghost use Rattle.file_shelf.specs.Sizes.{IsSize};

use crate::descriptors::is_spared;
use crate::sizes::size_of_disk;
use std::collections::BTreeMap;
use std::fs::{File, Files, Metadata, OpenFile, OpenOptions, TryLockError};
use std::os::fd::AsRawFd;
use std::os::unix::fs::{FileExt, MetadataExt};
use std::{fs, io};
use thiserror::Error;

/// A file that can be the file of a disk. Its lock lasts until the file is closed.
pub trait ImageFile: FileExt + OpenFile + AsRawFd {
    ghost use Rattle.file_shelf.specs.declared.image.Access.{Access};

    /// It was locked as this access wants.
    ghost Holds: { Self → Access → Type 0 };

    /// Locks it for this program alone, unless another open file has it locked.
    fn try_lock(&self) -> Result<(), TryLockError>
        ensures { IfOk result (λ _. Holds self.now Access.Change) };

    /// Locks it so that others can only lock it in this way too, unless another open file has it locked for itself alone.
    fn try_lock_shared(&self) -> Result<(), TryLockError>
        ensures { IfOk result (λ _. Holds self.now Access.Read) };

    /// Locks it for this program alone, once no other open file has it locked.
    fn lock(&self) -> io::Result<()>
        ensures { IfOk result (λ _. Holds self.now Access.Change) };

    /// Locks it so that others can only lock it in this way too, once no other open file has it locked for itself alone.
    fn lock_shared(&self) -> io::Result<()>
        ensures { IfOk result (λ _. Holds self.now Access.Read) };
}

// What the system does is trusted: each call that is well has locked the file.
impl ImageFile for File {
    ghost Holds = { λ _ _. Unit {0} };

    fn try_lock(&self) -> Result<(), TryLockError> {
        File::try_lock(self)
    }

    fn try_lock_shared(&self) -> Result<(), TryLockError> {
        File::try_lock_shared(self)
    }

    fn lock(&self) -> io::Result<()> {
        File::lock(self)
    }

    fn lock_shared(&self) -> io::Result<()> {
        File::lock_shared(self)
    }
}

/// What a run does with its disks.
#[derive(Clone, Copy, Debug, PartialEq, Eq)]
pub enum Access {
    /// It reads them, and others may read them meanwhile.
    Read,
    /// It changes them, and nobody else may use them meanwhile.
    Change,
}

/// Why a file can't be opened as a disk.
#[derive(Clone, Copy, Debug, Error)]
pub enum OpenCause {
    /// An error of the system.
    #[error("{0}")]
    System(io::Error),
    /// It is a directory, a device, a pipe or a socket.
    #[error("not a regular file")]
    NotRegular,
    /// An earlier name of the same run reaches the same file.
    #[error("the same file is named twice")]
    NamedTwice,
    /// It has so many whole sectors of 512 bytes, fewer than 8.
    #[error("too small: {0} sectors of 512 bytes, and a disk has at least 8")]
    FewSectors(u64),
    /// It has so many whole sectors of 512 bytes, more than 2^40.
    #[error("too large: {0} sectors of 512 bytes, and a disk has at most 2^40")]
    ManySectors(u64),
    /// It got the descriptor of a standard stream that is closed.
    #[error("a standard stream is closed, and its number can't be kept from the file")]
    StandardStream,
}

impl From<io::Error> for OpenCause {
    ghost use Rattle.std.specs.Prelude.{◌≡◌};
    ghost use Rattle.file_shelf.specs.declared.image.OpenCause.TheVariants.{System};

    ghost from_gives = { λ e cause. cause ≡ System e };

    fn from(e: io::Error) -> OpenCause {
        OpenCause::System(e)
    }
}

/// Which file of the system it is: two names reach the same file exactly where their files have the same node.
#[derive(Clone, Copy, Debug, PartialEq, Eq, PartialOrd, Ord)]
pub struct Node {
    pub device: u64,
    pub inode: u64,
}

/// The file of a disk that is open, with its node. Its size isn't known yet.
#[derive(Debug, Drop)]
pub struct Unmeasured<F> {
    pub file: F,
    pub node: Node,
}

/// The file of a disk: locked, with its node and its size in sectors.
#[derive(Debug, Drop)]
pub struct Image<F> {
    pub file: F,
    pub node: Node,
    pub sectors: u64,
}

// The node of a regular file.
fn node_of(metadata: &Metadata) -> Result<Node, OpenCause> {
    if metadata.is_file() {
        Ok(Node {
            device: metadata.dev(),
            inode: metadata.ino(),
        })
    } else {
        Err(OpenCause::NotRegular)
    }
}

// Opens the file. What isn't a regular file isn't opened, since to open a pipe or a device may wait or do something.
fn open_regular<R: Files>(rt: &R, access: Access, name: &str) -> Result<R::File, OpenCause>
where
    R::File: AsRawFd,
    ensures { IfOk result (λ file. IfSome (R.File.raw_fd file) (λ fd. pos 2 <ℤ fd)) }
{
    node_of(&fs::metadata(rt, name)?)?;
    let file = OpenOptions::new()
        .read(true)
        .write(access == Access::Change)
        .open(rt, name)?;
    if is_spared(file.as_raw_fd()) {
        Ok(file)
    } else {
        Err(OpenCause::StandardStream)
    }
}

/// Opens the file of a disk, which is none of those with a number.
pub fn open_file<R: Files>(
    rt: &R,
    access: Access,
    name: &str,
    numbers: &BTreeMap<Node, u32>,
) -> Result<Unmeasured<R::File>, OpenCause>
where
    R::File: ImageFile,
    ensures spared { IfOk result (λ opened. IfSome (R.File.raw_fd opened.file) (λ fd. pos 2 <ℤ fd)) }
    ensures other { IfOk result (λ opened. get node_cmp numbers.now opened.node ≡ None) }
{
    let file = open_regular(rt, access, name)?;
    let node = node_of(&file.metadata()?)?;
    if numbers.contains_key(&node) {
        Err(OpenCause::NamedTwice)
    } else {
        Ok(Unmeasured { file, node })
    }
}

/// The file with its size, which is asked for once it is locked: until then another may change it.
pub fn measured<F: ImageFile + Drop>(opened: Unmeasured<F>) -> Result<Image<F>, OpenCause>
    requires locked { (access : Access) × F.Holds opened.file access }
    ensures file { IfOk result (λ image. image.file ≡ opened.file) }
    ensures node { IfOk result (λ image. image.node ≡ opened.node) }
    ensures size { IfOk result (λ image. IsSize image.sectors) }
{
    let Unmeasured { file, node } = opened;
    let sectors = size_of_disk(file.metadata()?.len())?;
    Ok(Image {
        file,
        node,
        sectors,
    })
}
