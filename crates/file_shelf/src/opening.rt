//! Opening the files of a row.
ghost use Rattle.std.specs.Prelude.{◌≡◌, ◌<◌, ◌^◌, ◌<ℤ◌, pos, map, IfSome, IfOk, IfErr, All, AllPairs, ◌≢◌, vec_len};
ghost use Rattle.std.specs.BTreeMap.{IsEmpty};
ghost use Rattle.file_shelf.specs.Nodes.{AreNumbered};
ghost use Rattle.file_shelf.specs.Opened.{NamesFile};
ghost use Rattle.file_shelf.specs.Sizes.{IsSize};

use crate::descriptors::hold_standard;
use crate::image::{Access, Image, ImageFile, Node, OpenCause, Unmeasured, measured, open_file};
use crate::locking::lock;
use std::alloc::{AllocError, AllocFailed, Global};
use std::collections::BTreeMap;
use std::fs::Files;
use std::io::Eprint;
use std::time::Clock;
use thiserror::Error;

/// Why the files of a row were not opened.
#[derive(Clone, Copy, Debug, Error)]
pub enum OpenFault {
    #[error("no memory")]
    NoMemory,
    /// The number of the first file that can't be opened as a disk, and why.
    #[error("file {0} can't be opened as a disk: {1}")]
    File(u32, OpenCause),
}

impl From<AllocError> for OpenFault {
    ghost use Rattle.file_shelf.specs.declared.opening.OpenFault.TheVariants.{NoMemory};

    ghost from_gives = { λ _ e. e ≡ NoMemory };

    fn from(_e: AllocError) -> OpenFault {
        OpenFault::NoMemory
    }
}

impl<T: Drop> From<AllocFailed<T>> for OpenFault {
    ghost use Rattle.file_shelf.specs.declared.opening.OpenFault.TheVariants.{NoMemory};

    ghost from_gives = { λ _ e. e ≡ NoMemory };

    fn from(_e: AllocFailed<T>) -> OpenFault {
        OpenFault::NoMemory
    }
}

// Opens the files in the order of their names. Each is another one than those before, and its number stands at its node.
fn open_each<R: Files>(
    rt: &R,
    alloc: Global,
    access: Access,
    names: &Vec<String>,
    numbers: &mut BTreeMap<Node, u32>,
) -> Result<Vec<Unmeasured<R::File>>, OpenFault>
where
    R::File: ImageFile,
    requires few { vec_len names.now < 2 ^ 32 }
    requires empty { IsEmpty numbers.old }
    ensures count { IfOk result (λ files. vec_len files ≡ vec_len names.now) }
    ensures spared { IfOk result (λ files. All (λ opened. IfSome (R.File.raw_fd opened.file) (λ fd. pos 2 <ℤ fd)) files.items) }
    ensures apart { IfOk result (λ files. AllPairs (λ node other. node ≢ other) (map (λ opened. opened.node) files.items)) }
    ensures numbers { IfOk result (λ files. AreNumbered numbers.new (map (λ opened. opened.node) files.items)) }
    ensures file { IfErr result (NamesFile (vec_len names.now)) }
{
    let mut files = Vec::new(alloc);
    for (number, name) in names.iter().enumerate() {
        match open_file(rt, access, name.as_str(), numbers) {
            Ok(opened) => {
                numbers.insert(opened.node, number as u32)?;
                files.push(opened)?;
            }
            Err(cause) => return Err(OpenFault::File(number as u32, cause)),
        }
    }
    Ok(files)
}

// Locks the files in the order of their nodes, so that two programs that name them in two orders don't wait for each other.
fn lock_each<R: Clock + Eprint, F: ImageFile>(
    rt: &R,
    access: Access,
    names: &Vec<String>,
    files: &Vec<Unmeasured<F>>,
    numbers: &BTreeMap<Node, u32>,
) -> Result<(), OpenFault>
    requires count { vec_len files.now ≡ vec_len names.now }
    requires numbers { AreNumbered numbers.now (map (λ opened. opened.node) files.now.items) }
    ensures locked { IfOk result (λ _. All (λ opened. F.Holds opened.file access) files.now.items) }
    ensures file { IfErr result (NamesFile (vec_len names.now)) }
{
    for number in numbers.values() {
        let at = *number as usize;
        if let Err(e) = lock(rt, &files[at].file, access, names[at].as_str()) {
            return Err(OpenFault::File(*number, OpenCause::System(e)));
        }
    }
    Ok(())
}

// Measures the files, all of which are locked, in the order of their names.
fn measure_each<F: ImageFile + Drop>(
    alloc: Global,
    files: Vec<Unmeasured<F>>,
) -> Result<Vec<Image<F>>, OpenFault>
    requires few { vec_len files < 2 ^ 32 }
    requires locked { All (λ opened. (access : Access) × F.Holds opened.file access) files.items }
    ensures files { IfOk result (λ images. map (λ image. image.file) images.items ≡ map (λ opened. opened.file) files.items) }
    ensures nodes { IfOk result (λ images. map (λ image. image.node) images.items ≡ map (λ opened. opened.node) files.items) }
    ensures sizes { IfOk result (λ images. All (λ image. IsSize image.sectors) images.items) }
    ensures file { IfErr result (NamesFile (vec_len files)) }
{
    let mut images = Vec::new(alloc);
    for (number, opened) in files.into_iter().enumerate() {
        match measured(opened) {
            Ok(image) => images.push(image)?,
            Err(cause) => return Err(OpenFault::File(number as u32, cause)),
        }
    }
    Ok(images)
}

/// Opens the files of these names, locks them all, and then measures them. While they are opened the descriptors of closed
/// standard streams are held.
pub fn open_all<R: Files + Clock + Eprint>(
    rt: &R,
    alloc: Global,
    access: Access,
    names: &Vec<String>,
) -> Result<Vec<Image<R::File>>, OpenFault>
where
    R::File: ImageFile,
    ensures count { IfOk result (λ images. vec_len images ≡ vec_len names.now) }
    ensures few { IfOk result (λ images. vec_len images < 2 ^ 32) }
    ensures sizes { IfOk result (λ images. All (λ image. IsSize image.sectors) images.items) }
    ensures spared { IfOk result (λ images. All (λ image. IfSome (R.File.raw_fd image.file) (λ fd. pos 2 <ℤ fd)) images.items) }
    ensures apart { IfOk result (λ images. AllPairs (λ image other. image.node ≢ other.node) images.items) }
    ensures locked { IfOk result (λ images. All (λ image. R.File.Holds image.file access) images.items) }
    ensures file { IfErr result (NamesFile (vec_len names.now)) }
{
    if names.len() > u32::MAX as usize {
        return Err(OpenFault::NoMemory);
    }
    let _held = hold_standard(rt, alloc)?;
    let mut numbers = BTreeMap::new(alloc);
    let files = open_each(rt, alloc, access, names, &mut numbers)?;
    lock_each(rt, access, names, &files, &numbers)?;
    measure_each(alloc, files)
}
