//! The disks that a request takes.
ghost use Rattle.std.specs.Prelude.{◌≡◌, ◌≤◌, ◌<◌, length, All, IfOk, filter_map};
ghost use Rattle.command_table.specs.declared.request.Request.TheVariants.{One};
ghost use Rattle.command_table.specs.Options.{number_named};
ghost use Rattle.disk_use.specs.Taken.{is_new, taken_by};

use command_table::{Command, Request};
use line_answers::DiskNames;
use sector_base::Text;
use std::alloc::{AllocError, Global};
use std::slice::from_ref;

// The numbers of the disks that the request would take, in the order of its words.
pub(crate) fn disks_taken(
    alloc: Global,
    names: &DiskNames,
    request: &Request,
) -> Result<Vec<u32>, AllocError>
    requires { length names.now ≤ 64 }
    ensures taken { IfOk result (λ taken. taken.items ≡ taken_by names.now request.now) }
    ensures within { IfOk result (λ taken. All (λ pv. pv < length names.now) taken.items) }
{
    match request {
        Request::One(command) => numbers_of(alloc, names, command),
        Request::Session(_) | Request::Demo { .. } => Ok(Vec::new(alloc)),
    }
}

// The numbers of the disks that the command would take, in the order of its words.
fn numbers_of(alloc: Global, names: &DiskNames, command: &Command) -> Result<Vec<u32>, AllocError>
    requires { length names.now ≤ 64 }
    ensures taken { IfOk result (λ taken. taken.items ≡ taken_by names.now (One command.now)) }
    ensures within { IfOk result (λ taken. All (λ pv. pv < length names.now) taken.items) }
{
    match command {
        Command::Pvcreate { pv, .. } => numbers_in(alloc, names, from_ref(pv)),
        Command::Vgcreate { pvs, .. } => numbers_in(alloc, names, pvs.as_slice()),
        Command::Vgextend { pvs, .. } => numbers_in(alloc, names, pvs.as_slice()),
        _ => Ok(Vec::new(alloc)),
    }
}

// The numbers of those of the words that are names of disks.
fn numbers_in(alloc: Global, names: &DiskNames, words: &[Text]) -> Result<Vec<u32>, AllocError>
    requires { length names.now ≤ 64 }
    ensures numbers { IfOk result (λ numbers. numbers.items ≡ filter_map (number_named names.now) words.now) }
    ensures within { IfOk result (λ numbers. All (λ pv. pv < length names.now) numbers.items) }
{
    let mut numbers = Vec::new(alloc);
    for word in words {
        if let Some(pv) = names.number_of(word.as_bytes()) {
            numbers.push(pv)?;
        }
    }
    Ok(numbers)
}

// Whether it makes a physical volume of a disk, whatever stands there.
pub(crate) fn is_new(request: &Request) -> bool
    ensures { result ≡ is_new request.now }
{
    matches!(request, Request::One(Command::Pvcreate { .. }))
}
