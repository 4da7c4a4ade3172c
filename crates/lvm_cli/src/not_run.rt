//! What is said where nothing ran.
ghost use Rattle.std.specs.Prelude.{◌≡◌, length};
ghost use Rattle.lvm_run.specs.Guarded.{NamesOne};
ghost use Rattle.lvm_cli.specs.NotRun.{status_not_run};

use crate::startup::{NO_MEMORY, NOT_TO_BE_HAD};
use disk_use::{Use, UseRefusal};
use lvm_run::NotRun;
use std::io::Eprint;

/// The exit status where a disk is in use.
const REFUSED: u8 = 5;

/// Says on standard error in one line why nothing ran, where the disks have these names, and gives the exit status.
pub fn say_not_run<R: Eprint>(rt: &R, names: &[String], why: NotRun) -> u8
    requires { NamesOne (length names.now) why }
    ensures { result ≡ status_not_run why }
{
    match why {
        NotRun::InUse(used) => {
            say_used(rt, names[used.pv as usize].as_str(), used.by);
            REFUSED
        }
        NotRun::Untold(UseRefusal::ReadFailed(pv)) => {
            let name = names
                .get(pv as usize)
                .map_or("a disk", |name| name.as_str());
            let _ = eprintln!(rt; "cannot read {name}");
            NOT_TO_BE_HAD
        }
        NotRun::Untold(UseRefusal::NoMemory) => NO_MEMORY,
    }
}

// Says what the disk of this name is in use by.
fn say_used<R: Eprint>(rt: &R, name: &str, by: Use) {
    let _ = match by {
        Use::Group => eprintln!(rt;
            "{name} is used by a volume group that isn't on the disks named (name all of its disks, or put --force first)"
        ),
        Use::Header => eprintln!(rt;
            "{name} has an LVM2 label whose header can't be read (put --force first to overwrite it)"
        ),
        Use::Signature(kind) => eprintln!(rt;
            "{name} has the signature of {} (put --force first to overwrite it)",
            kind.name()
        ),
    };
}
