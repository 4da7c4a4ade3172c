//! The commands that are built.
ghost use Rattle.std.specs.Prelude.{◌≡◌};
ghost use Rattle.lvm_run.specs.Commands.{is_built};
ghost use Rattle.lvm_run.specs.Sessions.{is_built_session};

use command_table::{Command, Session};

/// Which commands run so far, as it is told to a user.
pub const BUILT: &str =
    "So far pvs, vgs, lvs, vgck, pvck, vgcfgbackup, vgcfgrestore, pvcreate, vgcreate, vgextend, vgreduce, vgremove, vgrename, lvcreate, lvextend, lvreduce, lvremove, lvrename and session --workers 1 run.\n";

/// Whether the command is built. Words that ask for another are refused until it is.
pub fn is_built(command: &Command) -> bool
    ensures { result ≡ is_built command.now }
{
    !matches!(
        command,
        Command::Pvmove(_)
            | Command::Read { .. }
            | Command::Fill { .. }
            | Command::Write { .. }
            | Command::Flush { .. }
            | Command::List
            | Command::Wait
            | Command::Resync { .. }
    )
}

/// Whether the session is one of those that are built.
pub fn is_built_session(session: &Session) -> bool
    ensures { result ≡ is_built_session session.now }
{
    session.workers == 1 && !session.disk_threads && !session.status
}
