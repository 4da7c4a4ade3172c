//! What a command line or a line of a script asks for.
ghost use Rattle.std.specs.Prelude.{◌≡◌, IfSome};
ghost use Rattle.lvm_id.specs.LvmId.{IsId};
ghost use Rattle.command_table.specs.Commands.{draws};
ghost use Rattle.lvm_script.specs.Lines.{TakesId, line_of, with_text};

use command_table::Command;
use lvm_id::{LvmId, Words64};
use sector_base::Text;

/// A command with what it has as a line.
#[derive(Debug, Drop)]
pub struct Line {
    /// The number of the line, from 1. A single command is line 1.
    pub number: u64,
    /// The id of what it creates, where its command draws one.
    pub id: Option<LvmId>,
    pub command: Command,
}

impl Line {
    /// The line with this number and command. It draws the next four numbers of `ids` where the command draws an id.
    pub fn new<N: Words64>(number: u64, command: Command, ids: &mut N) -> Self
        ensures line { result ≡ line_of number command (N.upcoming ids.old) }
        ensures valid { IfSome result.id IsId }
        ensures drawn { TakesId (draws command) (N.upcoming ids.old) (N.upcoming ids.new) }
    {
        let mut line = Line {
            number,
            id: None,
            command,
        };
        line.draw_id(ids);
        line
    }

    // Draws the id of what the line creates, where its command draws one.
    pub(crate) fn draw_id<N: Words64>(&mut self, ids: &mut N)
        ensures line { self.new ≡ line_of self.old.number self.old.command (N.upcoming ids.old) }
        ensures valid { IfSome self.new.id IsId }
        ensures drawn { TakesId (draws self.old.command) (N.upcoming ids.old) (N.upcoming ids.new) }
    {
        self.id = if self.command.draws() {
            Some(LvmId::from_words(ids))
        } else {
            None
        };
    }

    /// The line with this text, where it restores a group from one; every other line as it is.
    pub fn with_text(self, text: Text) -> Self
        ensures { result ≡ with_text text self }
    {
        let Line {
            number,
            id,
            command,
        } = self;
        let command = match command {
            Command::Vgcfgrestore { vg, text: _ } => Command::Vgcfgrestore { vg, text },
            other => other,
        };
        Line {
            number,
            id,
            command,
        }
    }
}
