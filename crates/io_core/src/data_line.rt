//! Lines that a world runs.
ghost use Rattle.std.specs.Prelude.{◌≡◌, MatchResult, true, false};
ghost use Rattle.data_lines.specs.DataLines.{runs_beside};

use command_table::Command;
use lvm_script::Line;
use std::marker::Model;

/// A line that reads, writes or flushes a volume, lists the volumes, or waits for all lines before it. Contracts see it as the line.
#[derive(Debug, Drop)]
pub struct DataLine {
    line: Line,
}

impl Model for DataLine {
    ghost use Rattle.std.specs.Prelude.{◌≡◌, true};
    ghost use Rattle.lvm_script.specs.declared.line.Line.{Line};
    ghost use Rattle.data_lines.specs.DataLines.{runs_beside};

    ghost Value = { Line };

    ghost view = { λ d. d.line };

    ghost invariant = { λ d. runs_beside d.line.command ≡ true };
}

/// Whether the command is one of those that a world runs beside others.
pub fn runs_beside(command: &Command) -> bool
    ensures { result ≡ runs_beside command.now }
{
    matches!(
        command,
        Command::List
            | Command::Wait
            | Command::Read { .. }
            | Command::Fill { .. }
            | Command::Write { .. }
            | Command::Flush { .. }
    )
}

impl DataLine {
    /// The line, which comes back where a world doesn't run it.
    pub fn new(line: Line) -> Result<Self, Line>
        ensures { MatchResult result (λ own. (own ≡ line) × (runs_beside line.command ≡ true)) (λ back. (back ≡ line) × (runs_beside line.command ≡ false)) }
    {
        if runs_beside(&line.command) {
            Ok(DataLine { line })
        } else {
            Err(line)
        }
    }

    /// The line.
    pub fn line(&self) -> &Line
        ensures line { result.now ≡ self.now }
        ensures beside { runs_beside result.now.command ≡ true }
    {
        &self.line
    }

    /// The line by value.
    pub fn into_line(self) -> Line
        ensures line { result ≡ self }
        ensures beside { runs_beside result.command ≡ true }
    {
        self.line
    }
}
