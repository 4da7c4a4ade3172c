//! Reads the manual of the commands on standard input, and prints in what its tables and the table of commands disagree.
//! The status is then 1.
#![tactic(auto)]

ghost use Rattle.std.specs.Prelude.{◌≡◌, IfOk};
ghost use Rattle.commands_manual.specs.Rows.{agrees};

mod tables;
mod wanted;

use std::io;
use std::process::ExitCode;
use tables::{missing, rows_of, unknown};
use wanted::{call_rows, command_rows, option_rows};

fn main(rt: HostRuntime) -> io::Result<ExitCode> {
    let manual = io::read_to_string(rt.alloc(), rt.reader())?;
    let commands = rows_of(rt.alloc(), manual.as_str(), "\n## The table of commands\n")?;
    let options = rows_of(rt.alloc(), manual.as_str(), "\n## Options\n")?;
    let calls = rows_of(rt.alloc(), manual.as_str(), "\n## Words for other calls\n")?;
    let commands_agree = agrees(&rt, &command_rows(rt.alloc())?, &commands)?;
    let options_agree = agrees(&rt, &option_rows(rt.alloc())?, &options)?;
    let calls_agree = agrees(&rt, &call_rows(rt.alloc())?, &calls)?;
    if commands_agree && options_agree && calls_agree {
        println!(rt; "the manual agrees with the tables of commands")?;
        Ok(ExitCode::SUCCESS)
    } else {
        Ok(ExitCode::FAILURE)
    }
}

// Whether the rows are those that are wanted, each once. What isn't so is printed.
fn agrees(rt: &HostRuntime, wanted: &[String], rows: &[&str]) -> io::Result<bool>
    ensures { IfOk result (λ agree. agree ≡ agrees wanted.now rows.now) }
{
    let missing = missing(rt.alloc(), wanted, rows)?;
    for row in missing.iter() {
        println!(rt; "must stand once: {row}")?;
    }
    let unknown = unknown(rt.alloc(), wanted, rows)?;
    for row in unknown.iter() {
        println!(rt; "must not stand:  {row}")?;
    }
    Ok(missing.is_empty() && unknown.is_empty())
}
