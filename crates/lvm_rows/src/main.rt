//! Runs files of rows: disks in memory, the commands that are run on them, and what is expected of each.
//!
//! A row that isn't as expected is named, and the status is then 1.
#![tactic(auto)]

mod commit;
mod differences;
mod failures;
mod images;
mod moments;
mod report;
mod rows;
mod run;
mod shown;
mod versions;

use report::Report;
use row_text::{Stop, rows_of};
use rows::run_rows;
use std::io::{ErrorKind, Print};
use std::process::ExitCode;
use std::rt::{Env, Files};
use std::sync::Wait;
use std::thread::Threads;
use std::{env, fs, io};

/// The exit status for want of memory.
const NO_MEMORY: u8 = 2;

fn main(rt: HostRuntime) -> ExitCode {
    match run_files(&rt) {
        Ok(true) => ExitCode::SUCCESS,
        Ok(false) => ExitCode::FAILURE,
        Err(e) if e.kind() == ErrorKind::OutOfMemory => {
            let _ = println!(&rt; "memory was wanting");
            ExitCode::from(NO_MEMORY)
        }
        Err(_) => ExitCode::FAILURE,
    }
}

// Runs the files that the arguments name. Whether there is one, and all of their rows are as expected.
fn run_files<R: Env + Files + AllocGlobal + Print + Threads + Wait + Sync>(
    rt: &R,
) -> io::Result<bool> {
    let mut some = false;
    let mut well = true;
    for name in env::args(rt)?.skip(1) {
        some = true;
        well &= run_file(rt, name.as_str())?;
    }
    if !some {
        println!(rt; "no file of rows is named")?;
    }
    Ok(some && well)
}

// Runs the file of this name, and prints what its rows come to. Whether all are as expected.
fn run_file<R: Files + AllocGlobal + Print + Threads + Wait + Sync>(
    rt: &R,
    name: &str,
) -> io::Result<bool> {
    let contents = match fs::read_to_string(rt, name) {
        Ok(contents) => contents,
        Err(e) if e.kind() == ErrorKind::OutOfMemory => return Err(e),
        Err(e) => {
            println!(rt; "{name}: can't be read: {e}")?;
            return Ok(false);
        }
    };
    let report = match report_of(rt, contents.as_str()) {
        Ok(report) => report,
        Err(Stop::NoMemory) => return Err(io::Error::from(ErrorKind::OutOfMemory)),
        Err(Stop::Failed(failure)) => {
            println!(rt; "{name}:{}: {}", failure.line, failure.what)?;
            return Ok(false);
        }
    };
    for failure in report.failures.iter() {
        println!(rt; "{name}:{}: {}", failure.line, failure.what)?;
    }
    let failed = report.failures.len();
    println!(rt; "{name}: {} rows, {failed} failed", report.rows)?;
    Ok(failed == 0)
}

// What the rows of a file come to that has these contents.
fn report_of<R: AllocGlobal + Threads + Wait + Sync>(
    rt: &R,
    contents: &str,
) -> Result<Report, Stop> {
    let rows = rows_of(rt.alloc(), contents)?;
    run_rows(rt, rt.alloc(), &rows)
}
