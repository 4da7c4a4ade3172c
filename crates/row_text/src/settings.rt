//! The lines that say what holds for one run.
use crate::line::first_word;
use crate::row::{DiskPlan, Settings, disk_named};
use crate::stop::{Stop, failed, failed_at};
use crate::texts::Texts;
use crate::values::{number, number32, numbers, place, quoted, unescaped};
use dev_shelf::{Fail, Hold};
use std::alloc::Global;

/// The first second that no run can be given.
const TIME_END: u64 = 1 << 48;

/// Whether the word begins a line of this kind.
pub fn is_setting(word: &str) -> bool {
    matches!(
        word.as_bytes(),
        b"ids" | b"time" | b"picks" | b"fail" | b"hold" | b"limit" | b"input" | b"source" | b"sink"
    )
}

impl Settings {
    /// Reads such a line.
    pub fn read(
        &mut self,
        alloc: Global,
        texts: &Texts,
        disks: &[DiskPlan],
        line: usize,
        word: &str,
        rest: &str,
    ) -> Result<(), Stop> {
        match word {
            "ids" => self.ids = numbers(alloc, line, rest)?,
            "time" => self.time = time(alloc, line, rest)?,
            "picks" => self.picks = numbers(alloc, line, rest)?,
            "fail" => self.fails.push(fail(alloc, line, rest)?)?,
            "hold" => self.holds.push(hold(alloc, disks, line, rest)?)?,
            "limit" => self.limit = number(alloc, line, rest)?,
            "input" => self.read_input(alloc, texts, line, rest)?,
            "source" => self.read_fails.push(fails(alloc, line, rest)?)?,
            "sink" => self.write_fails.push(fails(alloc, line, rest)?)?,
            _ => return Err(failed_at(alloc, line, "no setting", word)),
        }
        Ok(())
    }

    /// Adds a line to the input, behind `<`.
    pub fn read_input_line(&mut self, alloc: Global, line: usize, text: &str) -> Result<(), Stop> {
        self.input
            .extend_from_slice(&stream_line(alloc, line, text)?)?;
        Ok(())
    }

    // Adds a text to the input, or so many times one byte.
    fn read_input(
        &mut self,
        alloc: Global,
        texts: &Texts,
        line: usize,
        rest: &str,
    ) -> Result<(), Stop> {
        let (name, more) = first_word(rest);
        let Some(text) = more.strip_prefix("bytes ") else {
            return texts.append(alloc, line, name, &mut self.input);
        };
        let count = place(alloc, line, name)?;
        match quoted(alloc, line, text)?.as_slice() {
            [byte] => {
                let bytes = vec![in alloc; *byte; count]?;
                self.input.extend_from_slice(&bytes)?;
                Ok(())
            }
            _ => Err(failed(alloc, line, "one byte is repeated")),
        }
    }
}

/// The line of a stream that stands behind its sign: with its newline behind a blank, and without behind a bar.
pub fn stream_line(alloc: Global, line: usize, text: &str) -> Result<Vec<u8>, Stop> {
    if text == "|" {
        return Ok(Vec::new(alloc));
    }
    if let Some(text) = text.strip_prefix("| ") {
        return unescaped(alloc, line, text);
    }
    let mut bytes = match text.strip_prefix(' ') {
        Some(text) => unescaped(alloc, line, text)?,
        None if text.is_empty() => Vec::new(alloc),
        None => return Err(failed(alloc, line, "a blank stands before the line of a stream")),
    };
    bytes.push(b'\n')?;
    Ok(bytes)
}

// A time that a run can be given.
fn time(alloc: Global, line: usize, word: &str) -> Result<u64, Stop> {
    let time = number(alloc, line, word)?;
    if time < TIME_END {
        Ok(time)
    } else {
        Err(failed_at(alloc, line, "a time is below 2^48", word))
    }
}

// An operation that is to fail.
fn fail(alloc: Global, line: usize, rest: &str) -> Result<Fail, Stop> {
    let (tag, fresh) = first_word(rest);
    Ok(Fail {
        tag: number(alloc, line, tag)?,
        fresh: number32(alloc, line, fresh)?,
    })
}

// A write that is held back until another one is lasting.
fn hold(alloc: Global, disks: &[DiskPlan], line: usize, rest: &str) -> Result<Hold, Stop> {
    let (name, rest) = first_word(rest);
    let (sector, rest) = first_word(rest);
    let (until_name, until) = first_word(rest);
    Ok(Hold {
        pv: disk_named(alloc, disks, line, name)?,
        sector: number(alloc, line, sector)?,
        until_pv: disk_named(alloc, disks, line, until_name)?,
        until: number(alloc, line, until)?,
    })
}

// The call of a stream that is to fail.
fn fails(alloc: Global, line: usize, rest: &str) -> Result<u64, Stop> {
    match rest.strip_prefix("fails ") {
        Some(word) => number(alloc, line, word),
        None => Err(failed(alloc, line, "behind source or sink stands fails N")),
    }
}
