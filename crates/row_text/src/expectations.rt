//! The lines that say what is expected of a run.
use crate::line::{first_word, words_in};
use crate::row::{
    DiskExpectation, DiskFact, DiskPlan, Expectation, Expected, Sites, What, disk_named,
};
use crate::settings::stream_line;
use crate::stop::{Stop, failed_at};
use crate::texts::Texts;
use crate::values::{bytes_in, number, place, status_in};
use line_table::EntryKind;
use std::alloc::Global;

/// Whether the word begins a line of this kind.
pub fn is_expectation(word: &str) -> bool {
    matches!(
        word.as_bytes(),
        b"output"
            | b"status"
            | b"steps"
            | b"forced"
            | b"left"
            | b"journal"
            | b"answers"
            | b"sector"
            | b"zero"
            | b"rest"
            | b"same"
            | b"changed"
    )
}

impl Expected {
    /// No output, the status 0, and nothing else.
    pub fn new(alloc: Global) -> Self {
        Expected {
            output: Vec::new(alloc),
            status: 0,
            others: Vec::new(alloc),
            disks: Vec::new(alloc),
        }
    }

    /// Adds a line to the output, behind `>`.
    pub fn read_output_line(&mut self, alloc: Global, line: usize, text: &str) -> Result<(), Stop> {
        self.output
            .extend_from_slice(&stream_line(alloc, line, text)?)?;
        Ok(())
    }

    /// Reads such a line.
    pub fn read(
        &mut self,
        alloc: Global,
        texts: &Texts,
        disks: &[DiskPlan],
        line: usize,
        word: &str,
        rest: &str,
    ) -> Result<(), Stop> {
        match word {
            "output" => texts.append(alloc, line, rest, &mut self.output),
            "status" => {
                self.status = status_in(alloc, line, rest)?;
                Ok(())
            }
            _ => match what(alloc, line, word, rest)? {
                Some(what) => Ok(self.others.push(Expectation { line, what })?),
                None => {
                    let what = disk_fact(alloc, disks, line, word, rest)?;
                    Ok(self.disks.push(DiskExpectation { line, what })?)
                }
            },
        }
    }
}

// What else is expected, where that isn't seen on the disks.
fn what(alloc: Global, line: usize, word: &str, rest: &str) -> Result<Option<What>, Stop> {
    match word {
        "steps" => Ok(Some(What::Steps(number(alloc, line, rest)?))),
        "forced" => Ok(Some(What::Forced(number(alloc, line, rest)?))),
        "left" => Ok(Some(What::Left(number(alloc, line, rest)?))),
        "journal" => Ok(Some(What::Journal(journal(alloc, line, rest)?))),
        "answers" => Ok(Some(What::Answers(number(alloc, line, rest)?))),
        _ => Ok(None),
    }
}

// What is expected of the disks.
fn disk_fact(
    alloc: Global,
    disks: &[DiskPlan],
    line: usize,
    word: &str,
    rest: &str,
) -> Result<DiskFact, Stop> {
    if word == "changed" && rest == "none" {
        return Ok(DiskFact::Unchanged);
    }
    let (name, rest) = first_word(rest);
    let disk = disk_named(alloc, disks, line, name)?;
    match word {
        "sector" => has(alloc, disk, line, rest),
        "zero" => zero(alloc, disk, line, rest),
        "rest" => zero_rest(alloc, disk, line, rest),
        "same" => same(alloc, disks, disk, line, rest),
        "changed" => changed(alloc, disk, line, rest),
        _ => Err(failed_at(alloc, line, "no word of a row", word)),
    }
}

fn has(alloc: Global, disk: u32, line: usize, rest: &str) -> Result<DiskFact, Stop> {
    let (sector, rest) = first_word(rest);
    let (at, bytes) = first_word(rest);
    Ok(DiskFact::Has {
        disk,
        sector: place(alloc, line, sector)?,
        at: place(alloc, line, at)?,
        bytes: bytes_in(alloc, line, bytes)?,
    })
}

fn zero(alloc: Global, disk: u32, line: usize, rest: &str) -> Result<DiskFact, Stop> {
    let (first, count) = first_word(rest);
    Ok(DiskFact::Zero {
        disk,
        first: place(alloc, line, first)?,
        count: place(alloc, line, count)?,
    })
}

fn zero_rest(alloc: Global, disk: u32, line: usize, rest: &str) -> Result<DiskFact, Stop> {
    let (sector, at) = first_word(rest);
    Ok(DiskFact::Rest {
        disk,
        sector: place(alloc, line, sector)?,
        at: place(alloc, line, at)?,
    })
}

fn same(
    alloc: Global,
    disks: &[DiskPlan],
    one: u32,
    line: usize,
    rest: &str,
) -> Result<DiskFact, Stop> {
    let (other, rest) = first_word(rest);
    let (first, count) = first_word(rest);
    Ok(DiskFact::Same {
        one,
        other: disk_named(alloc, disks, line, other)?,
        first: place(alloc, line, first)?,
        count: place(alloc, line, count)?,
    })
}

fn changed(alloc: Global, disk: u32, line: usize, rest: &str) -> Result<DiskFact, Stop> {
    let words = words_in(alloc, rest)?;
    let mut spans = Vec::new(alloc);
    for word in words.iter() {
        spans.push(sites(alloc, line, word)?)?;
    }
    Ok(DiskFact::Changed { disk, spans })
}

// A sector, or the sectors from one to another.
fn sites(alloc: Global, line: usize, word: &str) -> Result<Sites, Stop> {
    let (first, last) = match word.split_once('-') {
        Some(both) => both,
        None => (word, word),
    };
    Ok(Sites {
        first: place(alloc, line, first)?,
        last: place(alloc, line, last)?,
    })
}

// The entries of a journal, each a kind and its moment.
fn journal(alloc: Global, line: usize, rest: &str) -> Result<Vec<(EntryKind, u64)>, Stop> {
    let mut entries = Vec::new(alloc);
    if rest == "none" {
        return Ok(entries);
    }
    let words = words_in(alloc, rest)?;
    for word in words.iter() {
        entries.push(entry(alloc, line, word)?)?;
    }
    Ok(entries)
}

fn entry(alloc: Global, line: usize, word: &str) -> Result<(EntryKind, u64), Stop> {
    let Some((name, moment)) = word.split_once('@') else {
        return Err(failed_at(alloc, line, "an entry is KIND@MOMENT", word));
    };
    let kind = entry_kind(alloc, line, name)?;
    let moment = number(alloc, line, moment)?;
    Ok((kind, moment))
}

/// The kind of an entry.
pub fn entry_kind(alloc: Global, line: usize, name: &str) -> Result<EntryKind, Stop> {
    match name {
        "begun" => Ok(EntryKind::Begun),
        "took" => Ok(EntryKind::Took),
        "failed" => Ok(EntryKind::Failed),
        "answered" => Ok(EntryKind::Answered),
        _ => Err(failed_at(alloc, line, "no kind of an entry", name)),
    }
}
