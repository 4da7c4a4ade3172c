//! The lines that begin an enumeration, and its versions.
use crate::expectations::entry_kind;
use crate::line::first_word;
use crate::row::{Enumeration, FailureList, List, Tags, Version};
use crate::stop::{Stop, failed_at};
use crate::values::{number, numbers, quoted, status_in};
use std::alloc::Global;

impl List {
    /// Adds a version.
    pub fn add(&mut self, version: Version) -> Result<(), Stop> {
        match self {
            List::Moments(list) => list.versions.push(version)?,
            List::Failures(failures) => failures.list.versions.push(version)?,
        }
        Ok(())
    }

    /// Whether a version may stand at some moments alone.
    pub fn has_moments(&self) -> bool {
        matches!(self, List::Moments(_))
    }

    /// Whether it has no version.
    pub fn is_empty(&self) -> bool {
        match self {
            List::Moments(list) => list.versions.is_empty(),
            List::Failures(failures) => failures.list.versions.is_empty(),
        }
    }
}

/// The enumeration that a line begins, behind `at`.
pub fn open_list(alloc: Global, line: usize, rest: &str) -> Result<List, Stop> {
    if let Some(options) = behind(rest, "every moment") {
        return Ok(List::Moments(moments(alloc, line, options)?));
    }
    match behind(rest, "every failure") {
        Some(options) => Ok(List::Failures(failures(alloc, line, options)?)),
        None => Err(failed_at(
            alloc,
            line,
            "behind at stands every moment or every failure",
            rest,
        )),
    }
}

// What stands behind these words and a blank.
fn behind<'a>(text: &'a str, words: &str) -> Option<&'a str> {
    let rest = text.strip_prefix(words)?;
    if rest.is_empty() {
        return Some(rest);
    }
    rest.strip_prefix(' ')
}

fn moments(alloc: Global, line: usize, options: &str) -> Result<Enumeration, Stop> {
    let (word, rest) = first_word(options);
    let choices = match word {
        "" => Vec::new(alloc),
        "choices" => numbers(alloc, line, rest)?,
        _ => return Err(failed_at(alloc, line, "behind every moment stands choices", word)),
    };
    Ok(Enumeration {
        line,
        choices,
        versions: Vec::new(alloc),
    })
}

/// The status of a run in which an operation failed.
const FAILED: u8 = 6;

fn failures(alloc: Global, line: usize, options: &str) -> Result<FailureList, Stop> {
    let (options, output) = match options.split_once("output ") {
        Some((options, text)) => (options, Some(quoted(alloc, line, text)?)),
        None => (options, None),
    };
    let mut list = FailureList {
        status: FAILED,
        tags: None,
        output,
        list: Enumeration {
            line,
            choices: Vec::new(alloc),
            versions: Vec::new(alloc),
        },
    };
    let mut rest = options.trim_end();
    for _ in 0..3u32 {
        rest = read_option(alloc, line, rest, &mut list)?;
    }
    if rest.is_empty() {
        Ok(list)
    } else {
        Err(failed_at(alloc, line, "too many words", rest))
    }
}

// Reads one option, and gives what stands behind it.
fn read_option<'a>(
    alloc: Global,
    line: usize,
    options: &'a str,
    list: &mut FailureList,
) -> Result<&'a str, Stop> {
    let (word, rest) = first_word(options);
    let (value, more) = first_word(rest);
    match word {
        "" => Ok(""),
        "status" => {
            list.status = status_in(alloc, line, value)?;
            Ok(more)
        }
        "of" => {
            list.tags = Some(tags(alloc, line, value)?);
            Ok(more)
        }
        "choices" => {
            list.list.choices = numbers(alloc, line, rest)?;
            Ok("")
        }
        _ => Err(failed_at(
            alloc,
            line,
            "behind every failure stands status, of, choices, output",
            word,
        )),
    }
}

// The first tag and the last.
fn tags(alloc: Global, line: usize, word: &str) -> Result<Tags, Stop> {
    let (first, last) = ends_of(word);
    let first = number(alloc, line, first)?;
    let last = number(alloc, line, last)?;
    Ok(Tags { first, last })
}

// What stands before the hyphen and behind it, or the same twice.
fn ends_of(word: &str) -> (&str, &str) {
    match word.split_once('-') {
        Some(ends) => ends,
        None => (word, word),
    }
}

/// The version that a line begins, behind `version`: its name, and between which entries of the journal it may stand.
pub fn open_version(alloc: Global, line: usize, rest: &str) -> Result<Version, Stop> {
    let (name, rest) = first_word(rest);
    let mut version = Version {
        line,
        name: String::from_str(alloc, name)?,
        from: None,
        until: None,
        checks: Vec::new(alloc),
    };
    let mut rest = rest;
    for _ in 0..2u32 {
        rest = read_bound(alloc, line, rest, &mut version)?;
    }
    if rest.is_empty() {
        Ok(version)
    } else {
        Err(failed_at(alloc, line, "too many words", rest))
    }
}

// Reads the entry behind which the version may stand, or before which, and gives what stands behind that.
fn read_bound<'a>(
    alloc: Global,
    line: usize,
    words: &'a str,
    version: &mut Version,
) -> Result<&'a str, Stop> {
    let (word, rest) = first_word(words);
    let (kind, more) = first_word(rest);
    match word {
        "" => return Ok(""),
        "from" => version.from = Some(entry_kind(alloc, line, kind)?),
        "until" => version.until = Some(entry_kind(alloc, line, kind)?),
        _ => return Err(failed_at(
            alloc,
            line,
            "behind a version's name stands from or until",
            word,
        )),
    }
    Ok(more)
}
