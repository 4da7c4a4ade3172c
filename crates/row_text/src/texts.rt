//! The texts of a file, by their names.
use crate::line::{first_word, words_in};
use crate::stop::{Stop, failed, failed_at};
use crate::values::unescaped;
use std::alloc::{AllocError, Global};

/// A text that has a name.
#[derive(Debug, Drop)]
pub struct Named {
    pub name: String,
    pub bytes: Vec<u8>,
}

/// The texts that were read so far.
#[derive(Debug, Drop)]
pub struct Texts {
    list: Vec<Named>,
}

impl Texts {
    /// No text.
    pub fn new(alloc: Global) -> Self {
        Texts {
            list: Vec::new(alloc),
        }
    }

    // The text of this name.
    fn get(&self, name: &str) -> Option<&[u8]> {
        for named in self.list.iter() {
            if named.name.as_str() == name {
                return Some(named.bytes.as_slice());
            }
        }
        None
    }

    /// Whether there is one of this name.
    pub fn has(&self, name: &str) -> bool {
        self.get(name).is_some()
    }

    /// Adds a text.
    pub fn add(&mut self, named: Named) -> Result<(), AllocError> {
        self.list.push(named)?;
        Ok(())
    }

    /// Appends the text that this word of the line names.
    pub fn append(
        &self,
        alloc: Global,
        line: usize,
        name: &str,
        to: &mut Vec<u8>,
    ) -> Result<(), Stop> {
        match self.get(name) {
            Some(bytes) => Ok(to.extend_from_slice(bytes)?),
            None => Err(failed_at(alloc, line, "no text has this name", name)),
        }
    }

    /// The text that these words define, behind a name and a blank: `is NAME ..`, or `from NAME with OLD => NEW`.
    pub fn defined(&self, alloc: Global, line: usize, words: &str) -> Result<Vec<u8>, Stop> {
        let (word, rest) = first_word(words);
        match word {
            "is" => self.joined(alloc, line, rest),
            "from" => self.replaced(alloc, line, rest),
            _ => Err(failed_at(alloc, line, "behind a text's name stands is or from", word)),
        }
    }

    // These texts, one behind the other.
    fn joined(&self, alloc: Global, line: usize, names: &str) -> Result<Vec<u8>, Stop> {
        let names = words_in(alloc, names)?;
        let mut all = Vec::new(alloc);
        for name in names.iter() {
            self.append(alloc, line, name, &mut all)?;
        }
        Ok(all)
    }

    // The text with another part in place of the first such part.
    fn replaced(&self, alloc: Global, line: usize, words: &str) -> Result<Vec<u8>, Stop> {
        let (name, rest) = first_word(words);
        let Some((old, new)) = parts_of(rest) else {
            return Err(failed(alloc, line, "behind from and a name stands with OLD => NEW"));
        };
        let mut whole = Vec::new(alloc);
        self.append(alloc, line, name, &mut whole)?;
        let old = unescaped(alloc, line, old)?;
        let new = unescaped(alloc, line, new)?;
        let Some(at) = place_of(&whole, &old) else {
            return Err(failed_at(
                alloc,
                line,
                "what is replaced doesn't stand in the text",
                name,
            ));
        };
        let mut changed = Vec::new(alloc);
        let (front, from_old) = split_at(&whole, at);
        let (_, behind) = split_at(from_old, old.len());
        changed.extend_from_slice(front)?;
        changed.extend_from_slice(&new)?;
        changed.extend_from_slice(behind)?;
        Ok(changed)
    }
}

// What stands before and behind the arrow.
fn parts_of(words: &str) -> Option<(&str, &str)> {
    let parts = words.strip_prefix("with ")?;
    match parts.split_once(" => ") {
        Some(both) => Some(both),
        None => Some((parts.strip_suffix(" =>")?, "")),
    }
}

// Where the part stands first.
fn place_of(whole: &[u8], part: &[u8]) -> Option<usize> {
    if part.is_empty() {
        return None;
    }
    whole.windows(part.len()).position(|window| window == part)
}

// The bytes before this place, or all, and those from there on.
fn split_at(bytes: &[u8], at: usize) -> (&[u8], &[u8]) {
    bytes.split_at(at.min(bytes.len()))
}
