//! A line of a file, as its words.
use std::alloc::{AllocError, Global};

/// The first word and what stands behind the blank after it.
pub fn first_word(text: &str) -> (&str, &str) {
    match text.split_once(' ') {
        Some((word, rest)) => (word, rest),
        None => (text, ""),
    }
}

/// The words that are separated by single blanks; there are none in an empty text.
pub fn words_in<'a>(alloc: Global, text: &'a str) -> Result<Vec<&'a str>, AllocError> {
    let mut words = Vec::new(alloc);
    if text.is_empty() {
        return Ok(words);
    }
    for word in text.split(' ') {
        words.push(word)?;
    }
    Ok(words)
}
