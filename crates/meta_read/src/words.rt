//! Lists of words, and status words.
ghost use Rattle.std.specs.Prelude.{◌≡◌, [], ◌∷◌, IfOk, find, map, not, option_map};
ghost use Rattle.std.specs.Option.{option_copied};
ghost use Rattle.lvm_name.specs.Names.{is_among};
ghost use Rattle.conf_text.specs.Items.{items};
ghost use Rattle.conf_text.specs.Sections.{item_view};
ghost use Rattle.conf_text.specs.Views.{scalar_view};
ghost use Rattle.meta_model.specs.Keys.{required, optional, words as words_of, texts_of, status};
ghost use Rattle.meta_read.specs.Reading.{GivesBy, as_bytes, as_words};

use crate::keys::required_item;
use crate::refusals::{unknown_status, wrong_kind};
use conf_text::{Item, Scalar, Section};
use meta_model::GroupRefusal;
use std::alloc::{AllocError, Global};

/// The status words of a key that has to stand. All are among these.
pub(crate) fn required_status<'a>(
    alloc: Global,
    section: &Section<'a>,
    key: &[u8],
    known: &[&[u8]],
) -> Result<Vec<&'a [u8]>, GroupRefusal>
    ensures { GivesBy as_words (status (map as_bytes known.now) key.now (items section.now)) result }
{
    let words = required_words(alloc, section, key)?;
    match first_beside(&words, known) {
        Some(word) => Err(unknown_status(alloc, word)),
        None => Ok(words),
    }
}

/// The words of a key that may be absent. Then there are none.
pub(crate) fn words_if_any<'a>(
    alloc: Global,
    section: &Section<'a>,
    key: &[u8],
) -> Result<Vec<&'a [u8]>, GroupRefusal>
    ensures { GivesBy as_words (optional words_of [] key.now (items section.now)) result }
{
    match section.get(key) {
        Some(item) => match words_in(alloc, &item)? {
            Some(words) => Ok(words),
            None => Err(wrong_kind(alloc, key)),
        },
        None => Ok(Vec::new(alloc)),
    }
}

/// Whether the word is one of these.
pub(crate) fn has_word(words: &[&[u8]], word: &[u8]) -> bool
    ensures { result ≡ is_among (map as_bytes words.now) word.now }
{
    words.contains(&word)
}

// The words of a key that has to stand.
fn required_words<'a>(
    alloc: Global,
    section: &Section<'a>,
    key: &[u8],
) -> Result<Vec<&'a [u8]>, GroupRefusal>
    ensures { GivesBy as_words (required words_of key.now (items section.now)) result }
{
    let item = required_item(alloc, section, key)?;
    match words_in(alloc, &item)? {
        Some(words) => Ok(words),
        None => Err(wrong_kind(alloc, key)),
    }
}

// The first of the words that isn't known.
fn first_beside<'a>(words: &[&'a [u8]], known: &[&[u8]]) -> Option<&'a [u8]>
    ensures { option_copied result ≡ find (λ word. not (is_among (map as_bytes known.now) word)) (map as_bytes words.now) }
{
    for word in words {
        if !has_word(known, word) {
            return Some(word);
        }
    }
    None
}

// A list of strings, or one string. None where it is something else.
fn words_in<'a>(alloc: Global, item: &Item<'a>) -> Result<Option<Vec<&'a [u8]>>, AllocError>
    ensures { IfOk result (λ found. option_map as_words found ≡ words_of (item_view item.now)) }
{
    match item {
        Item::Text(word) => {
            let mut words = Vec::new(alloc);
            words.push(*word)?;
            Ok(Some(words))
        }
        Item::List(scalars) => texts_in(alloc, scalars),
        _ => Ok(None),
    }
}

// The strings of a list. None where a number is among them.
fn texts_in<'a>(alloc: Global, scalars: &'a [Scalar]) -> Result<Option<Vec<&'a [u8]>>, AllocError>
    ensures { IfOk result (λ found. option_map as_words found ≡ texts_of (map scalar_view scalars.entry.now)) }
{
    let mut words = Vec::with_capacity(alloc, scalars.len())?;
    for scalar in scalars {
        match scalar {
            Scalar::Text(word) => words.push(word.as_slice())?,
            Scalar::Number(_) => return Ok(None),
        }
    }
    Ok(Some(words))
}
