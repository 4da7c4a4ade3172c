//! What the words of a command ask for, taken apart by clap.
ghost use Rattle.std.specs.Prelude.{◌≡◌, IfOk, Some, map};
ghost use Rattle.std.specs.List.{list_all};
ghost use Rattle.std.specs.Result.{result_ok};
ghost use Rattle.clap.specs.Matches.{found_of};
ghost use Rattle.clap.specs.Walk.{rows_of, texts};
ghost use Rattle.command_table.specs.Meaning.{meaning_of_words, request_named, request_read};
ghost use Rattle.command_table.specs.Options.{words_in, words_of};
ghost use Rattle.command_table.specs.Words.{numbered_from, read};
ghost use Rattle.lvm_words.specs.Parser.{argument_passes, arguments_in, arguments_pass, pairs_of, request_found, value_passes, values_pass};

use crate::parser::{arguments, only_options, parse, value, values};
use clap::ArgMatches;
use clap::error::ErrorKind;
use command_table::{
    CommandName, GivenOptions, Kind, OptionKey, OptionRow, Request, fault_in, request_by_name,
};
use std::alloc::{AllocError, Global};

/// What these words ask for, the first of which is the command's name. `None` is that they have no meaning. Only memory can be
/// wanting.
pub fn request_of_words(alloc: Global, words: &[String]) -> Result<Option<Request>, AllocError>
    ensures { IfOk result (λ request. request ≡ result_ok (meaning_of_words (words_of words.now))) }
{
    let [first, rest @ ..] = words else {
        return Ok(None);
    };
    match CommandName::named(first.as_bytes()) {
        Some(name) => request_behind(alloc, name, rest),
        None => Ok(None),
    }
}

// What the words after this name ask for, if the command stands on the command line.
fn request_behind(
    alloc: Global,
    name: CommandName,
    words: &[String],
) -> Result<Option<Request>, AllocError>
    ensures { IfOk result (λ request. request ≡ result_ok (request_named (Some name) (words_of words.now))) }
{
    if name.is_for_words() {
        request_parsed(alloc, name, words)
    } else {
        Ok(None)
    }
}

// What the words after this name ask for.
fn request_parsed(
    alloc: Global,
    name: CommandName,
    words: &[String],
) -> Result<Option<Request>, AllocError>
    ensures { IfOk result (λ request. request ≡ result_ok (request_read name (read name (numbered_from 1 (words_of words.now))))) }
{
    if !only_options(alloc, name.options(), words)? {
        return Ok(None);
    }
    match parse(alloc, name.options(), words) {
        Ok(matches) => request_in(alloc, name, &matches),
        Err(error) if error.kind() == ErrorKind::OutOfMemory => Err(AllocError),
        Err(_) => Ok(None),
    }
}

// What these matches ask for.
fn request_in(
    alloc: Global,
    name: CommandName,
    matches: &ArgMatches,
) -> Result<Option<Request>, AllocError>
    ensures { IfOk result (λ request. request ≡ request_found name (rows_of (found_of matches.now))) }
{
    let words = argument_words(alloc, matches)?;
    if !options_pass(name.options(), matches) || !arguments_pass(name, &words) {
        return Ok(None);
    }
    let pairs = pairs_of(alloc, name.options(), matches)?;
    let given = GivenOptions {
        pairs: pairs.as_slice(),
    };
    request_by_name(alloc, name, &given, words.as_slice())
}

// The arguments, as their bytes.
fn argument_words<'m>(alloc: Global, matches: &'m ArgMatches) -> Result<Vec<&'m [u8]>, AllocError>
    ensures { IfOk result (λ words. words_in words.items ≡ arguments_in (rows_of (found_of matches.now))) }
{
    match arguments(matches) {
        Some(words) => bytes_of(alloc, words),
        None => Ok(Vec::new(alloc)),
    }
}

// The bytes of each word.
fn bytes_of<'m>(alloc: Global, words: &[&'m str]) -> Result<Vec<&'m [u8]>, AllocError>
    ensures { IfOk result (λ bytes. words_in bytes.items ≡ texts words.now) }
{
    let mut bytes = Vec::new(alloc);
    for word in words {
        bytes.push(word.as_bytes())?;
    }
    Ok(bytes)
}

// The options with their values.
fn pairs_of<'m>(
    alloc: Global,
    rows: &[OptionRow],
    matches: &'m ArgMatches,
) -> Result<Vec<(OptionKey, &'m [u8])>, AllocError>
    ensures { IfOk result (λ pairs. map (λ pair. (pair.0, pair.1.now)) pairs.items ≡ pairs_of rows.now (rows_of (found_of matches.now))) }
{
    let mut pairs = Vec::new(alloc);
    for row in rows {
        if let Some(word) = value(matches, row.key) {
            pairs.push((row.key, word.as_bytes()))?;
        }
    }
    Ok(pairs)
}

// Whether the values of these options are what they have to be.
fn options_pass(rows: &[OptionRow], matches: &ArgMatches) -> bool
    ensures { result ≡ list_all (values_pass (rows_of (found_of matches.now))) rows.now }
{
    rows.iter().all(|row| values_pass(*row, matches))
}

// Whether the values of the option are what they have to be.
fn values_pass(row: OptionRow, matches: &ArgMatches) -> bool
    ensures { result ≡ values_pass (rows_of (found_of matches.now)) row }
{
    match values(matches, row.key) {
        Some(words) => all_pass(row.kind, words),
        None => true,
    }
}

// Whether each of the words is what such a value has to be.
fn all_pass(kind: Kind, words: &[&str]) -> bool
    ensures { result ≡ list_all (value_passes kind) (texts words.now) }
{
    for word in words {
        if !passes(kind, word.as_bytes()) {
            return false;
        }
    }
    true
}

// Whether the word is what such a value has to be.
fn passes(kind: Kind, word: &[u8]) -> bool
    ensures { result ≡ value_passes kind word.now }
{
    fault_in(kind, word).is_none()
}

// Whether each of the arguments is what it has to be.
fn arguments_pass(name: CommandName, words: &[&[u8]]) -> bool
    ensures { result ≡ arguments_pass name 0 (words_in words.now) }
{
    for (number, word) in words.iter().enumerate() {
        if !argument_passes(name, number, word) {
            return false;
        }
    }
    true
}

// Whether the word is what the argument with this number has to be.
fn argument_passes(name: CommandName, number: usize, word: &[u8]) -> bool
    ensures { result ≡ argument_passes name number word.now }
{
    match name.argument(number) {
        Some(kind) => passes(kind, word),
        None => true,
    }
}
