//! A simple command of clap for the options of a command.
ghost use Rattle.std.specs.Prelude.{◌≡◌, ◌≢◌, IfErr, IfOk, None, OnOk, Some, if◌then◌else◌, [], false, option_map, true};
ghost use Rattle.clap.specs.Kinds.{FailsBy};
ghost use Rattle.clap.specs.Faults.{fault_of};
ghost use Rattle.clap.specs.Matches.{found_of};
ghost use Rattle.clap.specs.Simple.{app_of, matches_of};
ghost use Rattle.clap.specs.Walk.{all_of, first_of, rows_of, rule_of, texts};
ghost use Rattle.clap.specs.Values.{kind_of};
ghost use Rattle.command_table.specs.Options.{name_of, words_of};
ghost use Rattle.command_table.specs.Words.{is_complete, nothing_split};
ghost use Rattle.lvm_words.specs.Parser.{Lists, app_for, app_with, named_rule, no_stray, rest_id, rest_rule, seen_after, split_of, value_count};

use clap::error::ErrorKind;
use clap::{Arg, ArgAction, ArgMatches, Command, Error};
use command_table::{Kind, OptionKey, OptionRow, has_key, option_named};
use std::alloc::{AllocError, Global};

/// The matches of these words, which are those of a command with these options. Each word that begins with `-` is one of the
/// options, and none stands twice.
///
/// # Errors
///
/// Of another kind than want of memory exactly where an option lacks its value.
pub fn parse<'a>(
    alloc: Global,
    rows: &[OptionRow],
    words: &'a [String],
) -> Result<ArgMatches<'a>, Error>
    requires { no_stray rows.now nothing_split (words_of words.now) ≡ true }
    ensures complete { OnOk result (is_complete (split_of rows.now (words_of words.now)) ≡ true) }
    ensures lists { IfOk result (λ m. Lists rows.now (split_of rows.now (words_of words.now)) (rows_of (found_of m))) }
    ensures lacks { IfErr result (λ e. kind_of e ≢ ErrorKind.OutOfMemory → is_complete (split_of rows.now (words_of words.now)) ≡ false) }
{
    matches(alloc, rows, words)
}

/// The values of an option; a flag that stands there has one empty value.
pub fn values<'a, 'm>(matches: &'m ArgMatches<'a>, key: OptionKey) -> Option<&'m [&'a str]>
    ensures { option_map (λ values. texts values.now) result ≡ all_of (name_of key) (rows_of (found_of matches.now)) }
{
    matches.get_raw(key.name())
}

/// The first value of an option.
pub fn value<'a>(matches: &ArgMatches<'a>, key: OptionKey) -> Option<&'a str>
    ensures { option_map (λ word. word.now) result ≡ first_of (name_of key) (rows_of (found_of matches.now)) }
{
    matches.get_str(key.name())
}

/// The arguments.
pub fn arguments<'a, 'm>(matches: &'m ArgMatches<'a>) -> Option<&'m [&'a str]>
    ensures { option_map (λ values. texts values.now) result ≡ all_of rest_id (rows_of (found_of matches.now)) }
{
    matches.get_raw("arguments")
}

/// Whether each word that begins with `-` is one of the options, and none stands twice.
pub fn only_options(alloc: Global, rows: &[OptionRow], words: &[String]) -> Result<bool, AllocError>
    ensures { IfOk result (λ fine. fine ≡ no_stray rows.now nothing_split (words_of words.now)) }
{
    let mut seen = Vec::new(alloc);
    for word in words {
        if !takes(rows, &mut seen, word.as_bytes())? {
            return Ok(false);
        }
    }
    Ok(true)
}

// Takes one more word; it is false where the word strays.
fn takes(rows: &[OptionRow], seen: &mut Vec<OptionKey>, word: &[u8]) -> Result<bool, AllocError>
    ensures { IfOk result (λ fine. seen_after rows.now seen.old.items word.now ≡ (if fine then Some seen.new.items else None)) }
{
    if word.first() != Some(&b'-') {
        return Ok(true);
    }
    match option_named(rows, word) {
        Some(row) if !has_key(seen, row.key) => {
            seen.push(row.key)?;
            Ok(true)
        }
        _ => Ok(false),
    }
}

// The matches of clap.
fn matches<'a>(
    alloc: Global,
    rows: &[OptionRow],
    words: &'a [String],
) -> Result<ArgMatches<'a>, Error>
    ensures matches { IfOk result (λ m. rows_of (found_of m) ≡ matches_of (app_for rows.now) (words_of words.now)) }
    ensures kinds { FailsBy (fault_of (app_for rows.now) (words_of words.now)) result }
{
    let command = simple_command(alloc, rows)?;
    command.try_get_matches_from(words)
}

// The command of clap with these options and any number of arguments.
fn simple_command<'a>(alloc: Global, rows: &[OptionRow]) -> Result<Command<'a>, AllocError>
    ensures { IfOk result (λ command. app_of command ≡ app_for rows.now) }
{
    let mut command = empty_command(alloc);
    for row in rows {
        command = command.arg(option_arg(
            alloc,
            name_of(row.key),
            row.key.letter(),
            value_count(row.kind),
        ))?;
    }
    command.arg(rest_arg(alloc))
}

// The command without options and arguments.
fn empty_command<'a>(alloc: Global) -> Command<'a>
    ensures { app_of result ≡ app_with [] }
{
    let name: &'a str = "";
    Command::new(alloc, name)
        .no_binary_name(true)
        .disable_help_flag(true)
}

// The long spelling of the option, without the hyphens.
fn name_of<'a>(key: OptionKey) -> &'a str
    ensures { result.now ≡ name_of key }
{
    key.name()
}

// How many values an option of this kind has.
fn value_count(kind: Kind) -> usize
    ensures { result ≡ value_count kind }
{
    match kind {
        Kind::Flag => 0,
        _ => 1,
    }
}

// The arguments.
fn rest_arg<'a>(alloc: Global) -> Arg<'a>
    ensures rule { rule_of result ≡ rest_rule }
    ensures local { result.global ≡ false }
{
    let id: &'a str = "arguments";
    Arg::new(alloc, id).action(ArgAction::Append)
}

// An option with so many values. One without values, as a flag is, gives the empty word.
fn option_arg<'a>(alloc: Global, name: &'a str, letter: Option<u8>, values: usize) -> Arg<'a>
    ensures rule { rule_of result ≡ named_rule name.entry.now letter values }
    ensures local { result.global ≡ false }
{
    let missing: &'a str = "";
    let arg = Arg::new(alloc, name)
        .long(name)
        .action(ArgAction::Append)
        .num_args(values)
        .default_missing_value(missing);
    match letter {
        Some(letter) => arg.short(char::from(letter)),
        None => arg,
    }
}
