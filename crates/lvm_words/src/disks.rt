//! The pairs `-d NAME`.
ghost use Rattle.std.specs.Prelude.{◌≡◌, None, Some, IfOk, IsErrOf};
ghost use Rattle.std.specs.String.{string_bytes};
ghost use Rattle.command_table.specs.Options.{words_of};
ghost use Rattle.lvm_words.specs.Disks.{all_differ, are_disks, disks_front, disks_named, front_of, is_disk_option};

use crate::WordsRefusal;
use command_table::is_disk_name;
use line_answers::DiskNames;
use std::alloc::{AllocError, Global};
use std::collections::BTreeSet;

/// The most disks that a run has.
const MOST_DISKS: usize = 64;

/// The disks that the words name by the pairs `-d NAME` at their front, in order: 1 to 64, all different. The words after the
/// pairs aren't looked at.
///
/// # Errors
///
/// `NoMemory` where memory is wanting, and else `NoMeaning` exactly where the words name no disks so.
pub fn disk_names(alloc: Global, words: &[String]) -> Result<DiskNames, WordsRefusal>
    ensures ok { IfOk result (λ names. disks_named (words_of words.now) ≡ Some names) }
    ensures no_meaning { IsErrOf result WordsRefusal.NoMeaning → disks_named (words_of words.now) ≡ None }
{
    let (names, _) = disks_front(alloc, words)?;
    Ok(DiskNames::from_vec(names))
}

/// The names of the disks, and the words after the pairs. Errors are as of `disk_names`.
pub fn disks_front(
    alloc: Global,
    words: &[String],
) -> Result<(Vec<String>, &[String]), WordsRefusal>
    ensures ok { IfOk result (λ front. disks_front (words_of words.now) ≡ Some (record { names = words_of front.0.items; rest = words_of front.1.now })) }
    ensures no_meaning { IsErrOf result WordsRefusal.NoMeaning → disks_front (words_of words.now) ≡ None }
{
    let (names, rest) = front(alloc, words)?;
    if are_disks(alloc, &names)? {
        Ok((names, rest))
    } else {
        Err(WordsRefusal::NoMeaning)
    }
}

// The names of the pairs at the front, and the words after them.
fn front(alloc: Global, words: &[String]) -> Result<(Vec<String>, &[String]), WordsRefusal>
    ensures ok { IfOk result (λ front. front_of (words_of words.now) ≡ Some (record { names = words_of front.0.items; rest = words_of front.1.now })) }
    ensures no_meaning { IsErrOf result WordsRefusal.NoMeaning → front_of (words_of words.now) ≡ None }
{
    let mut names = Vec::new(alloc);
    let mut at = 0;
    while at < words.len() && is_disk_option(&words[at]) {
        if words.len() - at < 2 {
            return Err(WordsRefusal::NoMeaning);
        }
        let name = &words[at + 1];
        if !is_disk_name(name.as_bytes()) {
            return Err(WordsRefusal::NoMeaning);
        }
        names.push(name.clone()?)?;
        at += 2;
    }
    Ok((names, &words[at..]))
}

fn is_disk_option(word: &String) -> bool
    ensures { result ≡ is_disk_option (string_bytes word.now) }
{
    word.as_str() == "-d"
}

// Whether a run can have these disks.
fn are_disks(alloc: Global, names: &[String]) -> Result<bool, AllocError>
    ensures { IfOk result (λ can. can ≡ are_disks (words_of names.now)) }
{
    Ok(!names.is_empty() && names.len() <= MOST_DISKS && all_differ(alloc, names)?)
}

// Whether no name stands twice: none is one of those behind it.
fn all_differ(alloc: Global, names: &[String]) -> Result<bool, AllocError>
    ensures { IfOk result (λ differ. differ ≡ all_differ (words_of names.now)) }
{
    let mut behind = BTreeSet::new(alloc);
    for at in (0..names.len()).rev() {
        if !behind.insert(names[at].as_str())? {
            return Ok(false);
        }
    }
    Ok(true)
}
