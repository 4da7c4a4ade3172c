//! A function for each command: from its options and arguments to what it means.
ghost use Rattle.std.specs.Prelude.{◌≡◌, [], IfOk, option_map};
ghost use Rattle.command_table.specs.declared.command.Command.TheVariants.{Pvck, Vgremove, Vgcfgbackup, Vgcfgrestore, Lvremove, Flush, Resync};
ghost use Rattle.command_table.specs.Commands.{alone, command_by_name, fill_words, goes_together, lvcreate, lvextend, lvreduce, lvrename, new_volume, pvcreate, pvmove, read_words, vgcreate, vgextend, vgreduce, vgrename, write_words};
ghost use Rattle.command_table.specs.Given.{amount_of, given_by, number_or, one_path, one_word, path_in};
ghost use Rattle.command_table.specs.Options.{words_in};

use crate::given_options::GivenOptions;
use crate::values::{halves, number_of};
use crate::{Command, CommandName, Moving, Names, NewVolume, OptionKey, Path};
use sector_base::{ItemList, Text};
use std::alloc::{AllocError, Global};

/// What a function here answers: the command, or that the words are too few, too many or don't go together.
type Meant = Result<Option<Command>, AllocError>;

/// The command of this name with these options and arguments. None where they are too few or too many or don't go together,
/// and for a session and the demo.
pub fn command_by_name(
    alloc: Global,
    name: CommandName,
    given: &GivenOptions,
    arguments: &[&[u8]],
) -> Result<Option<Command>, AllocError>
    ensures { IfOk result (λ command. command ≡ command_by_name name (given_by given.now) (words_in arguments.now)) }
{
    match name {
        CommandName::Pvcreate => pvcreate(alloc, given, arguments),
        CommandName::Pvmove => pvmove(alloc, given, arguments),
        CommandName::Pvck => pvck(alloc, arguments),
        CommandName::Pvs => Ok(alone(Command::Pvs, arguments)),
        CommandName::Vgcreate => vgcreate(alloc, given, arguments),
        CommandName::Vgextend => vgextend(alloc, arguments),
        CommandName::Vgreduce => vgreduce(alloc, arguments),
        CommandName::Vgremove => vgremove(alloc, arguments),
        CommandName::Vgrename => vgrename(alloc, arguments),
        CommandName::Vgcfgbackup => vgcfgbackup(alloc, arguments),
        CommandName::Vgcfgrestore => vgcfgrestore(alloc, arguments),
        CommandName::Vgck => Ok(alone(Command::Vgck, arguments)),
        CommandName::Vgs => Ok(alone(Command::Vgs, arguments)),
        CommandName::Lvcreate => lvcreate(alloc, given, arguments),
        CommandName::Lvextend => lvextend(alloc, given, arguments),
        CommandName::Lvreduce => lvreduce(alloc, given, arguments),
        CommandName::Lvremove => lvremove(alloc, arguments),
        CommandName::Lvrename => lvrename(alloc, arguments),
        CommandName::Lvs => Ok(alone(Command::Lvs, arguments)),
        CommandName::Session | CommandName::Demo => Ok(None),
        CommandName::Read => read(alloc, arguments),
        CommandName::Fill => fill(alloc, given, arguments),
        CommandName::Write => write(alloc, given, arguments),
        CommandName::Flush => flush(alloc, arguments),
        CommandName::List => Ok(alone(Command::List, arguments)),
        CommandName::Wait => Ok(alone(Command::Wait, arguments)),
        CommandName::Resync => resync(alloc, arguments),
    }
}

fn pvcreate(alloc: Global, given: &GivenOptions, arguments: &[&[u8]]) -> Meant
    ensures { IfOk result (λ command. command ≡ pvcreate (given_by given.now) (words_in arguments.now)) }
{
    match arguments {
        [pv] => Ok(Some(Command::Pvcreate {
            pv: text_of(alloc, pv)?,
            metadata_copies: given.number(OptionKey::MetadataCopies).unwrap_or(1),
        })),
        _ => Ok(None),
    }
}

fn pvmove(alloc: Global, given: &GivenOptions, arguments: &[&[u8]]) -> Meant
    ensures { IfOk result (λ command. command ≡ pvmove (given_by given.now) (words_in arguments.now)) }
{
    let aborts = given.value(OptionKey::Abort).is_some();
    match arguments {
        [] if aborts => Ok(Some(Command::Pvmove(Moving::Abort))),
        [] => Ok(Some(Command::Pvmove(Moving::GoOn))),
        [pv, onto @ ..] if !aborts => Ok(Some(Command::Pvmove(Moving::From {
            pv: text_of(alloc, pv)?,
            onto: names_of(alloc, onto)?,
        }))),
        _ => Ok(None),
    }
}

fn vgcreate(alloc: Global, given: &GivenOptions, arguments: &[&[u8]]) -> Meant
    ensures { IfOk result (λ command. command ≡ vgcreate (given_by given.now) (words_in arguments.now)) }
{
    match arguments {
        [vg, pvs @ ..] if !pvs.is_empty() => Ok(Some(Command::Vgcreate {
            vg: text_of(alloc, vg)?,
            extent_size: given
                .size(OptionKey::PhysicalExtentSize, 2_048)
                .unwrap_or(8_192),
            pvs: names_of(alloc, pvs)?,
        })),
        _ => Ok(None),
    }
}

fn lvcreate(alloc: Global, given: &GivenOptions, arguments: &[&[u8]]) -> Meant
    ensures { IfOk result (λ command. command ≡ lvcreate (given_by given.now) (words_in arguments.now)) }
{
    match arguments {
        [vg, pvs @ ..] if goes_together(given) => new_volume(alloc, given, vg, pvs),
        _ => Ok(None),
    }
}

// Whether the options of lvcreate go together: `-m` excludes `-i`, and `-I` needs an `-i` above 1.
fn goes_together(given: &GivenOptions) -> bool
    ensures { result ≡ goes_together (given_by given.now) }
{
    let excludes = given.has(OptionKey::Mirrors) && given.has(OptionKey::Stripes);
    !excludes && (!given.has(OptionKey::StripeSize) || stripes_of(given) > 1)
}

fn stripes_of(given: &GivenOptions) -> u64
    ensures { result ≡ number_or (given_by given.now) OptionKey.Stripes 1 }
{
    given.number(OptionKey::Stripes).unwrap_or(1)
}

// What lvcreate makes in this group.
fn new_volume(alloc: Global, given: &GivenOptions, vg: &[u8], pvs: &[&[u8]]) -> Meant
    ensures { IfOk result (λ command. command ≡ new_volume (given_by given.now) (given_by given.now OptionKey.Name) (amount_of (given_by given.now)) vg.now (words_in pvs.now)) }
{
    let (Some(lv), Some(amount)) = (given.value(OptionKey::Name), given.amount()) else {
        return Ok(None);
    };
    Ok(Some(Command::Lvcreate(NewVolume {
        vg: text_of(alloc, vg)?,
        lv: text_of(alloc, lv)?,
        amount,
        stripes: stripes_of(given),
        stripe_size: given.size(OptionKey::StripeSize, 2).unwrap_or(128),
        mirrors: given.number(OptionKey::Mirrors).unwrap_or(0),
        contiguous: given.value(OptionKey::Alloc) == Some(b"contiguous".as_slice()),
        pvs: names_of(alloc, pvs)?,
    })))
}

fn lvextend(alloc: Global, given: &GivenOptions, arguments: &[&[u8]]) -> Meant
    ensures { IfOk result (λ command. command ≡ lvextend (given_by given.now) (words_in arguments.now)) }
{
    let [word, pvs @ ..] = arguments else {
        return Ok(None);
    };
    let Some(growth) = given.growth() else {
        return Ok(None);
    };
    match path_of(alloc, word)? {
        Some(path) => Ok(Some(Command::Lvextend {
            path,
            growth,
            pvs: names_of(alloc, pvs)?,
        })),
        None => Ok(None),
    }
}

fn lvreduce(alloc: Global, given: &GivenOptions, arguments: &[&[u8]]) -> Meant
    ensures { IfOk result (λ command. command ≡ lvreduce (given_by given.now) (words_in arguments.now)) }
{
    let Some(amount) = given.amount() else {
        return Ok(None);
    };
    match one_path(alloc, arguments)? {
        Some(path) => Ok(Some(Command::Lvreduce { path, amount })),
        None => Ok(None),
    }
}

fn vgextend(alloc: Global, arguments: &[&[u8]]) -> Meant
    ensures { IfOk result (λ command. command ≡ vgextend (words_in arguments.now)) }
{
    match arguments {
        [vg, pvs @ ..] if !pvs.is_empty() => Ok(Some(Command::Vgextend {
            vg: text_of(alloc, vg)?,
            pvs: names_of(alloc, pvs)?,
        })),
        _ => Ok(None),
    }
}

fn vgreduce(alloc: Global, arguments: &[&[u8]]) -> Meant
    ensures { IfOk result (λ command. command ≡ vgreduce (words_in arguments.now)) }
{
    match arguments {
        [vg, pv] => Ok(Some(Command::Vgreduce {
            vg: text_of(alloc, vg)?,
            pv: text_of(alloc, pv)?,
        })),
        _ => Ok(None),
    }
}

fn vgrename(alloc: Global, arguments: &[&[u8]]) -> Meant
    ensures { IfOk result (λ command. command ≡ vgrename (words_in arguments.now)) }
{
    match arguments {
        [vg, new] => Ok(Some(Command::Vgrename {
            vg: text_of(alloc, vg)?,
            new: text_of(alloc, new)?,
        })),
        _ => Ok(None),
    }
}

fn lvrename(alloc: Global, arguments: &[&[u8]]) -> Meant
    ensures { IfOk result (λ command. command ≡ lvrename (words_in arguments.now)) }
{
    match arguments {
        [vg, old, new] => Ok(Some(Command::Lvrename {
            vg: text_of(alloc, vg)?,
            old: text_of(alloc, old)?,
            new: text_of(alloc, new)?,
        })),
        _ => Ok(None),
    }
}

/// The bytes of the one argument. None where there is none, or another.
pub fn one_word(alloc: Global, arguments: &[&[u8]]) -> Result<Option<Text>, AllocError>
    ensures { IfOk result (λ word. word ≡ one_word (words_in arguments.now)) }
{
    match arguments {
        [word] => Ok(Some(text_of(alloc, word)?)),
        _ => Ok(None),
    }
}

// The volume that the one argument names. None where there is none, or another.
fn one_path(alloc: Global, arguments: &[&[u8]]) -> Result<Option<Path>, AllocError>
    ensures { IfOk result (λ path. path ≡ one_path (words_in arguments.now)) }
{
    match arguments {
        [word] => path_of(alloc, word),
        _ => Ok(None),
    }
}

fn pvck(alloc: Global, arguments: &[&[u8]]) -> Meant
    ensures { IfOk result (λ command. command ≡ option_map Pvck (one_word (words_in arguments.now))) }
{
    match one_word(alloc, arguments)? {
        Some(pv) => Ok(Some(Command::Pvck { pv })),
        None => Ok(None),
    }
}

fn vgremove(alloc: Global, arguments: &[&[u8]]) -> Meant
    ensures { IfOk result (λ command. command ≡ option_map Vgremove (one_word (words_in arguments.now))) }
{
    match one_word(alloc, arguments)? {
        Some(vg) => Ok(Some(Command::Vgremove { vg })),
        None => Ok(None),
    }
}

fn vgcfgbackup(alloc: Global, arguments: &[&[u8]]) -> Meant
    ensures { IfOk result (λ command. command ≡ option_map Vgcfgbackup (one_word (words_in arguments.now))) }
{
    match one_word(alloc, arguments)? {
        Some(vg) => Ok(Some(Command::Vgcfgbackup { vg })),
        None => Ok(None),
    }
}

fn lvremove(alloc: Global, arguments: &[&[u8]]) -> Meant
    ensures { IfOk result (λ command. command ≡ option_map Lvremove (one_path (words_in arguments.now))) }
{
    match one_path(alloc, arguments)? {
        Some(path) => Ok(Some(Command::Lvremove { path })),
        None => Ok(None),
    }
}

fn flush(alloc: Global, arguments: &[&[u8]]) -> Meant
    ensures { IfOk result (λ command. command ≡ option_map Flush (one_path (words_in arguments.now))) }
{
    match one_path(alloc, arguments)? {
        Some(path) => Ok(Some(Command::Flush { path })),
        None => Ok(None),
    }
}

fn resync(alloc: Global, arguments: &[&[u8]]) -> Meant
    ensures { IfOk result (λ command. command ≡ option_map Resync (one_path (words_in arguments.now))) }
{
    match one_path(alloc, arguments)? {
        Some(path) => Ok(Some(Command::Resync { path })),
        None => Ok(None),
    }
}

fn vgcfgrestore(alloc: Global, arguments: &[&[u8]]) -> Meant
    ensures { IfOk result (λ command. command ≡ option_map (λ vg. Vgcfgrestore vg []) (one_word (words_in arguments.now))) }
{
    match one_word(alloc, arguments)? {
        Some(vg) => Ok(Some(Command::Vgcfgrestore {
            vg,
            text: Text::from_vec(Vec::new(alloc)),
        })),
        None => Ok(None),
    }
}

// This command, where there is no argument.
fn alone(command: Command, arguments: &[&[u8]]) -> Option<Command>
    ensures { result ≡ alone command (words_in arguments.now) }
{
    if arguments.is_empty() {
        Some(command)
    } else {
        None
    }
}

fn read(alloc: Global, arguments: &[&[u8]]) -> Meant
    ensures { IfOk result (λ command. command ≡ read_words (words_in arguments.now)) }
{
    let [path, start, count] = arguments else {
        return Ok(None);
    };
    match (path_of(alloc, path)?, number_of(start), number_of(count)) {
        (Some(path), Some(start), Some(count)) => Ok(Some(Command::Read { path, start, count })),
        _ => Ok(None),
    }
}

fn fill(alloc: Global, given: &GivenOptions, arguments: &[&[u8]]) -> Meant
    ensures { IfOk result (λ command. command ≡ fill_words (given_by given.now) (words_in arguments.now)) }
{
    let [path, start, count, value] = arguments else {
        return Ok(None);
    };
    let (Some(start), Some(count), Some(value)) = (
        number_of(start),
        number_of(count),
        number_of(value),
    ) else {
        return Ok(None);
    };
    match path_of(alloc, path)? {
        Some(path) => Ok(Some(Command::Fill {
            path,
            start,
            count,
            value,
            through: given.has(OptionKey::Through),
        })),
        None => Ok(None),
    }
}

fn write(alloc: Global, given: &GivenOptions, arguments: &[&[u8]]) -> Meant
    ensures { IfOk result (λ command. command ≡ write_words (given_by given.now) (words_in arguments.now)) }
{
    let [path, start, hex] = arguments else {
        return Ok(None);
    };
    match (path_of(alloc, path)?, number_of(start)) {
        (Some(path), Some(start)) => Ok(Some(Command::Write {
            path,
            start,
            hex: text_of(alloc, hex)?,
            through: given.has(OptionKey::Through),
        })),
        _ => Ok(None),
    }
}

// The volume that a word VG/LV names. None where it has no `/`.
fn path_of(alloc: Global, word: &[u8]) -> Result<Option<Path>, AllocError>
    ensures { IfOk result (λ path. path ≡ path_in word.now) }
{
    match halves(word) {
        Some((vg, lv)) => Ok(Some(Path {
            vg: text_of(alloc, vg)?,
            lv: text_of(alloc, lv)?,
        })),
        None => Ok(None),
    }
}

// The bytes of a word.
fn text_of(alloc: Global, word: &[u8]) -> Result<Text, AllocError>
    ensures { IfOk result (λ text. text ≡ word.now) }
{
    Ok(Text::from_vec(Vec::from_slice(alloc, word)?))
}

// The bytes of each of these words.
fn names_of(alloc: Global, words: &[&[u8]]) -> Result<Names, AllocError>
    ensures { IfOk result (λ names. names ≡ words_in words.now) }
{
    let mut names = Vec::with_capacity(alloc, words.len())?;
    for word in words {
        names.push(text_of(alloc, word)?)?;
    }
    Ok(ItemList::from_vec(names))
}
