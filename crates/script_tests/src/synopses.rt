//! The words of the manual against the tables.
use command_table::{CommandName, Kind, OptionKey};
use lvm_words::OtherCall;
use std::alloc::{AllocError, Global};
use std::test::Fail;

/// The word without brackets.
fn bare(word: &str) -> &str {
    word.trim_matches(|c| matches!(c, '[' | ']' | '(' | ')'))
}

/// Whether the word is the option in its short spelling, or in the long one where it has no letter.
fn is_spelled(key: OptionKey, word: &str) -> bool {
    key.spells(word.as_bytes()) && (key.letter().is_none() || !word.starts_with("--"))
}

/// Whether the manual writes the word for an argument of this kind.
fn stands_for(word: &str, kind: Kind) -> bool {
    match kind {
        Kind::Disk => word == "PV",
        Kind::Group => word == "VG" || word == "NEW",
        Kind::Volume => word == "OLD" || word == "NEW",
        Kind::Path => word == "VG/LV",
        Kind::Number(_, _) => matches!(
            word,
            "SEED" | "LINES" | "WORKERS" | "START" | "COUNT" | "VALUE"
        ),
        Kind::Hex => word == "HEX",
        _ => false,
    }
}

#[test]
fn names_exactly_the_options(rt: HostRuntime) -> Result<(), Fail> {
    for name in CommandName::all() {
        let words = name.synopsis();
        let dashed = words
            .split_whitespace()
            .filter(|word| bare(word).starts_with('-'));
        assert_eq!(rt; dashed.count(), name.options().len(), "{}", name.spelling());
        for row in name.options() {
            let found = words
                .split_whitespace()
                .filter(|word| is_spelled(row.key, bare(word)));
            assert_eq!(rt; found.count(), 1, "{}", name.spelling());
        }
    }
    Ok(())
}

/// The words that stand for arguments: neither options nor their values.
fn arguments_of<'a>(alloc: Global, words: &'a str) -> Result<Vec<&'a str>, AllocError> {
    let mut arguments = Vec::new(alloc);
    let mut is_value = false;
    for word in words.split_whitespace() {
        let word = bare(word);
        if word.starts_with('-') {
            is_value = !matches!(
                word,
                "--abort" | "--disk-threads" | "--status" | "--through"
            );
        } else if is_value {
            is_value = false;
        } else if word != "|" && word != "..." {
            arguments.push(word)?;
        }
    }
    Ok(arguments)
}

#[test]
fn names_exactly_the_arguments(rt: HostRuntime) -> Result<(), Fail> {
    for name in CommandName::all() {
        let words = name.synopsis();
        let arguments = arguments_of(rt.alloc(), words)?;
        for (number, word) in arguments.iter().enumerate() {
            let kind = name.argument(number).ok_or("an argument too many")?;
            assert!(rt; stands_for(word, kind), "{} {word}", name.spelling());
        }
        let more = name.argument(arguments.len());
        assert_eq!(rt;
            more.is_some(),
            words.contains("..."),
            "{}",
            name.spelling()
        );
    }
    Ok(())
}

#[test]
fn other_calls_name_exactly_their_arguments(rt: HostRuntime) -> Result<(), Fail> {
    for call in OtherCall::all() {
        let kinds = call.arguments();
        let others = kinds.iter().filter(|kind| **kind != Kind::Path);
        assert_eq!(rt; others.count(), 0, "{}", call.spelling());
        let words = call.synopsis().split_whitespace();
        assert_eq!(rt; words.count(), kinds.len(), "{}", call.spelling());
        let paths = call
            .synopsis()
            .split_whitespace()
            .filter(|word| word.starts_with("VG/"));
        assert_eq!(rt; paths.count(), kinds.len(), "{}", call.spelling());
    }
    Ok(())
}

#[test]
fn no_other_call_is_named_as_a_command(rt: HostRuntime) -> Result<(), Fail> {
    for call in OtherCall::all() {
        let command = CommandName::named(call.spelling().as_bytes());
        assert_eq!(rt; command, None, "{}", call.spelling());
    }
    Ok(())
}
