//! What is told on standard error about words that were refused.
use command_table::{CommandName, Fault, LineFault};
use lvm_run::BUILT;
use lvm_words::{OtherCall, WordsFault, disk_names, fault_of_command_line};
use std::alloc::{AllocError, Global};

/// Which of these words is at fault, and how the command is used; or all commands, a line each, where there is none among the
/// words or they ask for help. Only memory can be wanting.
pub fn usage_text(alloc: Global, words: &[String]) -> Result<String, AllocError> {
    let mut text = String::new(alloc);
    if words.iter().any(|word| word.as_str() == "--help") {
        push_commands(&mut text)?;
        return Ok(text);
    }
    match fault_of_command_line(alloc, words)? {
        Some(WordsFault::Disks) => {
            text.push_str(
                "lvm: 1 to 64 pairs -d NAME have to stand first, with different names\n",
            )?;
            push_commands(&mut text)?;
        }
        Some(WordsFault::Command(fault, place)) => {
            let front = words_of_pairs(alloc, words);
            let word = words.get(front.saturating_add(place as usize));
            push_fault(&mut text, words.get(front), word, fault)?;
        }
        None => {
            text.push_str("lvm: this doesn't run yet\n")?;
            text.push_str(BUILT)?;
        }
    }
    Ok(text)
}

// How many words the pairs `-d NAME` at the front are.
fn words_of_pairs(alloc: Global, words: &[String]) -> usize {
    match disk_names(alloc, words) {
        Ok(names) => names.len().saturating_mul(2),
        Err(_) => 0,
    }
}

// Adds the fault of a word, or of all words together, and how their command, the first of them, is used.
fn push_fault(
    text: &mut String,
    first: Option<&String>,
    word: Option<&String>,
    fault: LineFault,
) -> Result<(), AllocError> {
    let Some(first) = first else {
        return push_commands(text);
    };
    if let Some(call) = OtherCall::named(first.as_bytes()) {
        text.push_str("lvm: this doesn't run yet\n")?;
        push_usage(text, call.spelling(), call.synopsis())?;
        return text.push_str(BUILT);
    }
    text.push_str("lvm: ")?;
    if let Some(word) = word {
        text.push_str(word.as_str())?;
        text.push(' ')?;
    }
    text.push_str(text_of(fault, word))?;
    text.push('\n')?;
    match CommandName::named(first.as_bytes()) {
        Some(name) if name.is_for_words() => push_usage(text, name.spelling(), name.synopsis()),
        _ => push_commands(text),
    }
}

// Adds all commands, and the words for other calls, a line each, and which commands run.
fn push_commands(text: &mut String) -> Result<(), AllocError> {
    for name in CommandName::all() {
        if name.is_for_words() {
            push_usage(text, name.spelling(), name.synopsis())?;
        }
    }
    for call in OtherCall::all() {
        push_usage(text, call.spelling(), call.synopsis())?;
    }
    text.push_str(BUILT)
}

// Adds how a command of this name with these words is used.
fn push_usage(text: &mut String, name: &str, words: &str) -> Result<(), AllocError> {
    text.push_str("usage: lvm -d NAME [-d NAME ...] ")?;
    text.push_str(name)?;
    if !words.is_empty() {
        text.push(' ')?;
        text.push_str(words)?;
    }
    text.push('\n')
}

// Whether the word is a number or a size behind a minus.
fn is_negative(word: &String) -> bool {
    matches!(word.as_bytes(), [b'-', b'0'..=b'9', ..])
}

// What is said of this faulty word behind it, or alone of words that are wrong as a whole.
fn text_of(fault: LineFault, word: Option<&String>) -> &'static str {
    match fault {
        LineFault::UnknownWord => "is no command",
        LineFault::NotHere => "stands in scripts alone",
        LineFault::Faulty(Fault::BadOption) if word.is_some_and(is_negative) => {
            "has a minus: a number or size says here how much there is to be, and not how much less"
        }
        LineFault::Faulty(Fault::BadOption) => {
            "is no option of the command, stands a second time, or is no policy of allocation"
        }
        LineFault::Faulty(Fault::BadNumber) => "isn't the number or size that has to stand here",
        LineFault::Faulty(Fault::BadCount) => "is outside of what is allowed here",
        LineFault::Faulty(Fault::BadName) => "isn't the name that has to stand here",
        LineFault::Faulty(Fault::BadHex) => "has a byte that is no hex digit",
        LineFault::WrongWords => "too few or too many words, or words that don't go together",
        LineFault::SessionFull => "is more than a session takes",
    }
}
