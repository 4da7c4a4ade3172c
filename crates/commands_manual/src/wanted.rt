//! The rows that the tables of the manual have to have.

use command_table::{CommandName, OptionKey};
use lvm_words::OtherCall;
use std::alloc::{AllocError, Global};

/// The rows of the table of commands, with its head.
pub fn command_rows(alloc: Global) -> Result<Vec<String>, AllocError> {
    let mut rows = Vec::new(alloc);
    rows.push(String::from_str(alloc, "| command | words | in scripts |")?)?;
    for name in CommandName::all() {
        let words = cell(alloc, name.synopsis())?;
        let row = format!(in alloc; "| {} |{words} | {} |", name.spelling(), in_scripts(*name))?;
        rows.push(row)?;
    }
    Ok(rows)
}

/// The rows of the table of the words for other calls, with its head.
pub fn call_rows(alloc: Global) -> Result<Vec<String>, AllocError> {
    let mut rows = Vec::new(alloc);
    rows.push(String::from_str(alloc, "| call | words |")?)?;
    for call in OtherCall::all() {
        let words = cell(alloc, call.synopsis())?;
        let row = format!(in alloc; "| {} |{words} |", call.spelling())?;
        rows.push(row)?;
    }
    Ok(rows)
}

/// How the rows of the table of options begin, with its head: what a value is stands behind that.
pub fn option_rows(alloc: Global) -> Result<Vec<String>, AllocError> {
    let mut rows = Vec::new(alloc);
    rows.push(String::from_str(alloc, "| option | letter | ")?)?;
    for name in CommandName::all() {
        for option in name.options() {
            let row = option_row(alloc, option.key)?;
            if !rows.contains(&row) {
                rows.push(row)?;
            }
        }
    }
    Ok(rows)
}

// How the row of an option begins.
fn option_row(alloc: Global, key: OptionKey) -> Result<String, AllocError> {
    let name = key.name();
    match key.letter() {
        Some(letter) => format!(in alloc; "| `--{name}` | `-{}` | ", char::from(letter)),
        None => format!(in alloc; "| `--{name}` | | "),
    }
}

// What stands between two bars: the words as code, where a bar is written behind a backslash, and nothing for no words.
fn cell(alloc: Global, words: &str) -> Result<String, AllocError> {
    let mut cell = String::new(alloc);
    if words.is_empty() {
        return Ok(cell);
    }
    cell.push_str(" `")?;
    for c in words.chars() {
        if c == '|' {
            cell.push('\\')?;
        }
        cell.push(c)?;
    }
    cell.push('`')?;
    Ok(cell)
}

// Whether a command stands in scripts, as the table says it.
fn in_scripts(name: CommandName) -> &'static str {
    if !name.is_for_words() {
        "only"
    } else if name.is_for_scripts() {
        "yes"
    } else {
        "no"
    }
}
