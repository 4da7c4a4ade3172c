//! The tables of the manual.
ghost use Rattle.std.specs.Prelude.{◌≡◌, map, IfOk};
ghost use Rattle.commands_manual.specs.Rows.{begins, is_wanted, missing, stands_once, unknown};

use std::alloc::{AllocError, Global};

/// The rows of the tables below this heading, each with its head and without the line below that. There are none where the
/// manual has no such heading.
pub fn rows_of<'a>(
    alloc: Global,
    manual: &'a str,
    heading: &str,
) -> Result<Vec<&'a str>, AllocError> {
    let mut rows = Vec::new(alloc);
    for line in section(manual, heading).lines() {
        if line.starts_with('|') && !line.starts_with("|-") {
            rows.push(line)?;
        }
    }
    Ok(rows)
}

// What stands below a heading, up to the next one of its rank.
fn section<'a>(manual: &'a str, heading: &str) -> &'a str {
    let Some((_, after)) = manual.split_once(heading) else {
        return "";
    };
    match after.split_once("\n## ") {
        Some((section, _)) => section,
        None => after,
    }
}

/// Those of the wanted rows that don't stand among the rows, or more than once.
pub fn missing<'a>(
    alloc: Global,
    wanted: &'a [String],
    rows: &[&str],
) -> Result<Vec<&'a String>, AllocError>
    ensures { IfOk result (λ found. map (λ row. row.now) found.items ≡ missing wanted.now rows.now) }
{
    let mut found = Vec::new(alloc);
    for row in wanted {
        if !stands_once(rows, row.as_str()) {
            found.push(row)?;
        }
    }
    Ok(found)
}

/// Those of the rows that aren't wanted.
pub fn unknown<'a>(
    alloc: Global,
    wanted: &[String],
    rows: &[&'a str],
) -> Result<Vec<&'a str>, AllocError>
    ensures { IfOk result (λ found. found.items ≡ unknown wanted.now rows.now) }
{
    let mut found = Vec::new(alloc);
    for row in rows {
        if !is_wanted(wanted, row) {
            found.push(*row)?;
        }
    }
    Ok(found)
}

// Whether exactly one of the rows begins so.
fn stands_once(rows: &[&str], front: &str) -> bool
    ensures { result ≡ stands_once rows.now front.now }
{
    let mut count = 0usize;
    for row in rows {
        if begins(row, front) {
            count += 1;
        }
    }
    count == 1
}

// Whether the row begins with one of these.
fn is_wanted(wanted: &[String], row: &str) -> bool
    ensures { result ≡ is_wanted wanted.now row.now }
{
    wanted.iter().any(|front| begins(row, front.as_str()))
}

// Whether the row begins so.
fn begins(row: &str, front: &str) -> bool
    ensures { result ≡ begins front.now row.now }
{
    row.as_bytes().starts_with(front.as_bytes())
}
