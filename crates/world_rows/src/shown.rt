//! What is shown of a run. The text counts its faults, which are asked for at the end.
use byte_streams::{TextBuffer, write_bytes, write_number};
use claim_table::By;
use io_core::Begun;
use line_table::{Answers, EntryKind, Journal};

/// Shows how the line with this number was begun.
pub fn show_begun(out: &mut TextBuffer, number: u64, begun: Begun) {
    let _ = write_number(out, number);
    match begun {
        Begun::Answered => show(out, b": answered\n"),
        Begun::Started => show(out, b": started\n"),
        Begun::Deferred(By::Piece(piece)) => {
            show(out, b": deferred by piece ");
            let _ = write_number(out, piece);
            show(out, b"\n");
        }
        Begun::Deferred(_) => show(out, b": deferred\n"),
    }
}

/// Shows that an operation has completed, and the lines that were answered since there were so many entries.
pub fn show_answered(out: &mut TextBuffer, journal: &Journal, answers: &Answers, entries: usize) {
    show(out, b"completed");
    for entry in journal.iter().skip(entries) {
        if entry.kind == EntryKind::Answered {
            show_number(out, answers, entry.line);
        }
    }
    show(out, b"\n");
}

// Shows the number of the line at this place.
fn show_number(out: &mut TextBuffer, answers: &Answers, line: u32) {
    if let Some(row) = answers.get(line as usize) {
        show(out, b" ");
        let _ = write_number(out, row.0);
    }
}

// Shows these bytes.
fn show(out: &mut TextBuffer, bytes: &[u8]) {
    let _ = write_bytes(out, bytes);
}
