//! The lines of a script are begun, and operations complete.
use crate::shown::{show_answered, show_begun};
use byte_streams::TextBuffer;
use disk_model::Shelf;
use io_core::{Begun, DataLine, World};
use lvm_script::Line;
use std::io;

/// Begins each of the lines, the last of which comes first, as soon as it may be, and completes operations until all are answered.
/// What comes of each call is shown.
pub fn run_lines<S: Shelf>(
    world: &mut World<S>,
    lines: &mut Vec<Line>,
    out: &mut TextBuffer,
) -> io::Result<()> {
    while let Some(line) = lines.pop() {
        let number = line.number;
        let begun = begin_line(world, line, out)?;
        show_begun(out, number, begun);
    }
    finish(world, out);
    Ok(())
}

// Begins the line as soon as it may be.
fn begin_line<S: Shelf>(
    world: &mut World<S>,
    line: Line,
    out: &mut TextBuffer,
) -> io::Result<Begun> {
    match DataLine::new(line) {
        Ok(line) => begin_data_line(world, line, out),
        Err(line) => Err(not_of_a_world(line)),
    }
}

fn begin_data_line<S: Shelf>(
    world: &mut World<S>,
    line: DataLine,
    out: &mut TextBuffer,
) -> io::Result<Begun> {
    wait_for(world, &line, out);
    match begin(world, line) {
        Ok(begun) => Ok(begun),
        Err(line) => Err(not_begun(line)),
    }
}

// The line isn't one that a world runs.
fn not_of_a_world(_line: Line) -> io::Error {
    io::Error::other("a line isn't one of a world")
}

// The line may not begin, or memory is wanting for it.
fn not_begun(_line: DataLine) -> io::Error {
    io::Error::other("a line can't begin")
}

// Begins the line, which comes back where it may not begin or memory is wanting for it.
fn begin<S: Shelf>(world: &mut World<S>, line: DataLine) -> Result<Begun, DataLine> {
    if !world.may_begin(&line) {
        return Err(line);
    }
    match world.begin(line) {
        Ok(begun) => Ok(begun),
        Err(refused) => Err(refused.line),
    }
}

// Completes operations until the line may begin.
fn wait_for<S: Shelf>(world: &mut World<S>, line: &DataLine, out: &mut TextBuffer) {
    for _ in 0..u64::MAX {
        let entries = world.journal().len();
        if world.may_begin(line) || !world.settle() {
            break;
        }
        show_answered(out, world.journal(), world.answers(), entries);
    }
}

// Completes operations that are ready until each line is answered.
fn finish<S: Shelf>(world: &mut World<S>, out: &mut TextBuffer) {
    for _ in 0..u64::MAX {
        let entries = world.journal().len();
        if world.is_done() || !world.turn() {
            break;
        }
        show_answered(out, world.journal(), world.answers(), entries);
    }
}
