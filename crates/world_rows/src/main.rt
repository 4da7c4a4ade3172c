//! Runs a script in a world over one disk in memory, the oldest of whose operations completes first.
//!
//! `disk.hex` says the disk in lines of a place and the bytes there; all others are zeros. It was made by `lvm -d a pvcreate a`,
//! `lvm -d a vgcreate -s 8s vg0 a` and `lvm -d a lvcreate -n data -l 16 vg0` of a file of 2,304 sectors, and then
//! `od -v -A d -t x1 -w32 a | grep -v '\( 00\)\{32\}$' | sed 's/ //2g;$d'`.
//!
//! The script comes from standard input. Each of its lines is begun as soon as it may be, and what `begin` says of it is printed behind
//! its number. For each operation that completes the lines are printed that are answered then. At the end the answers follow.
#![tactic(auto)]

mod image;
mod lines;
mod opening;
mod script;
mod shown;

use byte_streams::{Sink, TextBuffer};
use disk_model::Shelf;
use image::disk_of;
use io_core::World;
use line_answers::DiskNames;
use lines::run_lines;
use lvm_report::write_answers;
use lvm_script::Line;
use opening::open_world;
use script::lines_of;
use std::alloc::Global;
use std::io::{ErrorKind, Write};
use std::{fs, io};

fn main(rt: HostRuntime) -> io::Result<()> {
    let image = fs::read_to_string(&rt, "disk.hex")?;
    let script = io::read_to_string(rt.alloc(), rt.reader())?;
    let mut out = TextBuffer::new(rt.alloc());
    run(rt.alloc(), image.as_str(), script, &mut out)?;
    io::writer(&rt).write_all(out.as_bytes())
}

// Runs the script on the disk that this text says.
fn run(alloc: Global, image: &str, script: String, out: &mut TextBuffer) -> io::Result<()> {
    let mut lines = lines_of(alloc, script)?;
    let ran = run_on_disk(alloc, image, &mut lines, out);
    if out.faults() > 0 {
        return Err(io::Error::from(ErrorKind::OutOfMemory));
    }
    ran
}

// Runs the lines, the last of which comes first, on that disk.
fn run_on_disk(
    alloc: Global,
    image: &str,
    lines: &mut Vec<Line>,
    out: &mut TextBuffer,
) -> io::Result<()> {
    let disk = disk_of(alloc, image)?;
    let mut world = open_world(alloc, disk)?;
    let ran = run_lines(&mut world, lines, out);
    let names = DiskNames::from_vec(Vec::new(alloc));
    let _ = write_answers(out, world.answers(), &names);
    end(world);
    ran
}

// Ends the world.
fn end<S: Shelf + Drop>(world: World<S>) {
    let _ = world.finish();
}
