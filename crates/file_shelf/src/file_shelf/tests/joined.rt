//! Adjacent operations by one call.
use super::{
    Planned, counted_sectors, faults_of, file_that_fails, shelf_over, submit_flush, submit_read,
    submit_write,
};
use crate::file_shelf::FileShelf;
use disk_model::{Done, Op, Shelf};
use sector_base::{Sectors, Span};
use std::io::ErrorKind;
use std::process::Abort;

// The sector at which reads and writes fail.
const BAD: u64 = 300;

// The disk, the first sector and how many.
#[derive(Clone, Copy)]
enum Step {
    Read(u32, u64, u32),
    Write(u32, u64, u32),
    Flush,
}

use Step::{Flush, Read, Write};

fn submit(stop: &impl Abort, rt: &HostRuntime, shelf: &mut FileShelf<Planned>, step: Step) {
    let tag = match step {
        Read(pv, first, count) => {
            let buffer = Sectors::zeroed(rt.alloc(), count).expect(stop, "memory");
            submit_read(stop, shelf, Span { pv, first, count }, buffer)
        }
        Write(pv, first, count) => {
            let sectors = counted_sectors(rt.alloc(), first, count).expect(stop, "memory");
            submit_write(stop, shelf, Span { pv, first, count }, sectors)
        }
        Flush => submit_flush(stop, shelf, 0),
    };
    tag.expect(stop, "memory");
}

// Stops unless the next operation has the tag, went well unless it begins at the bad sector, and was told what is written there.
fn assert_told(stop: &impl Abort, rt: &HostRuntime, shelf: &mut FileShelf<Planned>, wanted: u64) {
    let Done { tag, op, well } = shelf.settle().expect(stop, "an operation");
    assert_eq!(stop; tag, wanted);
    match op {
        Op::Read(span, buffer) => {
            let written = counted_sectors(rt.alloc(), span.first, span.count);
            let written = written.expect(stop, "memory").into_vec();
            assert!(stop; well == (span.first != BAD));
            assert!(stop; !well || buffer.into_vec() == written);
        }
        Op::Write(span, _) => assert!(stop; well == (span.first != BAD)),
        Op::Flush(_) => assert!(stop; well),
    }
}

// A file that does all that is asked by one call, but where the bad sector is part of it.
fn file_of_calls(stop: &impl Abort, rt: &HostRuntime) -> Planned {
    let bad = BAD * 512..(BAD + 1) * 512;
    let mut file = file_that_fails(stop, rt, bad, true, ErrorKind::Other);
    file.most = usize::MAX;
    file
}

// Each three operations take so many calls of the first file.
#[test]
fn joins_what_is_adjacent(rt: HostRuntime) {
    let (first, second) = (file_of_calls(&rt, &rt), file_of_calls(&rt, &rt));
    let mut shelf = shelf_over(rt.alloc(), first, second).expect(&rt, "memory");
    let cases = [
        ([Write(0, 0, 8), Write(0, 8, 8), Write(0, 16, 1)], 1),
        ([Read(0, 0, 3), Read(0, 3, 8), Read(0, 11, 1)], 1),
        ([Write(0, 0, 8), Read(0, 8, 4), Read(0, 12, 4)], 2),
        ([Write(0, 0, 8), Write(0, 9, 8), Write(0, 18, 8)], 3),
        ([Write(0, 0, 8), Write(1, 8, 8), Write(0, 16, 8)], 2),
        ([Write(0, 0, 8), Flush, Write(0, 8, 8)], 2),
        ([Write(0, 0, 100), Write(0, 100, 28), Write(0, 128, 1)], 2),
        ([Write(0, 292, 8), Write(0, 300, 8), Write(0, 308, 8)], 4),
        ([Read(0, 292, 8), Read(0, 300, 8), Read(0, 308, 8)], 4),
    ];
    let mut tag: u64 = 0;
    for (steps, wanted) in &cases {
        for step in steps {
            submit(&rt, &rt, &mut shelf, *step);
        }
        for _ in steps {
            assert_told(&rt, &rt, &mut shelf, tag);
            tag = tag.saturating_add(1);
        }
        let calls = shelf.images.get(0).map(|image| image.file.calls.take());
        assert!(rt; calls == Some(*wanted));
    }
    assert_eq!(rt; faults_of(&rt, &shelf, 0), 2);
}
