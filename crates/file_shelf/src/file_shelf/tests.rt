//! Real files and files that fail, through the bound. How locks are waited for is tried on the built program.
ghost use Rattle.std.specs.Prelude.{◌≤◌, IfOk};

mod joined;

use super::FileShelf;
use crate::OpenFault;
use crate::image::{Access, Image, Node};
use disk_model::{Done, Op, Shelf};
use sector_base::{Bytes512, Sectors, Span};
use std::alloc::{AllocError, Global};
use std::cell::Cell;
use std::fs::{File, Files, Metadata, OpenFile, OpenOptions};
use std::io::ErrorKind;
use std::ops::Range;
use std::os::unix::fs::{FileExt, symlink};
use std::process::Abort;
use std::{fs, io, process};

// The name of a file of this test alone.
fn name_of(rt: &HostRuntime, what: &str) -> Result<String, AllocError> {
    let id = process::id(rt.process());
    format!(in rt.alloc(); "/tmp/file_shelf_{id}_{what}")
}

// Sectors that differ from their neighbours, from this one on.
fn counted_sectors(alloc: Global, first: u64, count: u32) -> Result<Sectors, AllocError> {
    let mut list = Vec::new(alloc);
    for k in 0..u64::from(count) {
        list.push(Bytes512::new([(first.saturating_add(k) % 251) as u8; 512]))?;
    }
    Ok(Sectors::from_vec(list))
}

fn submit_read<S: Shelf>(
    rt: &impl Abort,
    shelf: &mut S,
    span: Span,
    buffer: Sectors,
) -> Result<u64, AllocError> {
    assert!(rt; span.pv < shelf.count());
    let disk = shelf.sectors(span.pv);
    assert!(rt; u64::from(span.count) <= disk);
    assert!(rt; span.first <= disk - u64::from(span.count));
    assert_eq!(rt; buffer.len(), span.count as usize);
    shelf.reserve(1, u64::from(span.count))?;
    Ok(shelf.submit(Op::Read(span, buffer)))
}

fn submit_write<S: Shelf>(
    rt: &impl Abort,
    shelf: &mut S,
    span: Span,
    sectors: Sectors,
) -> Result<u64, AllocError> {
    assert!(rt; span.pv < shelf.count());
    let disk = shelf.sectors(span.pv);
    assert!(rt; u64::from(span.count) <= disk);
    assert!(rt; span.first <= disk - u64::from(span.count));
    assert_eq!(rt; sectors.len(), span.count as usize);
    shelf.reserve(1, u64::from(span.count))?;
    Ok(shelf.submit(Op::Write(span, sectors)))
}

fn submit_flush<S: Shelf>(rt: &impl Abort, shelf: &mut S, pv: u32) -> Result<u64, AllocError> {
    assert!(rt; pv < shelf.count());
    shelf.reserve(1, 0)?;
    Ok(shelf.submit(Op::Flush(pv)))
}

// The tag of the next completion, whether it went well, and the sectors of a read.
fn settle_one<S: Shelf>(shelf: &mut S) -> Option<(u64, bool, Option<Sectors>)> {
    let Done { tag, op, well } = shelf.settle()?;
    let read = match op {
        Op::Read(_span, buffer) => Some(buffer),
        Op::Write(_span, _sectors) => None,
        Op::Flush(_pv) => None,
    };
    Some((tag, well, read))
}

fn faults_of<S: Shelf>(rt: &impl Abort, shelf: &S, pv: u32) -> u64 {
    assert!(rt; pv < shelf.count());
    shelf.faults(pv)
}

// Opens the files as a run with this access does.
fn open_for(
    rt: &HostRuntime,
    access: Access,
    names: &Vec<String>,
) -> Result<FileShelf<File>, OpenFault> {
    match access {
        Access::Read => FileShelf::open_to_read(rt, rt.alloc(), names),
        Access::Change => FileShelf::open(rt, rt.alloc(), names),
    }
}

// Why the files can't be opened, and nothing where they can.
fn fault_of(rt: &HostRuntime, access: Access, names: &Vec<String>) -> Result<String, AllocError> {
    match open_for(rt, access, names) {
        Ok(_) => Ok(String::new(rt.alloc())),
        Err(fault) => format!(in rt.alloc(); "{fault}"),
    }
}

// A file of this test alone, with so many bytes, all the same.
fn file_of(stop: &impl Abort, rt: &HostRuntime, what: &str, byte: u8, len: usize) -> String {
    let name = name_of(rt, what).expect(stop, "memory");
    let bytes = vec![in rt.alloc(); byte; len].expect(stop, "memory");
    fs::write(rt, name.as_str(), bytes).expect(stop, "a file");
    name
}

fn removed(stop: &impl Abort, rt: &HostRuntime, name: &str) {
    fs::remove_file(rt, name).expect(stop, "the file is there");
}

fn one_name(alloc: Global, name: &str) -> Result<Vec<String>, AllocError> {
    let mut names = Vec::new(alloc);
    names.push(String::from_str(alloc, name)?)?;
    Ok(names)
}

fn two_names(alloc: Global, first: &str, second: &str) -> Result<Vec<String>, AllocError> {
    let mut names = one_name(alloc, first)?;
    names.push(String::from_str(alloc, second)?)?;
    Ok(names)
}

// Whether a read of these sectors goes well.
fn read_one<S: Shelf>(stop: &impl Abort, rt: &HostRuntime, shelf: &mut S, span: Span) -> bool {
    let buffer = Sectors::zeroed(rt.alloc(), span.count).expect(stop, "memory");
    let tag = submit_read(stop, shelf, span, buffer).expect(stop, "memory");
    let (done, well, _) = settle_one(shelf).expect(stop, "a read");
    assert_eq!(stop; done, tag);
    well
}

// The span that is written.
const WRITTEN: Span = Span {
    pv: 0,
    first: 5,
    count: 4_200,
};

// What is written to the span, flushed and read back: three operations, of which each completes in its turn.
fn write_and_read<S: Shelf>(stop: &impl Abort, rt: &HostRuntime, shelf: &mut S) -> Sectors {
    let sectors = counted_sectors(rt.alloc(), 0, 4_200).expect(stop, "memory");
    let written = submit_write(stop, shelf, WRITTEN, sectors).expect(stop, "memory");
    let flushed = submit_flush(stop, shelf, 0).expect(stop, "memory");
    let buffer = Sectors::zeroed(rt.alloc(), 4_200).expect(stop, "memory");
    let read = submit_read(stop, shelf, WRITTEN, buffer).expect(stop, "memory");
    assert_well(stop, shelf, written);
    assert_well(stop, shelf, flushed);
    let (tag, well, buffer) = settle_one(shelf).expect(stop, "a read");
    assert!(stop; tag == read && well);
    buffer.expect(stop, "a buffer")
}

// Stops unless the next completion has the tag and went well.
fn assert_well<S: Shelf>(rt: &impl Abort, shelf: &mut S, wanted: u64) {
    let (tag, well, _) = settle_one(shelf).expect(rt, "a completion");
    assert!(rt; tag == wanted && well);
}

// The byte of the file that was written.
fn byte_at(at: usize) -> u8 {
    let sector = at / 512;
    if sector >= 5 && sector < 4_205 {
        ((sector - 5) % 251) as u8
    } else {
        7
    }
}

// Stops unless the file has what was written at its place, and what it had elsewhere.
fn assert_written(stop: &impl Abort, rt: &HostRuntime, name: &str) {
    let bytes = fs::read(rt, name).expect(stop, "the file is there");
    assert_eq!(stop; bytes.len(), 4_300 * 512 + 100);
    for (at, byte) in bytes.iter().enumerate() {
        assert!(stop; *byte == byte_at(at));
    }
}

// What was written to 4,200 sectors of a file of 4,300 is read back, and stands at its place in the file.
#[test]
fn reads_back_what_was_written(rt: HostRuntime) {
    let name = file_of(&rt, &rt, "written", 7, 4_300 * 512 + 100);
    let names = one_name(rt.alloc(), name.as_str()).expect(&rt, "memory");
    let mut shelf = FileShelf::open(&rt, rt.alloc(), &names).expect(&rt, "a shelf");
    assert!(rt; shelf.count() == 1);
    assert!(rt; shelf.sectors(0) == 4_300);
    let read = write_and_read(&rt, &rt, &mut shelf);
    let wanted = counted_sectors(rt.alloc(), 0, 4_200).expect(&rt, "memory");
    assert!(rt; read.into_vec() == wanted.into_vec());
    assert!(rt; shelf.settle().is_none());
    assert_eq!(rt; shelf.steps(), 6);
    assert_written(&rt, &rt, name.as_str());
    removed(&rt, &rt, name.as_str());
}

// Stops unless a read of the last sector of this disk goes so, and these are the faults of the disk 1 then.
fn assert_read(
    stop: &impl Abort,
    rt: &HostRuntime,
    shelf: &mut FileShelf<File>,
    pv: u32,
    well: bool,
    faults: u64,
) {
    let span = Span {
        pv,
        first: 7,
        count: 1,
    };
    assert!(stop; read_one(stop, rt, shelf, span) == well);
    assert_eq!(stop; faults_of(stop, shelf, 0), 0);
    assert_eq!(stop; faults_of(stop, shelf, 1), faults);
}

// A read fails where the file has become shorter, and counts as a fault of its disk alone.
#[test]
fn counts_the_fault_of_a_short_file(rt: HostRuntime) {
    let whole = file_of(&rt, &rt, "whole", 1, 8 * 512);
    let cut = file_of(&rt, &rt, "cut", 2, 8 * 512);
    let names = two_names(rt.alloc(), whole.as_str(), cut.as_str()).expect(&rt, "memory");
    let mut shelf = FileShelf::open_to_read(&rt, rt.alloc(), &names).expect(&rt, "a shelf");
    file_of(&rt, &rt, "cut", 3, 7 * 512);
    assert_read(&rt, &rt, &mut shelf, 1, false, 1);
    assert_read(&rt, &rt, &mut shelf, 0, true, 1);
    assert_read(&rt, &rt, &mut shelf, 1, false, 2);
    removed(&rt, &rt, whole.as_str());
    removed(&rt, &rt, cut.as_str());
}

// Stops unless the two files can't be opened in either way, by the fault of this one.
fn assert_fault(
    stop: &impl Abort,
    rt: &HostRuntime,
    first: &str,
    second: &str,
    number: u32,
    cause: &str,
) {
    let names = two_names(rt.alloc(), first, second).expect(stop, "memory");
    let wanted = format!(in rt.alloc(); "file {number} can't be opened as a disk: {cause}");
    let wanted = wanted.expect(stop, "memory");
    let read = fault_of(rt, Access::Read, &names).expect(stop, "memory");
    assert_eq!(stop; read.as_str(), wanted.as_str());
    let change = fault_of(rt, Access::Change, &names).expect(stop, "memory");
    assert_eq!(stop; change.as_str(), wanted.as_str());
}

// The first file at fault is named, with its cause, whether it is opened to be changed or to be read. Each is opened before
// one is measured.
#[test]
fn names_the_first_file_at_fault(rt: HostRuntime) {
    let small = file_of(&rt, &rt, "small", 0, 8 * 512 - 1);
    let least = file_of(&rt, &rt, "least", 0, 8 * 512);
    let missing = name_of(&rt, "missing").expect(&rt, "memory");
    let (small, least, missing) = (small.as_str(), least.as_str(), missing.as_str());
    let few = "too small: 7 sectors of 512 bytes, and a disk has at least 8";
    let absent = "No such file or directory (os error 2)";
    assert_fault(&rt, &rt, small, least, 0, few);
    assert_fault(&rt, &rt, least, small, 1, few);
    assert_fault(&rt, &rt, small, missing, 1, absent);
    assert_fault(&rt, &rt, missing, small, 0, absent);
    assert_fault(&rt, &rt, least, missing, 1, absent);
    assert_fault(&rt, &rt, least, "/dev/null", 1, "not a regular file");
    assert_fault(&rt, &rt, "/tmp", least, 0, "not a regular file");
    removed(&rt, &rt, small);
    removed(&rt, &rt, least);
}

// A file is named twice, by its own name or by another one.
#[test]
fn names_the_file_that_is_named_twice(rt: HostRuntime) {
    let file = file_of(&rt, &rt, "named", 0, 8 * 512);
    let linked = name_of(&rt, "linked").expect(&rt, "memory");
    let pointed = name_of(&rt, "pointed").expect(&rt, "memory");
    let (file, linked, pointed) = (file.as_str(), linked.as_str(), pointed.as_str());
    fs::hard_link(&rt, file, linked).expect(&rt, "a link");
    symlink(&rt, file, pointed).expect(&rt, "a link");
    let twice = "the same file is named twice";
    assert_fault(&rt, &rt, file, file, 1, twice);
    assert_fault(&rt, &rt, linked, file, 1, twice);
    assert_fault(&rt, &rt, file, pointed, 1, twice);
    removed(&rt, &rt, file);
    removed(&rt, &rt, linked);
    removed(&rt, &rt, pointed);
}

// How the file is locked, as another one who opens it sees it.
fn lock_of(rt: &impl Files<File = File>, name: &str) -> io::Result<&'static str> {
    let other = File::open(rt, name)?;
    if other.try_lock().is_ok() {
        Ok("free")
    } else if other.try_lock_shared().is_ok() {
        Ok("shared")
    } else {
        Ok("alone")
    }
}

// Stops unless both files are locked so.
fn assert_locked(stop: &impl Abort, rt: &HostRuntime, first: &str, second: &str, wanted: &str) {
    let lock = lock_of(rt, first).expect(stop, "a file");
    assert_eq!(stop; lock, wanted);
    let lock = lock_of(rt, second).expect(stop, "a file");
    assert_eq!(stop; lock, wanted);
}

// Each file is locked as the access wants, as long as the shelf is there.
#[test]
fn locks_each_file(rt: HostRuntime) {
    let first = file_of(&rt, &rt, "locked", 0, 8 * 512);
    let second = file_of(&rt, &rt, "locked_too", 0, 8 * 512);
    let (first, second) = (first.as_str(), second.as_str());
    let names = two_names(rt.alloc(), first, second).expect(&rt, "memory");
    let held = FileShelf::open_to_read(&rt, rt.alloc(), &names).expect(&rt, "a shelf");
    assert_locked(&rt, &rt, first, second, "shared");
    drop(held);
    assert_locked(&rt, &rt, first, second, "free");
    let held = FileShelf::open(&rt, rt.alloc(), &names).expect(&rt, "a shelf");
    assert_locked(&rt, &rt, first, second, "alone");
    drop(held);
    assert_locked(&rt, &rt, first, second, "free");
    removed(&rt, &rt, first);
    removed(&rt, &rt, second);
}

// A file that is opened to be read can't be written.
#[test]
fn writes_no_file_that_is_opened_to_be_read(rt: HostRuntime) {
    let name = file_of(&rt, &rt, "kept", 5, 8 * 512);
    let names = one_name(rt.alloc(), name.as_str()).expect(&rt, "memory");
    let mut shelf = FileShelf::open_to_read(&rt, rt.alloc(), &names).expect(&rt, "a shelf");
    let span = Span {
        pv: 0,
        first: 0,
        count: 8,
    };
    assert!(rt; read_one(&rt, &rt, &mut shelf, span));
    let sectors = Sectors::zeroed(rt.alloc(), 8).expect(&rt, "memory");
    submit_write(&rt, &mut shelf, span, sectors).expect(&rt, "memory");
    let (_, well, _) = settle_one(&mut shelf).expect(&rt, "a write");
    assert!(rt; !well);
    assert_eq!(rt; faults_of(&rt, &shelf, 0), 1);
    removed(&rt, &rt, name.as_str());
}

// A file that fails by plan, with an error of this kind: its reads and writes that meet these bytes, or its sync. The rest goes
// well, and each read and write takes so many bytes at most. It counts them, and the bytes that were written and read.
#[derive(Drop)]
struct Planned {
    file: File,
    fails: Range<u64>,
    sync: bool,
    kind: ErrorKind,
    most: usize,
    calls: Cell<u64>,
    written: Cell<u64>,
    read: Cell<u64>,
}

// A file of 512 sectors, whose name is gone.
fn file_that_fails(
    stop: &impl Abort,
    rt: &HostRuntime,
    fails: Range<u64>,
    sync: bool,
    kind: ErrorKind,
) -> Planned {
    let name = file_of(stop, rt, "planned", 7, 512 * 512);
    let name = name.as_str();
    let file = OpenOptions::new().read(true).write(true).open(rt, name);
    removed(stop, rt, name);
    Planned {
        file: file.expect(stop, "a file"),
        fails,
        sync,
        kind,
        most: 1_000,
        calls: Cell::new(0),
        written: Cell::new(0),
        read: Cell::new(0),
    }
}

impl Planned {
    // How many bytes a read or a write of so many does.
    fn called(&self, len: usize, offset: u64) -> io::Result<usize>
        ensures { IfOk result (λ n. n ≤ len) }
    {
        self.calls.set(self.calls.get().saturating_add(1));
        let n = len.min(self.most);
        let end = offset.saturating_add(n as u64);
        self.well_or_not(end <= self.fails.start || self.fails.end <= offset)?;
        Ok(n)
    }

    fn well_or_not(&self, well: bool) -> io::Result<()> {
        if well {
            Ok(())
        } else {
            Err(io::Error::from(self.kind))
        }
    }
}

impl FileExt for Planned {
    fn read_at(&self, buf: &mut [u8], offset: u64) -> io::Result<usize> {
        let n = self.called(buf.len(), offset)?;
        self.read.set(self.read.get().saturating_add(n as u64));
        self.file.read_at(&mut buf[..n], offset)
    }

    fn write_at(&self, buf: &[u8], offset: u64) -> io::Result<usize> {
        let n = self.called(buf.len(), offset)?;
        self.written
            .set(self.written.get().saturating_add(n as u64));
        self.file.write_at(&buf[..n], offset)
    }
}

impl OpenFile for Planned {
    fn metadata(&self) -> io::Result<Metadata> {
        Ok(Metadata::of_file(512 * 512))
    }

    fn set_len(&self, _size: u64) -> io::Result<()> {
        Ok(())
    }

    fn sync_all(&self) -> io::Result<()> {
        self.well_or_not(self.sync)
    }

    fn sync_data(&self) -> io::Result<()> {
        Ok(())
    }
}

// A shelf of these files, as two of 512 sectors.
fn shelf_over(
    alloc: Global,
    first: Planned,
    second: Planned,
) -> Result<FileShelf<Planned>, AllocError> {
    let node = Node {
        device: 0,
        inode: 0,
    };
    let first = Image {
        file: first,
        node,
        sectors: 512,
    };
    let second = Image {
        file: second,
        node,
        sectors: 512,
    };
    FileShelf::over(alloc, vec![in alloc; first, second]?)
}

// How many bytes of the file were written and read.
fn bytes_of(shelf: &FileShelf<Planned>, at: usize) -> Option<(u64, u64)> {
    let image = shelf.images.get(at)?;
    Some((image.file.written.get(), image.file.read.get()))
}

// Whether a write, a flush and a read of so many first sectors of the disk go well.
fn three_of(
    stop: &impl Abort,
    rt: &HostRuntime,
    shelf: &mut FileShelf<Planned>,
    pv: u32,
    count: u32,
) -> [bool; 3] {
    let span = Span {
        pv,
        first: 0,
        count,
    };
    let sectors = Sectors::zeroed(rt.alloc(), count).expect(stop, "memory");
    submit_write(stop, shelf, span, sectors).expect(stop, "memory");
    let (_, write, _) = settle_one(shelf).expect(stop, "a write");
    let flush = is_flushed(stop, shelf, pv);
    let read = read_one(stop, rt, shelf, span);
    [write, flush, read]
}

fn is_flushed(rt: &impl Abort, shelf: &mut FileShelf<Planned>, pv: u32) -> bool {
    submit_flush(rt, shelf, pv).expect(rt, "memory");
    let (_, well, _) = settle_one(shelf).expect(rt, "a flush");
    well
}

// Stops unless a write, a flush and a read of so many sectors of this disk go so, with so many bytes each, and each failure is a
// fault of that disk. The other one is well.
fn assert_faults(
    stop: &impl Abort,
    rt: &HostRuntime,
    shelf: &mut FileShelf<Planned>,
    pv: u32,
    count: u32,
    wanted: [bool; 3],
    bytes: u64,
) {
    assert!(stop; pv < 2);
    let told = three_of(stop, rt, shelf, pv, count);
    assert!(stop; told == wanted);
    assert!(stop; is_flushed(stop, shelf, 1 - pv));
    let [write, flush, read] = wanted;
    let faults = u64::from(!write) + u64::from(!flush) + u64::from(!read);
    assert_eq!(stop; faults_of(stop, shelf, pv), faults);
    assert_eq!(stop; faults_of(stop, shelf, 1 - pv), 0);
    assert!(stop; bytes_of(shelf, pv as usize) == Some((bytes, bytes)));
    assert!(stop; bytes_of(shelf, 1 - pv as usize) == Some((0, 0)));
}

// The same where the file with the plan is either of two.
fn assert_planned(
    stop: &impl Abort,
    rt: &HostRuntime,
    plan: (u64, bool, ErrorKind),
    count: u32,
    wanted: [bool; 3],
    bytes: u64,
) {
    let (from, sync, kind) = plan;
    let faulty = file_that_fails(stop, rt, from..u64::MAX, sync, kind);
    let well = file_that_fails(stop, rt, 0..0, true, ErrorKind::Other);
    let mut shelf = shelf_over(rt.alloc(), faulty, well).expect(stop, "memory");
    assert_faults(stop, rt, &mut shelf, 0, count, wanted, bytes);
    let faulty = file_that_fails(stop, rt, from..u64::MAX, sync, kind);
    let well = file_that_fails(stop, rt, 0..0, true, ErrorKind::Other);
    let mut shelf = shelf_over(rt.alloc(), well, faulty).expect(stop, "memory");
    assert_faults(stop, rt, &mut shelf, 1, count, wanted, bytes);
}

// A write, a flush and a read go well or not by the plan of their own file. The second piece begins at sector 128.
#[test]
fn counts_every_fault(rt: HostRuntime) {
    let whole = u64::MAX;
    let other = ErrorKind::Other;
    let full = ErrorKind::StorageFull;
    assert_planned(
        &rt,
        &rt,
        (whole, true, other),
        300,
        [true, true, true],
        153_600,
    );
    assert_planned(
        &rt,
        &rt,
        (whole, false, full),
        300,
        [true, false, true],
        153_600,
    );
    assert_planned(
        &rt,
        &rt,
        (65_536, true, full),
        128,
        [true, true, true],
        65_536,
    );
    assert_planned(
        &rt,
        &rt,
        (65_536, true, full),
        129,
        [false, true, false],
        65_536,
    );
    assert_planned(&rt, &rt, (0, false, other), 8, [false, false, false], 0);
}
