//! Streams that fail, and those of the process, through their bounds.
use super::{StdSink, StdSource};
use byte_streams::{Failed, Sink, Source, write_bytes};
use std::cell::Cell;
use std::fmt::Display;
use std::io;
use std::io::{ErrorKind, Print, Read};

fn read_from<S: Source>(source: &mut S, into: &mut [u8]) -> (Option<usize>, u64) {
    let n = source.read(into).ok();
    (n, source.faults())
}

fn write_to<W: Sink>(sink: &mut W, from: &[u8]) -> (Option<usize>, u64) {
    let n = sink.write(from).ok();
    (n, sink.faults())
}

// Some ways to fail, all of which are faults.
const KINDS: [ErrorKind; 4] = [
    ErrorKind::Other,
    ErrorKind::IsADirectory,
    ErrorKind::StorageFull,
    ErrorKind::UnexpectedEof,
];

fn failure() -> io::Error {
    io::Error::from(ErrorKind::Other)
}

// An input that a signal interrupts so many times, and that then fails in this way or fills each piece.
#[derive(Drop)]
struct Planned {
    interrupts: u32,
    fails: Option<ErrorKind>,
}

impl Read for Planned {
    fn read(&mut self, buf: &mut [u8]) -> io::Result<usize> {
        if self.interrupts > 0 {
            self.interrupts -= 1;
            Err(io::Error::from(ErrorKind::Interrupted))
        } else {
            match self.fails {
                Some(kind) => Err(io::Error::from(kind)),
                None => Ok(buf.len()),
            }
        }
    }
}

// An output that a signal interrupts so many times, and that then takes so many bytes of each write, or fails in this way.
#[derive(Drop)]
struct Takes {
    interrupts: Cell<u32>,
    most: Result<usize, ErrorKind>,
}

impl Print for Takes {
    fn print<D: Display + Drop>(&self, _value: D) -> io::Result<()> {
        Err(failure())
    }

    fn println<D: Display + Drop>(&self, _value: D) -> io::Result<()> {
        Err(failure())
    }

    fn write_all(&self, _bytes: &[u8]) -> io::Result<()> {
        Err(failure())
    }

    fn write_some(&self, bytes: &[u8]) -> io::Result<usize> {
        let left = self.interrupts.get();
        if left > 0 {
            self.interrupts.set(left - 1);
            return Err(io::Error::from(ErrorKind::Interrupted));
        }
        match self.most {
            Ok(most) => Ok(bytes.len().min(most)),
            Err(kind) => Err(io::Error::from(kind)),
        }
    }
}

fn source_of(interrupts: u32, fails: Option<ErrorKind>) -> StdSource<Planned> {
    StdSource {
        input: Planned { interrupts, fails },
        faults: u64::MAX - 1,
    }
}

fn sink_of(interrupts: u32, most: Result<usize, ErrorKind>) -> StdSink<Takes> {
    StdSink::new(Takes {
        interrupts: Cell::new(interrupts),
        most,
    })
}

#[test]
fn a_source_gives_its_bytes(rt: HostRuntime) {
    let mut given = StdSource {
        input: b"lvs\n".as_slice(),
        faults: 0,
    };
    let mut piece = [0; 3];
    assert!(rt; read_from(&mut given, &mut piece) == (Some(3), 0));
    assert!(rt; piece == *b"lvs");
    assert!(rt; read_from(&mut given, &mut piece) == (Some(1), 0));
    assert!(rt; read_from(&mut given, &mut piece) == (Some(0), 0));
    let mut input = StdSource::new(&rt);
    assert!(rt; read_from(&mut input, &mut []) == (Some(0), 0));
}

// Each error is a fault, and the count stands still at its end.
#[test]
fn a_source_counts_its_faults(rt: HostRuntime) {
    for kind in KINDS {
        let mut source = source_of(0, Some(kind));
        assert!(rt; read_from(&mut source, &mut [0]) == (None, u64::MAX));
        assert!(rt; read_from(&mut source, &mut [0]) == (None, u64::MAX));
    }
}

#[test]
fn a_sink_that_takes_nothing_is_at_fault(rt: HostRuntime) {
    let mut some = sink_of(0, Ok(2));
    assert!(rt; write_to(&mut some, b"ok\n") == (Some(2), 0));
    assert!(rt; write_bytes(&mut some, b"data\nok\n") == Ok(()));
    let mut none = sink_of(0, Ok(0));
    assert!(rt; write_to(&mut none, b"") == (Some(0), 0));
    assert!(rt; write_to(&mut none, b"ok\n") == (None, 1));
    assert!(rt; write_bytes(&mut none, b"ok\n") == Err(Failed));
    assert!(rt; none.faults() == 2);
    let mut output = StdSink::new(&rt);
    assert!(rt; write_to(&mut output, b"") == (Some(0), 0));
}

// An error of the system is a fault, and nothing was written.
#[test]
fn a_sink_that_fails_is_at_fault(rt: HostRuntime) {
    for kind in KINDS {
        let mut broken = sink_of(0, Err(kind));
        assert!(rt; write_to(&mut broken, b"ok\n") == (None, 1));
        assert!(rt; write_bytes(&mut broken, b"ok\n") == Err(Failed));
        assert!(rt; broken.faults() == 2);
    }
}

// What a signal interrupts is tried again, and is no fault.
#[test]
fn tries_again_after_an_interrupt(rt: HostRuntime) {
    let mut source = source_of(3, None);
    assert!(rt; read_from(&mut source, &mut [0; 3]) == (Some(3), u64::MAX - 1));
    let mut sink = sink_of(3, Ok(2));
    assert!(rt; write_to(&mut sink, b"ok\n") == (Some(2), 0));
}
