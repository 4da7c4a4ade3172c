//! Streams through their bounds, with a fault in mid-stream.
use byte_streams::{Failed, MemSink, MemSource, Sink, Source, write_all};
use sector_base::Text;
use std::test::Fail;

fn read_from<S: Source>(source: &mut S, into: &mut [u8]) -> (Option<usize>, u64) {
    let n = source.read(into).ok();
    (n, source.faults())
}

fn write_to<W: Sink>(sink: &mut W, from: &[u8]) -> (Option<usize>, u64) {
    let n = sink.write(from).ok();
    (n, sink.faults())
}

#[test]
fn reads_on_after_a_fault(rt: HostRuntime) -> Result<(), Fail> {
    let script = b"vgs\nlvs\npvs\n".to_vec(rt.alloc())?;
    let mut source = MemSource::new(script, [1, 7].to_vec(rt.alloc())?);
    let mut piece = [b'.'; 8];
    assert_eq!(rt; read_from(&mut source, &mut piece), (Some(8), 0));
    assert_eq!(rt; &piece, b"vgs\nlvs\n");
    assert_eq!(rt; read_from(&mut source, &mut piece), (None, 1));
    assert_eq!(rt; read_from(&mut source, &mut []), (Some(0), 1));
    assert_eq!(rt; read_from(&mut source, &mut piece), (Some(4), 1));
    assert_eq!(rt; &piece, b"pvs\nlvs\n");
    assert_eq!(rt; read_from(&mut source, &mut piece), (Some(0), 1));
    Ok(())
}

#[test]
fn takes_what_it_has_room_for(rt: HostRuntime) -> Result<(), Fail> {
    let mut sink = MemSink::new(rt.alloc(), 5, [1].to_vec(rt.alloc())?)?;
    assert_eq!(rt; write_to(&mut sink, b"ok\n"), (Some(3), 0));
    assert_eq!(rt; write_to(&mut sink, b"ok\n"), (None, 1));
    assert_eq!(rt; write_to(&mut sink, b"ok\n"), (Some(2), 1));
    assert_eq!(rt; write_to(&mut sink, b""), (Some(0), 1));
    assert_eq!(rt; write_to(&mut sink, b"ok\n"), (None, 2));
    assert_eq!(rt; sink.bytes(), b"ok\nok".as_slice());
    Ok(())
}

#[test]
fn writes_a_text_up_to_the_fault(rt: HostRuntime) -> Result<(), Fail> {
    let text: &[u8] = b"data\nok\n";
    let cases: [(usize, u64, &[u8], bool); 4] = [
        (8, 1, b"data\nok\n", true),
        (20, 9, b"data\nok\n", true),
        (5, 1, b"data\n", false),
        (20, 0, b"", false),
    ];
    for (capacity, fail, written, well) in cases {
        let mut sink = MemSink::new(rt.alloc(), capacity, [fail].to_vec(rt.alloc())?)?;
        let answer = write_all(&mut sink, &Text::from_vec(text.to_vec(rt.alloc())?));
        assert_eq!(rt; answer, if well { Ok(()) } else { Err(Failed) });
        assert_eq!(rt; sink.bytes(), written);
        assert_eq!(rt; sink.faults(), if well { 0 } else { 1 });
    }
    Ok(())
}
