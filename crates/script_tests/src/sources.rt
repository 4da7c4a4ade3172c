//! Reading a source to its end.
use byte_streams::{MemSource, ReadFault, Source, read_all};
use std::alloc::Global;
use std::test::Fail;

// So many bytes: the last byte of each one's place.
fn bytes_of(alloc: Global, count: usize) -> Result<Vec<u8>, Fail> {
    let mut bytes = Vec::with_capacity(alloc, count)?;
    for place in 0..count {
        bytes.push((place % 256) as u8)?;
    }
    Ok(bytes)
}

#[test]
fn all_pieces_are_read(rt: HostRuntime) -> Result<(), Fail> {
    for count in [0, 4_096, 10_000] {
        let bytes = bytes_of(rt.alloc(), count)?;
        let mut source = MemSource::new(bytes_of(rt.alloc(), count)?, Vec::new(rt.alloc()));
        let text = read_all(rt.alloc(), &mut source)?;
        assert!(rt; text.as_bytes() == bytes.as_slice());
    }
    Ok(())
}

#[test]
fn faults_are_told(rt: HostRuntime) -> Result<(), Fail> {
    // 10,000 bytes take three reads, and a fourth says that there are no more.
    for call in 0..4u64 {
        let fails = [call].to_vec(rt.alloc())?;
        let mut source = MemSource::new(bytes_of(rt.alloc(), 10_000)?, fails);
        let fault = read_all(rt.alloc(), &mut source).err();
        assert_eq!(rt; fault, Some(ReadFault::Failed));
        assert_eq!(rt; source.faults(), 1);
    }
    Ok(())
}

#[test]
fn sources_have_a_last_byte(rt: HostRuntime) -> Result<(), Fail> {
    let mut full = MemSource::new(vec![in rt.alloc(); b'#'; 16_777_216]?, Vec::new(rt.alloc()));
    let text = read_all(rt.alloc(), &mut full)?;
    assert_eq!(rt; text.as_bytes().len(), 16_777_216);
    let mut longer = MemSource::new(vec![in rt.alloc(); b'#'; 16_777_217]?, Vec::new(rt.alloc()));
    let fault = read_all(rt.alloc(), &mut longer).err();
    assert_eq!(rt; fault, Some(ReadFault::ScriptTooLong));
    Ok(())
}
