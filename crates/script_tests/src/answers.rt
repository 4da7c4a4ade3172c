//! Answers as they print, where the disks are named `sda` and `sdb`. What each prints is told by rows on the definition.
use byte_streams::{Sink, TextBuffer};
use line_answers::{Answer, DiskNames, OpRefusal};
use sector_base::{Bytes512, ItemList, Sectors, Text};
use std::alloc::{AllocError, Global};
use std::test::Fail;

// The names of the disks.
fn names_of(alloc: Global) -> Result<DiskNames, AllocError> {
    let mut names = Vec::new(alloc);
    names.push(String::from_str(alloc, "sda")?)?;
    names.push(String::from_str(alloc, "sdb")?)?;
    Ok(DiskNames::from_vec(names))
}

// What the answer prints.
fn printed(alloc: Global, answer: &Answer) -> Result<Text, Fail> {
    let mut sink = TextBuffer::new(alloc);
    answer.write(&mut sink, &names_of(alloc)?)?;
    Ok(sink.into_text())
}

#[test]
fn values_print(rt: HostRuntime) -> Result<(), Fail> {
    let rows: [(Answer, &[u8]); 4] = [
        (Answer::Fine, b"ok"),
        (Answer::Stopped(1), b"stopped sdb"),
        (
            Answer::Refused(OpRefusal::PastEnd(8_193, 8_192)),
            b"refused PastEnd 8193 8192",
        ),
        (
            Answer::Refused(OpRefusal::NothingThere(0)),
            b"refused NothingThere sda",
        ),
    ];
    for (answer, want) in rows {
        assert_eq!(rt; printed(rt.alloc(), &answer)?.as_bytes(), want);
    }
    Ok(())
}

#[test]
fn lists_print(rt: HostRuntime) -> Result<(), Fail> {
    let mut lengths = Vec::new(rt.alloc());
    let name: &[u8] = b"data";
    lengths.push((Text::from_vec(name.to_vec(rt.alloc())?), 32_768))?;
    let shown = printed(rt.alloc(), &Answer::Listed(ItemList::from_vec(lengths)))?;
    assert_eq!(rt; shown.as_bytes(), b"list data=32768".as_slice());
    Ok(())
}

#[test]
fn sectors_print(rt: HostRuntime) -> Result<(), Fail> {
    let mut sectors = Vec::new(rt.alloc());
    sectors.push(Bytes512::zeroed())?;
    let shown = printed(rt.alloc(), &Answer::Read(Sectors::from_vec(sectors)))?;
    assert_eq!(rt; shown.as_bytes(), b"data =0000000000000000".as_slice());
    Ok(())
}

#[test]
fn a_text_is_collected(rt: HostRuntime) -> Result<(), Fail> {
    let mut sink = TextBuffer::new(rt.alloc());
    assert_eq!(rt; sink.write(b"data"), Ok(4));
    assert_eq!(rt; sink.write(b""), Ok(0));
    assert_eq!(rt; sink.write(b"=8"), Ok(2));
    assert_eq!(rt; sink.as_bytes(), b"data=8".as_slice());
    assert_eq!(rt; sink.faults(), 0);
    Ok(())
}
