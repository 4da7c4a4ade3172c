//! Outside values of the checksum, the refusals of spans as a table, what is printed, and each list and set once.
use sector_base::{
    Bytes512, LVM_CRC_START, PvDisks, PvSet, Sectors, Shown, Span, SpanRefusal, Text, crc, get_u32,
    get_u64, put_u32, put_u64, span,
};
use std::test::Fail;

#[test]
fn checksum_is_that_of_the_format(rt: HostRuntime) {
    assert_eq!(rt; crc(LVM_CRC_START, &[]), 0xF597_A6CF);
    assert_eq!(rt; crc(LVM_CRC_START, &[0]), 0x0B2E_4887);
    assert_eq!(rt; crc(0xFFFF_FFFF, b"123456789"), 0x340B_C6D9);
}

#[test]
fn spans_end_with_their_disk(rt: HostRuntime) {
    let last = u64::MAX;
    let rows = [
        (0, 0, 8, Err(SpanRefusal::Empty)),
        (9, 0, 8, Err(SpanRefusal::Empty)),
        (
            0,
            8,
            8,
            Ok(Span {
                pv: 3,
                first: 0,
                count: 8,
            }),
        ),
        (0, 9, 8, Err(SpanRefusal::PastEnd { end: 9, disk: 8 })),
        (8, 1, 8, Err(SpanRefusal::PastEnd { end: 9, disk: 8 })),
        (
            last - 4,
            4,
            last,
            Ok(Span {
                pv: 3,
                first: last - 4,
                count: 4,
            }),
        ),
        (
            last,
            1,
            last,
            Err(SpanRefusal::PastEnd {
                end: last,
                disk: last,
            }),
        ),
        (
            last - 1,
            7,
            5,
            Err(SpanRefusal::PastEnd { end: last, disk: 5 }),
        ),
    ];
    for (first, count, disk, want) in rows {
        assert_eq!(rt; span(3, first, count, disk), want, "{first} {count} {disk}");
    }
}

#[test]
fn fields_are_little_endian(rt: HostRuntime) {
    let mut sector = Bytes512::new([9; 512]);
    put_u32(&mut sector, 4, 0x0102_0304);
    put_u64(&mut sector, 504, 0x0506_0708_090A_0B0C);
    assert_eq!(rt; get_u32(&sector, 4), 0x0102_0304);
    assert_eq!(rt; get_u64(&sector, 504), 0x0506_0708_090A_0B0C);
    let bytes = *sector.as_bytes();
    assert_eq!(rt;
        [bytes[3], bytes[4], bytes[5], bytes[6], bytes[7], bytes[8]],
        [9, 4, 3, 2, 1, 9]
    );
    assert_eq!(rt; [bytes[503], bytes[504], bytes[511]], [9, 12, 5]);
}

#[test]
fn sectors_are_copied(rt: HostRuntime) -> Result<(), Fail> {
    let alloc = rt.alloc();
    let mut disk = Sectors::zeroed(alloc, 4)?;
    assert_eq!(rt; disk.len(), 4);
    let one = Bytes512::new([1; 512]);
    disk.set(1, one);
    let two = Sectors::from_vec(vec![in alloc; Bytes512::new([2; 512]), Bytes512::new([3; 512])]?);
    assert!(rt; two.len() == 2);
    disk.copy_in(2, &two, 1);
    let first = [
        Bytes512::zeroed(),
        one,
        Bytes512::new([2; 512]),
        Bytes512::zeroed(),
    ];
    assert_eq!(rt;
        disk.try_copy(alloc)?.into_vec().as_slice(),
        first.as_slice()
    );
    let mut part = Sectors::zeroed(alloc, 2)?;
    assert!(rt; part.len() == 2);
    part.fill_from(&disk, 1);
    assert!(rt; part.get(0) == one);
    assert!(rt; part.get(1) == Bytes512::new([2; 512]));
    Ok(())
}

#[test]
fn sets_lists_and_texts(rt: HostRuntime) -> Result<(), Fail> {
    let alloc = rt.alloc();
    let mut set = PvSet::new();
    assert!(rt; set.is_empty());
    set.insert(0);
    set.insert(63);
    set.insert(5);
    set.remove(5);
    let copy = set;
    set.remove(0);
    assert_eq!(rt;
        [
            copy.contains(0),
            copy.contains(5),
            copy.contains(63),
            copy.contains(64)
        ],
        [true, false, true, false]
    );
    assert!(rt; !set.is_empty() && !set.contains(0));
    let disks = PvDisks::from_vec(vec![in alloc; 4, 0]?);
    assert_eq!(rt; disks.as_slice(), [4, 0].as_slice());
    assert_eq!(rt; (disks.len(), *disks.get(0)), (2, 4));
    assert_eq!(rt; disks.into_vec().len(), 2);
    let text = Text::from_vec(vec![in alloc; b'v', b'g']?);
    assert_eq!(rt; text.as_bytes(), b"vg".as_slice());
    assert_eq!(rt; text.into_vec().len(), 2);
    Ok(())
}

#[test]
fn prints_values_and_refusals(rt: HostRuntime) -> Result<(), Fail> {
    let alloc = rt.alloc();
    for (shown, text) in [
        (Shown::Number(u64::MAX), "18446744073709551615"),
        (Shown::Sum(0xBEEF), "0000beef"),
        (Shown::Text("vg0"), "vg0"),
    ] {
        let said = format!(in alloc; "{shown}")?;
        assert_eq!(rt; said.as_str(), text);
    }
    for (refusal, text) in [
        (SpanRefusal::Empty, "Empty"),
        (SpanRefusal::PastEnd { end: 9, disk: 8 }, "PastEnd 9 8"),
    ] {
        let said = format!(in alloc; "{refusal}")?;
        assert_eq!(rt; said.as_str(), text);
    }
    Ok(())
}
