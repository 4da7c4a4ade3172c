//! Entries at the area's ends, each refusal, and what is written byte for byte.
use mda_header::{HeaderEntry, Locn, MdaHeader, MdaRefusal, read_entry, read_mda, write_mda};
use sector_base::{Bytes512, LVM_CRC_START, crc, put_u32, put_u64};

// A header of version 1 of the area of 4,096 bytes at byte 8,192, with these entries, and its checksum.
fn header(committed: (u64, u64), precommitted: (u64, u64)) -> Bytes512 {
    let mut sector = Bytes512::zeroed();
    sector.put(4, b" LVM2 x[5A%r0N*>");
    put_u32(&mut sector, 20, 1);
    put_u64(&mut sector, 24, 8192);
    put_u64(&mut sector, 32, 4096);
    put_u64(&mut sector, 40, committed.0);
    put_u64(&mut sector, 48, committed.1);
    put_u32(&mut sector, 56, 17);
    put_u64(&mut sector, 64, precommitted.0);
    put_u64(&mut sector, 72, precommitted.1);
    put_u32(&mut sector, 80, 18);
    summed(sector)
}

// The sector with its checksum.
fn summed(mut sector: Bytes512) -> Bytes512 {
    let sum = crc(LVM_CRC_START, &sector.as_bytes()[4..]);
    put_u32(&mut sector, 0, sum);
    sector
}

// The header with the bit that says that its area is ignored.
fn ignored(mut sector: Bytes512) -> Bytes512 {
    put_u32(&mut sector, 60, 1);
    summed(sector)
}

#[test]
fn entries_lie_behind_the_header(rt: HostRuntime) {
    let last = u64::MAX;
    let rows = [
        ((512, 3584), true),
        ((4095, 1), true),
        ((512, 0), false),
        ((512, 3585), false),
        ((511, 1), false),
        ((4096, 1), false),
        ((1, last), false),
        ((last, last), false),
    ];
    for ((offset, size), inside) in rows {
        let first = Locn {
            offset,
            size,
            sum: 17,
        };
        let second = Locn { sum: 18, ..first };
        let want = if inside {
            Ok(MdaHeader {
                start: 8192,
                size: 4096,
                committed: Some(first),
                precommitted: None,
                ignored: false,
            })
        } else {
            Err(MdaRefusal::LocnOutside { offset, size })
        };
        assert_eq!(rt; read_mda(&header((offset, size), (0, 7)), 8192, 4096), want);
        let want = MdaHeader {
            start: 8192,
            size: 4096,
            committed: None,
            precommitted: if inside { Some(second) } else { None },
            ignored: false,
        };
        assert_eq!(rt;
            read_mda(&header((0, 7), (offset, size)), 8192, 4096),
            Ok(want)
        );
    }
}

#[test]
fn each_refusal_in_its_order(rt: HostRuntime) {
    let outside = header((511, 1), (0, 0));
    let mut version = outside;
    put_u32(&mut version, 20, 2);
    let mut magic = version;
    magic.put(19, b"<");
    let rows = [
        (
            Bytes512::zeroed(),
            8191,
            4095,
            MdaRefusal::BadSum(0, SUM_OF_ZEROS),
        ),
        (summed(magic), 8191, 4095, MdaRefusal::BadMagic),
        (summed(version), 8191, 4095, MdaRefusal::BadVersion(2)),
        (outside, 8191, 4095, MdaRefusal::WrongStart(8192, 8191)),
        (outside, 8192, 4095, MdaRefusal::SizeBad(4096, 4095)),
        (
            outside,
            8192,
            4096,
            MdaRefusal::LocnOutside {
                offset: 511,
                size: 1,
            },
        ),
    ];
    for (sector, start, size, want) in rows {
        assert_eq!(rt; read_mda(&sector, start, size), Err(want));
    }
}

// The checksum of 508 zeros, as that of the empty header from a bitwise computation outside of this program.
const SUM_OF_ZEROS: u32 = 0x6702_D122;

#[test]
fn what_is_written_is_read_again(rt: HostRuntime) {
    let full = MdaHeader {
        start: 4096,
        size: 1_044_480,
        committed: Some(Locn {
            offset: 512,
            size: 479,
            sum: 0x1234_5678,
        }),
        precommitted: Some(Locn {
            offset: 1024,
            size: 480,
            sum: u32::MAX,
        }),
        ignored: true,
    };
    let mut sector = Bytes512::new([7; 512]);
    write_mda(&full, &mut sector);
    assert_eq!(rt; read_mda(&sector, 4096, 1_044_480), Ok(full));
    assert_eq!(rt; sector.as_bytes()[60], 1);
    let empty = MdaHeader {
        committed: None,
        precommitted: None,
        ignored: false,
        ..full
    };
    write_mda(&empty, &mut sector);
    let bytes = sector.as_bytes();
    assert_eq!(rt;
        &bytes[..24],
        b"\x16\xd6\x8e\xdb LVM2 x[5A%r0N*>\x01\0\0\0".as_slice()
    );
    assert_eq!(rt;
        &bytes[24..40],
        b"\0\x10\0\0\0\0\0\0\0\xf0\x0f\0\0\0\0\0".as_slice()
    );
    assert_eq!(rt; &bytes[40..], [0; 472].as_slice());
}

#[test]
fn a_header_says_what_is_committed(rt: HostRuntime) {
    let empty = header((0, 7), (512, 100));
    let full = header((512, 100), (0, 0));
    let outside = header((511, 1), (0, 0));
    let mut version = empty;
    put_u32(&mut version, 20, 2);
    let text = HeaderEntry::Text(Locn {
        offset: 512,
        size: 100,
        sum: 17,
    });
    let start = MdaRefusal::WrongStart(8192, 8191);
    let size = MdaRefusal::SizeBad(4096, 4095);
    let locn = MdaRefusal::LocnOutside {
        offset: 511,
        size: 1,
    };
    let unread = HeaderEntry::Refused(MdaRefusal::BadVersion(2));
    // What is said, and what is said with the ignored bit.
    let rows = [
        (
            empty,
            8192,
            4096,
            HeaderEntry::Nothing,
            HeaderEntry::Ignored,
        ),
        (
            empty,
            8191,
            4096,
            HeaderEntry::Nothing,
            HeaderEntry::Ignored,
        ),
        (
            empty,
            8192,
            4095,
            HeaderEntry::Nothing,
            HeaderEntry::Ignored,
        ),
        (full, 8192, 4096, text, HeaderEntry::Ignored),
        (
            full,
            8191,
            4096,
            HeaderEntry::Refused(start),
            HeaderEntry::Ignored,
        ),
        (
            full,
            8192,
            4095,
            HeaderEntry::Refused(size),
            HeaderEntry::Ignored,
        ),
        (
            outside,
            8192,
            4096,
            HeaderEntry::Refused(locn),
            HeaderEntry::Ignored,
        ),
        (summed(version), 8192, 4096, unread, unread),
    ];
    for (sector, start, size, want, with_bit) in rows {
        assert_eq!(rt; read_entry(&sector, start, size), want);
        assert_eq!(rt; read_entry(&ignored(sector), start, size), with_bit);
    }
    let blank = HeaderEntry::Refused(MdaRefusal::BadSum(0, SUM_OF_ZEROS));
    assert_eq!(rt; read_entry(&Bytes512::zeroed(), 8192, 4096), blank);
}
