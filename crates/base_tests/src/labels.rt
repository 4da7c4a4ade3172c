//! A label as pvcreate leaves it, found and refused, and what is sealed byte for byte.
use pv_label::{LabelFound, LabelRefusal, begins_like_label, read_label, seal_label};
use sector_base::{Bytes512, LVM_CRC_START, crc, get_u32, put_u32, put_u64};

// Sector 1 of a disk of 4 MiB after `pvcreate --metadatacopies 0`, with this label's offset and type.
fn volume_sector(offset: u32, kind: &[u8; 8]) -> Bytes512 {
    let mut sector = Bytes512::zeroed();
    sector.put(0, b"LABELONE");
    put_u64(&mut sector, 8, 1);
    put_u32(&mut sector, 20, offset);
    sector.put(24, kind);
    sector.put(32, b"00000000100000000100000030000000");
    put_u64(&mut sector, 64, 4_194_304);
    put_u64(&mut sector, 72, 1_048_576);
    put_u32(&mut sector, 120, 2);
    let sum = crc(LVM_CRC_START, &sector.as_bytes()[20..]);
    put_u32(&mut sector, 16, sum);
    sector
}

// The same, with this number as its own.
fn moved(mut sector: Bytes512, number: u64) -> Bytes512 {
    put_u64(&mut sector, 8, number);
    sector
}

#[test]
fn a_label_is_found_or_refused(rt: HostRuntime) {
    let blank = Bytes512::zeroed();
    let good = volume_sector(32, b"LVM2 001");
    let mut bad_sum = moved(good, 0);
    put_u64(&mut bad_sum, 64, 0);
    assert_eq!(rt; get_u32(&good, 16), 0x49FC_88C8);
    let offset = volume_sector(33, b"LVM2 001");
    let kind = volume_sector(32, b"LVM2 002");
    let rows = [
        ([blank, good, blank, blank], Ok(LabelFound { sector: 1 })),
        (
            [blank, blank, blank, moved(good, 3)],
            Ok(LabelFound { sector: 3 }),
        ),
        (
            [blank, blank, blank, good],
            Err(LabelRefusal::WrongSector(1, 3)),
        ),
        ([bad_sum, good, blank, blank], Ok(LabelFound { sector: 1 })),
        (
            [bad_sum, offset, blank, blank],
            Err(LabelRefusal::BadSum(0)),
        ),
        (
            [blank, offset, kind, blank],
            Err(LabelRefusal::BadOffset(33)),
        ),
        ([blank, kind, blank, bad_sum], Err(LabelRefusal::BadType)),
        ([blank; 4], Err(LabelRefusal::NoLabel)),
        (
            [moved(good, 0), good, blank, blank],
            Ok(LabelFound { sector: 0 }),
        ),
    ];
    for (sectors, want) in rows {
        assert_eq!(rt; read_label(&sectors), want);
    }
}

#[test]
fn a_sealed_sector_byte_by_byte(rt: HostRuntime) {
    let mut sector = Bytes512::new([7; 512]);
    assert!(rt; !begins_like_label(&sector));
    seal_label(&mut sector, 2);
    assert!(rt; begins_like_label(&sector));
    let bytes = sector.as_bytes();
    assert_eq!(rt; &bytes[..16], b"LABELONE\x02\0\0\0\0\0\0\0".as_slice());
    assert_eq!(rt; &bytes[20..32], b"\x20\0\0\0LVM2 001".as_slice());
    assert_eq!(rt; &bytes[32..], [7; 480].as_slice());
    let mut blank = Bytes512::zeroed();
    seal_label(&mut blank, 1);
    assert_eq!(rt; &blank.as_bytes()[16..20], SUM_OF_BLANK.as_slice());
}

// The checksum of a label over zeros, as that of the first test from a bitwise computation outside of this program.
const SUM_OF_BLANK: [u8; 4] = [0x73, 0xAC, 0xA8, 0x28];
