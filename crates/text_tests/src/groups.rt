//! A group of one physical volume and one logical one, whose segment is a mirror that moves.
use bitflags::Flags;
use lvm_id::{LvmId, parse_plain};
use lvm_name::{GroupName, VolumeName};
use meta_model::{
    Group, Leg, Legs, Lv, LvStatus, LvTable, LvWords, On, Pv, PvTable, SegKind, Segment, Segments,
    VgStatus, VgWords,
};
use sector_base::Text;
use std::alloc::{AllocError, Global};
use std::process::Abort;

const LEG: Leg = Leg {
    on: On::Pv(0),
    first: 4,
};

fn id(rt: &impl Abort) -> LvmId {
    parse_plain(b"00000000100000000100000030000000").expect(rt, "an id")
}

/// A volume's name.
pub fn name(rt: &impl Abort, alloc: Global, text: &[u8]) -> VolumeName {
    VolumeName::any(alloc, text).expect(rt, "a name")
}

/// The bytes as a text.
pub fn text(alloc: Global, bytes: &[u8]) -> Result<Text, AllocError> {
    Ok(Text::from_vec(Vec::from_slice(alloc, bytes)?))
}

fn pv(rt: &impl Abort, alloc: Global) -> Pv {
    Pv {
        id: id(rt),
        device: text(alloc, b"/dev/sda").expect(rt, "memory"),
        allocatable: true,
        missing: false,
        dev_size: 131_072,
        pe_start: 2_048,
        pe_count: 15,
    }
}

// A volume with one segment, of a mirror.
fn lv(rt: &impl Abort, alloc: Global) -> Lv {
    Lv {
        id: id(rt),
        status: LvStatus::of(
            LvWords::READ
                .union(LvWords::VISIBLE)
                .union(LvWords::NOTSYNCED),
        ),
        created: 5,
        host: text(alloc, b"h").expect(rt, "memory"),
        segments: segments(alloc).expect(rt, "memory"),
    }
}

fn segments(alloc: Global) -> Result<Segments, AllocError> {
    let mut segments = Vec::new(alloc);
    segments.push(mirrored(alloc)?)?;
    Ok(Segments::from_vec(segments))
}

/// A segment of two legs that is half moved.
pub fn mirrored(alloc: Global) -> Result<Segment, AllocError> {
    let legs = Legs::from_vec(Vec::from_slice(alloc, &[LEG, LEG])?);
    Ok(Segment {
        start: 0,
        count: 4,
        kind: SegKind::Mirror {
            region: 1_024,
            moved: Some(2),
            legs,
        },
    })
}

/// A table of one physical volume, `pv0`.
pub fn one_pv(rt: &impl Abort, alloc: Global) -> PvTable {
    let mut pvs = PvTable::new(alloc);
    let pushed = pvs.push(name(rt, alloc, b"pv0"), pv(rt, alloc));
    assert!(rt; pushed.is_ok());
    pvs
}

/// A table of one logical volume, `data`.
pub fn one_lv(rt: &impl Abort, alloc: Global) -> LvTable {
    let mut lvs = LvTable::with_room(alloc, 1).expect(rt, "memory");
    let pushed = lvs.push(name(rt, alloc, b"data"), lv(rt, alloc));
    assert!(rt; pushed.is_ok());
    lvs
}

/// A group of that physical volume and that logical one.
pub fn group(rt: &impl Abort, alloc: Global) -> Group {
    Group {
        name: GroupName::new(alloc, b"vg0").expect(rt, "a name"),
        id: id(rt),
        seqno: 7,
        status: VgStatus::of(VgWords::RESIZEABLE.union(VgWords::READ)),
        extent_size: 8_192,
        max_lv: 3,
        max_pv: 9,
        copies: 2,
        pvs: one_pv(rt, alloc),
        lvs: one_lv(rt, alloc),
    }
}
