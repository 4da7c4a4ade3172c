//! The rules of names as a table, the longest names, and copies.
use lvm_name::{GroupName, NameRefusal, VolumeName};
use std::alloc::{AllocError, Global};
use std::test::Fail;

// Why each of the three refuses the text: as a group's name, as one that a user gives a volume, as a volume's in a text.
fn refusals(alloc: Global, text: &[u8]) -> [Option<NameRefusal>; 3] {
    [
        GroupName::new(alloc, text).err(),
        VolumeName::new(alloc, text).err(),
        VolumeName::any(alloc, text).err(),
    ]
}

#[test]
fn each_rule_refuses(rt: HostRuntime) {
    let reserved = Some(NameRefusal::Reserved);
    let dots = Some(NameRefusal::Dots);
    let dash = Some(NameRefusal::LeadingDash);
    let bad = |place| Some(NameRefusal::BadChar(place));
    let rows: [(&[u8], [Option<NameRefusal>; 3]); 31] = [
        (b"vg0", [None; 3]),
        (b"a+B_9.z-", [None; 3]),
        (b"+", [None; 3]),
        (b"0", [None; 3]),
        (b"...", [None; 3]),
        (b".a", [None; 3]),
        (b"", [Some(NameRefusal::Empty); 3]),
        (b"-", [dash; 3]),
        (b"-/", [dash; 3]),
        (b".", [dots; 3]),
        (b"..", [dots; 3]),
        (b"a/b", [bad(1); 3]),
        (b"a b ", [bad(1); 3]),
        (b"data\n", [bad(4); 3]),
        (b"\xC3\xA9", [bad(0); 3]),
        (b"../", [bad(2); 3]),
        // The keys that stand beside a group.
        (b"contents", [reserved, None, None]),
        (b"version", [reserved, None, None]),
        (b"description", [reserved, None, None]),
        (b"creation_host", [reserved, None, None]),
        (b"creation_time", [reserved, None, None]),
        (b"Contents", [None; 3]),
        (b"version1", [None; 3]),
        // What lvm2 names its hidden volumes by.
        (b"pvmove0", [None, reserved, None]),
        (b"pvmove", [None, reserved, None]),
        (b"pvmov", [None; 3]),
        (b"a_pvmove", [None; 3]),
        (b"snapshot1", [None, reserved, None]),
        (b"data_mimage_0", [None, reserved, None]),
        (b"_mlog", [None, reserved, None]),
        (b"pvmove/", [bad(6); 3]),
    ];
    for (text, want) in rows {
        assert_eq!(rt; refusals(rt.alloc(), text), want);
    }
}

#[test]
fn names_have_127_bytes_at_most(rt: HostRuntime) {
    assert_eq!(rt; refusals(rt.alloc(), &[b'x'; 127]), [None; 3]);
    // The length is tested before all else but emptiness.
    let too_long = Some(NameRefusal::TooLong(128));
    assert_eq!(rt; refusals(rt.alloc(), &[b'-'; 128]), [too_long; 3]);
}

#[test]
fn names_are_copied(rt: HostRuntime) -> Result<(), Fail> {
    let group = GroupName::new(rt.alloc(), b"vg0")?;
    let volume = VolumeName::new(rt.alloc(), b"data")?;
    let hidden = VolumeName::any(rt.alloc(), b"pvmove0")?;
    assert_eq!(rt; group.try_copy(rt.alloc())?.as_bytes(), b"vg0".as_slice());
    assert_eq!(rt; volume.try_copy(rt.alloc())?.as_bytes(), b"data".as_slice());
    assert!(rt; hidden.try_copy(rt.alloc())? == hidden);
    Ok(())
}

#[test]
fn refusals_print_their_kind_and_values(rt: HostRuntime) -> Result<(), AllocError> {
    let rows = [
        (NameRefusal::NoMemory, "NoMemory"),
        (NameRefusal::Empty, "Empty"),
        (NameRefusal::TooLong(128), "TooLong 128"),
        (NameRefusal::LeadingDash, "LeadingDash"),
        (NameRefusal::Dots, "Dots"),
        (NameRefusal::BadChar(4), "BadChar 4"),
        (NameRefusal::Reserved, "Reserved"),
    ];
    for (refusal, want) in rows {
        let text = format!(in rt.alloc(); "{refusal}")?;
        assert_eq!(rt; text.as_str(), want);
    }
    Ok(())
}
