//! Numbers at ids, and the volumes of a small group by theirs.
use crate::groups::{group_of_text, small_group_text};
use id_index::{IdMap, Members, lvs_by_id};
use lvm_id::{LvmId, parse_plain};
use std::process::Abort;
use std::test::Fail;

fn id(rt: &impl Abort, text: &[u8; 32]) -> LvmId {
    parse_plain(text).expect(rt, "an id")
}

const FIRST: &[u8; 32] = b"00000000100000000100000030000000";

const SECOND: &[u8; 32] = b"00000000100000000100000030000001";

const VOLUME: &[u8; 32] = b"50000000500000006000000070000000";

#[test]
fn the_last_number_at_an_id_counts(rt: HostRuntime) -> Result<(), Fail> {
    let mut ids = IdMap::new(rt.alloc());
    ids.insert(&id(&rt, FIRST), 1)?;
    ids.insert(&id(&rt, SECOND), 2)?;
    ids.insert(&id(&rt, FIRST), 3)?;
    assert_eq!(rt; ids.get(&id(&rt, FIRST)), Some(3));
    assert_eq!(rt; ids.get(&id(&rt, SECOND)), Some(2));
    assert_eq!(rt; ids.get(&id(&rt, VOLUME)), None);
    assert!(rt; ids.contains(&id(&rt, SECOND)) && !ids.contains(&id(&rt, VOLUME)));
    Ok(())
}

#[test]
fn volumes_are_found_by_their_ids(rt: HostRuntime) -> Result<(), Fail> {
    let checked = group_of_text(&rt, rt.alloc(), small_group_text());
    let members = Members::of(rt.alloc(), &checked)?;
    assert!(rt; members.has(&id(&rt, FIRST)) && !members.has(&id(&rt, VOLUME)));
    let second = members
        .get(&id(&rt, SECOND))
        .expect(&rt, "a physical volume");
    assert_eq!(rt; second.pe_start, 16);
    assert!(rt; members.get(&id(&rt, VOLUME)).is_none());
    let lvs = &members.group().lvs;
    assert!(rt; lvs.len() == 1);
    let numbers = lvs_by_id(rt.alloc(), lvs)?;
    assert_eq!(rt; numbers.get(&id(&rt, VOLUME)), Some(0));
    assert_eq!(rt; numbers.get(&id(&rt, FIRST)), None);
    Ok(())
}
