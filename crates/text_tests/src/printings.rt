//! A group whose texts are as long as is said.
use crate::groups::group;
use meta_print::{backup_text, printed_len, text_of};

#[test]
fn a_group_is_printed(rt: HostRuntime) {
    let group = group(&rt, rt.alloc());
    let text = text_of(rt.alloc(), &group, 0).expect(&rt, "memory");
    assert!(rt; text.as_bytes().len() as u64 == printed_len(&group, 0));
}

#[test]
fn a_backup_is_as_long(rt: HostRuntime) {
    let group = group(&rt, rt.alloc());
    let text = backup_text(rt.alloc(), &group, 0).expect(&rt, "memory");
    assert!(rt; text.as_bytes().len() as u64 == printed_len(&group, 0));
}
