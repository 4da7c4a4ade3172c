//! Words of a command line: each command has its request, and one command is a line.
use command_table::{CommandName, GivenOptions, LineFault, OptionKey, request_by_name};
use lvm_id::{MemWords, Words64};
use lvm_script::{LineRefusal, line_of, read_request};
use std::alloc::{AllocError, Global};
use std::test::Fail;

// The words between blanks.
fn words_of(alloc: Global, text: &str) -> Result<Vec<String>, AllocError> {
    let mut words = Vec::new(alloc);
    for word in text.split_whitespace() {
        words.push(String::from_str(alloc, word)?)?;
    }
    Ok(words)
}

#[test]
fn each_command_has_its_request(rt: HostRuntime) -> Result<(), Fail> {
    let rows = [
        "pvcreate --metadatacopies 0 a",
        "pvmove a b",
        "pvck a",
        "pvs",
        "vgcreate -s 1g vg0 a b",
        "vgextend vg0 a",
        "vgreduce vg0 a",
        "vgremove vg0",
        "vgrename vg0 vg1",
        "vgcfgbackup vg0",
        "vgcfgrestore vg0",
        "vgck",
        "vgs",
        "lvcreate -n data -l 1 vg0",
        "lvextend -L +5m vg0/data",
        "lvreduce -L 5m vg0/data",
        "lvremove vg0/data",
        "lvrename vg0 data logs",
        "lvs",
        "session --workers 8 vg0",
        "demo 1 4096 8",
    ];
    for words in rows {
        let answer = read_request(rt.alloc(), &words_of(rt.alloc(), words)?);
        assert!(rt; answer.is_ok(), "{words}");
    }
    Ok(())
}

#[test]
fn options_and_arguments_are_a_request(rt: HostRuntime) -> Result<(), Fail> {
    let vg: &[u8] = b"vg0";
    let workers: &'static [u8] = b"8";
    let given = GivenOptions {
        pairs: &[(OptionKey::Workers, workers)],
    };
    let session = request_by_name(rt.alloc(), CommandName::Session, &given, &[vg])?;
    assert!(rt; session.is_some());
    Ok(())
}

#[test]
fn one_command_is_a_line(rt: HostRuntime) -> Result<(), Fail> {
    let mut ids = MemWords::new([0, 1, 62, 3, 9].to_vec(rt.alloc())?);
    let line = line_of(rt.alloc(), &words_of(rt.alloc(), "pvcreate a")?, &mut ids)?;
    assert_eq!(rt; (line.number, line.id.is_some()), (1, true));
    let demo = line_of(rt.alloc(), &words_of(rt.alloc(), "demo 1 1 1")?, &mut ids);
    assert_eq!(rt;
        demo.err(),
        Some(LineRefusal::Refused(LineFault::NotHere, 0))
    );
    assert_eq!(rt; ids.next(), 9);
    Ok(())
}
