//! Whole scripts: a line of each command, the most lines, and a line's text.
use crate::texts::text_of;
use command_table::{Command, LineFault};
use lvm_id::{MemWords, Words64};
use lvm_script::{Line, ScriptRefusal, script_of};
use sector_base::Text;
use std::alloc::{AllocError, Global};
use std::test::Fail;

// A line of each form of the commands but write, four of which draw an id, and what stands before the contents of one write.
fn all_commands() -> &'static [u8] {
    b"pvcreate a
pvmove
pvmove --abort
pvmove a b
vgextend vg0 a
vgreduce vg0 a
vgrename vg0 vg1
lvcreate -n data -l 1 -i 2 -I 65536t vg0
lvcreate -n data -L 5g -m 1 --alloc contiguous vg0 a b
lvextend -l +5 vg0/data a
lvextend -L 5m vg0/data
lvreduce -l 5 vg0/data
lvremove vg0/data
lvrename vg0 data logs
read vg0/data 0 128
fill vg0/data 0 128 7
fill --through vg0/data 0 128 7
flush vg0/data
list
wait
resync vg0/data
write vg0/data 0 "
}

// Adds the digits of a sector of zeros.
fn push_sector(bytes: &mut Vec<u8>) -> Result<(), AllocError> {
    for _ in 0..1_024u32 {
        bytes.push(b'0')?;
    }
    Ok(())
}

// The same, with two sectors to write, and a write through to the disks.
fn script_text(alloc: Global) -> Result<Text, AllocError> {
    let mut bytes = Vec::from_slice(alloc, all_commands())?;
    push_sector(&mut bytes)?;
    push_sector(&mut bytes)?;
    bytes.extend_from_slice(b"\nwrite --through vg0/data 2 ")?;
    push_sector(&mut bytes)?;
    Ok(Text::from_vec(bytes))
}

#[test]
fn each_command_has_its_line(rt: HostRuntime) -> Result<(), Fail> {
    let mut ids = MemWords::new([0, 0, 0, 0, 0, 0, 0, 0, 0, 0, 0, 0, 0, 0, 0, 0, 5].to_vec(
        rt.alloc(),
    )?);
    let script = script_of(rt.alloc(), &script_text(rt.alloc())?, &mut ids)?;
    assert_eq!(rt; script.len(), 23);
    assert_eq!(rt; ids.next(), 5);
    Ok(())
}

// So many lines that ask for something.
fn lists(alloc: Global, count: u32) -> Result<Text, AllocError> {
    let mut bytes = Vec::new(alloc);
    for _ in 0..count {
        bytes.extend_from_slice(b"list\n")?;
    }
    Ok(Text::from_vec(bytes))
}

#[test]
fn scripts_have_a_last_line(rt: HostRuntime) -> Result<(), Fail> {
    let mut ids = MemWords::new(Vec::new(rt.alloc()));
    let full = script_of(rt.alloc(), &lists(rt.alloc(), 65_536)?, &mut ids)?;
    assert_eq!(rt; full.len(), 65_536);
    let more = script_of(rt.alloc(), &lists(rt.alloc(), 65_537)?, &mut ids).err();
    assert_eq!(rt;
        more,
        Some(ScriptRefusal::LineRefused {
            number: 65_537,
            fault: LineFault::SessionFull,
            place: 0,
        })
    );
    Ok(())
}

// A vgcfgrestore that has yet to get its text.
fn restore(alloc: Global) -> Result<Command, AllocError> {
    Ok(Command::Vgcfgrestore {
        vg: text_of(alloc, b"vg0")?,
        text: text_of(alloc, b"old")?,
    })
}

// Its line, with its text.
fn restoring(alloc: Global, ids: &mut MemWords) -> Result<Line, AllocError> {
    let line = Line::new(1, restore(alloc)?, ids);
    Ok(line.with_text(text_of(alloc, b"new")?))
}

// Whether it is a restore from this text.
fn restores(command: &Command, from: &[u8]) -> bool {
    match command {
        Command::Vgcfgrestore { vg: _, text } => text.as_bytes() == from,
        _ => false,
    }
}

#[test]
fn a_restore_gets_its_text(rt: HostRuntime) -> Result<(), Fail> {
    let mut ids = MemWords::new([7].to_vec(rt.alloc())?);
    let line = restoring(rt.alloc(), &mut ids)?;
    assert!(rt; restores(&line.command, b"new"));
    assert!(rt; line.command.changes() && !line.command.draws());
    assert_eq!(rt; (line.command.sectors(), ids.next()), (0, 7));
    Ok(())
}
