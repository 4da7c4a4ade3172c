//! What two sectors of a fill and of a write are.
use crate::contents_for;
use command_table::{Command, Path};
use sector_base::{Sectors, Text};
use std::alloc::{AllocError, Global};
use std::test::Fail;

fn text(alloc: Global, byte: u8, count: usize) -> Result<Text, AllocError> {
    Ok(Text::from_vec(vec![in alloc; byte; count]?))
}

fn path(alloc: Global) -> Result<Path, AllocError> {
    let vg = text(alloc, b'v', 1)?;
    let lv = text(alloc, b'l', 1)?;
    Ok(Path { vg, lv })
}

fn filled(alloc: Global) -> Result<Sectors, AllocError> {
    let path = path(alloc)?;
    let fill = Command::Fill {
        path,
        start: 7,
        count: 3,
        value: 299,
        through: false,
    };
    contents_for(alloc, &fill, 8, 2)
}

fn written(alloc: Global) -> Result<Sectors, AllocError> {
    let path = path(alloc)?;
    let hex = Text::from_vec(vec![in alloc; b'5'; 2_048]?);
    let write = Command::Write {
        path,
        start: 7,
        hex,
        through: true,
    };
    contents_for(alloc, &write, 7, 2)
}

fn last_bytes(sectors: &Sectors) -> (u8, u8) {
    if sectors.len() == 2 {
        let last = sectors.get(1);
        (last.as_bytes()[504], last.as_bytes()[505])
    } else {
        (0, 0)
    }
}

#[test]
fn a_fill_counts_up_and_a_write_says_its_digits(rt: HostRuntime) -> Result<(), Fail> {
    let fill = filled(rt.alloc())?;
    assert!(rt; last_bytes(&fill) == (45, 1));
    let write = written(rt.alloc())?;
    assert!(rt; last_bytes(&write) == (0x55, 0x55));
    Ok(())
}
