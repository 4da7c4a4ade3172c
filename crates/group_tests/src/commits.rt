//! What no clause says: that a commit is prepared where memory is ample. And what is printed of each refusal.
ghost use Rattle.std.specs.Prelude.{◌≡◌, IfOk};
ghost use Rattle.std.specs.FinSet as set;
ghost use Rattle.vg_commit.specs.Preparing.{AreCommitted};

use mda_header::Locn;
use mda_ring::{Area, Areas};
use sector_base::{PvSet, Text};
use std::alloc::{AllocError, Global};
use std::test::Fail;
use vg_commit::{CommitRefusal, Prepared, prepare_text};

// An area with room for 15 sectors, on disk 3, and on disk 5 one with seven, of which its committed text takes the first.
fn two_areas(alloc: Global) -> Result<Areas, AllocError>
    ensures { IfOk result (λ areas. AreCommitted areas (set.insert (set.insert set.empty 3) 5)) }
{
    let first = Area {
        pv: 3,
        start: 4_096,
        size: 8_192,
    };
    let second = Area {
        pv: 5,
        start: 4_096,
        size: 4_096,
    };
    let committed = Locn {
        offset: 512,
        size: 5,
        sum: 0,
    };
    let list = Vec::from_slice(alloc, &[(first, None), (second, Some(committed))])?;
    Ok(Areas::from_vec(list))
}

// Their disks.
fn disks() -> PvSet
    ensures { result ≡ set.insert (set.insert set.empty 3) 5 }
{
    let mut disks = PvSet::new();
    disks.insert(3);
    disks.insert(5);
    disks
}

// Prepares the commit of these bytes to both areas.
fn prepared(alloc: Global, bytes: &[u8]) -> Result<Result<Prepared, CommitRefusal>, AllocError> {
    let text = Text::from_vec(Vec::from_slice(alloc, bytes)?);
    Ok(prepare_text(alloc, &two_areas(alloc)?, disks(), &text))
}

#[test]
fn a_commit_is_prepared_with_ample_memory(rt: HostRuntime) -> Result<(), Fail> {
    let Ok(prepared) = prepared(rt.alloc(), b"text")? else {
        return Err("not prepared")?;
    };
    assert_eq!(rt; prepared.needs(), (12, 6));
    let (texts, headers, publish) = prepared.into_batches();
    assert_eq!(rt; texts.needs(), (4, 2));
    assert_eq!(rt; headers.needs(), (4, 2));
    assert_eq!(rt; publish.needs(), (4, 2));
    Ok(())
}

#[test]
fn the_largest_text_is_taken_and_one_more_byte_is_refused(rt: HostRuntime) -> Result<(), Fail> {
    assert!(rt; prepared(rt.alloc(), &[b'x'; 3_071])?.is_ok());
    let refused = prepared(rt.alloc(), &[b'x'; 3_072])?;
    assert!(rt; matches!(&refused, Err(CommitRefusal::TooLarge { need: 7, room: 6 })));
    Ok(())
}

#[test]
fn prints_each_refusal(rt: HostRuntime) -> Result<(), Fail> {
    let rows = [
        (CommitRefusal::NoMemory, "NoMemory"),
        (CommitRefusal::TooLarge { need: 7, room: 6 }, "TooLarge 7 6"),
    ];
    for (refusal, text) in rows {
        let said = format!(in rt.alloc(); "{refusal}")?;
        assert_eq!(rt; said.as_str(), text);
    }
    Ok(())
}
