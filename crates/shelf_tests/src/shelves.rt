//! What no clause says: that calls succeed, and the worked rows of the disk model.
ghost use Rattle.std.specs.Prelude.{◌≡◌, ◌<◌, ◌≤◌, ◌+◌, [], ◌∷◌, length, slice_index_or, IfOk};
ghost use Rattle.dev_shelf.specs.DiskRow.{new_state};

use dev_shelf::{Fail, Hold, Images, MemShelf, Op, Shelf, ShelfPlan, put_sector, run_one};
use sector_base::{Bytes512, Sectors, Span};
use std::alloc::{AllocError, Global};
use std::process::Abort;
use std::test::Fail as Failed;

const SECTOR_0: Span = Span {
    pv: 0,
    first: 0,
    count: 1,
};

const SECTORS_0_1: Span = Span {
    pv: 0,
    first: 0,
    count: 2,
};

// One sector, all of this byte.
fn one(alloc: Global, byte: u8) -> Result<Sectors, AllocError>
    ensures { IfOk result (λ sectors. length sectors ≡ 1) }
{
    let mut list = Vec::new(alloc);
    list.push(Bytes512::new([byte; 512]))?;
    Ok(Sectors::from_vec(list))
}

// Two sectors, each all of its byte.
fn two(alloc: Global, first: u8, second: u8) -> Result<Sectors, AllocError>
    ensures { IfOk result (λ sectors. length sectors ≡ 2) }
{
    let mut list = Vec::new(alloc);
    list.push(Bytes512::new([first; 512]))?;
    list.push(Bytes512::new([second; 512]))?;
    Ok(Sectors::from_vec(list))
}

// The first byte of each of two sectors.
fn first_bytes(sectors: &Sectors) -> (u8, u8)
    requires { 1 < length sectors.now }
{
    (sectors.get(0).as_bytes()[0], sectors.get(1).as_bytes()[0])
}

// A shelf of two disks, of 8 and 4 sectors of zeros.
fn two_disks(alloc: Global, picks: Vec<u64>, fails: Vec<Fail>) -> Result<MemShelf, AllocError>
    ensures { IfOk result (λ shelf. (images : _) × (length images ≡ 2) × (length (slice_index_or images 0 []) ≡ 8) × (length (slice_index_or images 1 []) ≡ 4)
        × (⟦<MemShelf as Shelf>⟧.state shelf ≡ new_state images)) }
{
    let mut disks = Vec::new(alloc);
    disks.push(Sectors::zeroed(alloc, 8)?)?;
    disks.push(Sectors::zeroed(alloc, 4)?)?;
    let plan = ShelfPlan {
        picks,
        fails,
        holds: Vec::new(alloc),
        limit: 0,
    };
    MemShelf::new(alloc, Images::from_vec(disks), plan)
}

// Writes sectors 0 and 1 of disk 0, flushes it, and reads them again.
fn write_and_read<S: Shelf>(alloc: Global, shelf: &mut S) -> Result<(u8, u8), Failed>
    requires idle { (S.state shelf.old).in_flight ≡ [] }
    requires disk { 0 < length (S.state shelf.old).sizes }
    requires sectors { 2 ≤ slice_index_or (S.state shelf.old).sizes 0 0 }
    ensures { (S.state shelf.new).sizes ≡ (S.state shelf.old).sizes }
{
    shelf.reserve(3, 4)?;
    let _write = run_one(shelf, Op::Write(SECTORS_0_1, two(alloc, 7, 8)?));
    let _flush = run_one(shelf, Op::Flush(0));
    let read = run_one(shelf, Op::Read(SECTORS_0_1, Sectors::zeroed(alloc, 2)?));
    match read.op {
        Op::Read(_, buffer) => Ok(first_bytes(&buffer)),
        Op::Write(_, _) | Op::Flush(_) => unreachable!(),
    }
}

#[test]
fn reads_what_was_written(rt: HostRuntime) -> Result<(), Failed> {
    let alloc = rt.alloc();
    let mut shelf = two_disks(alloc, Vec::new(alloc), Vec::new(alloc))?;
    assert_eq!(rt; write_and_read(alloc, &mut shelf)?, (7, 8));
    assert_eq!(rt; (shelf.steps(), shelf.count(), shelf.sectors(1)), (6, 2, 4));
    assert!(rt; shelf.reap().is_none() && shelf.settle().is_none());
    Ok(())
}

// A list of these picks.
fn picks(alloc: Global, list: &[u64]) -> Result<Vec<u64>, AllocError> {
    Vec::from_slice(alloc, list)
}

// The plan that this operation fails, with so many new sectors.
fn failing(alloc: Global, tag: u64, fresh: u32) -> Result<Vec<Fail>, AllocError> {
    let mut list = Vec::new(alloc);
    list.push(Fail { tag, fresh })?;
    Ok(list)
}

#[test]
fn a_pick_is_taken_modulo_the_number_that_are_ready(rt: HostRuntime) -> Result<(), Failed> {
    let alloc = rt.alloc();
    let mut shelf = two_disks(alloc, picks(alloc, &[5])?, Vec::new(alloc))?;
    shelf.reserve(3, 3)?;
    let older = shelf.submit(Op::Write(SECTOR_0, one(alloc, 1)?));
    let newer = shelf.submit(Op::Write(SECTOR_0, one(alloc, 2)?));
    // Number 5 modulo 2 is the newer one, and after the last pick comes the oldest.
    assert_eq!(rt; shelf.reap().ok_or("none")?.tag, newer);
    assert_eq!(rt; shelf.reap().ok_or("none")?.tag, older);
    let read = run_one(&mut shelf, Op::Read(SECTOR_0, one(alloc, 0)?));
    match read.op {
        Op::Read(_, buffer) => assert_eq!(rt; buffer.get(0), Bytes512::new([1; 512])),
        Op::Write(_, _) | Op::Flush(_) => unreachable!(),
    }
    Ok(())
}

#[test]
fn a_failed_write_leaves_its_first_sectors_new(rt: HostRuntime) -> Result<(), Failed> {
    let alloc = rt.alloc();
    let mut shelf = two_disks(alloc, Vec::new(alloc), failing(alloc, 0, 1)?)?;
    assert_eq!(rt; write_and_read(alloc, &mut shelf)?, (7, 0));
    assert_eq!(rt; (shelf.faults(0), shelf.faults(1)), (1, 0));
    Ok(())
}

#[test]
fn a_failed_flush_counts_on_its_own_disk(rt: HostRuntime) -> Result<(), Failed> {
    let alloc = rt.alloc();
    let mut shelf = two_disks(alloc, Vec::new(alloc), failing(alloc, 0, 0)?)?;
    shelf.reserve(1, 0)?;
    let tag = shelf.submit(Op::Flush(1));
    let done = shelf.settle().ok_or("none")?;
    assert!(rt; done.tag == tag && !done.well);
    assert_eq!(rt;
        (shelf.faults(0), shelf.faults(1), shelf.steps()),
        (0, 1, 2)
    );
    Ok(())
}

// The first byte of this sector of disk 0, in the image that the choices take at the moment.
fn byte_at(
    rt: &impl Abort,
    shelf: &MemShelf,
    moment: u64,
    choices: &Vec<u64>,
    sector: usize,
) -> Result<u8, Failed> {
    assert!(rt; moment <= shelf.moments());
    let images = shelf.images_at(moment, choices)?;
    assert!(rt; images.len() > 0);
    let disk = images.get(0);
    assert!(rt; sector < disk.len());
    Ok(disk.get(sector).as_bytes()[0])
}

// Submits a write of this byte to sector 0 of disk 0.
fn submit_write<S: Shelf>(alloc: Global, shelf: &mut S, byte: u8) -> Result<(), Failed>
    requires disk { 0 < length (S.state shelf.old).sizes }
    requires sectors { 1 ≤ slice_index_or (S.state shelf.old).sizes 0 0 }
    ensures { (S.state shelf.new).sizes ≡ (S.state shelf.old).sizes }
{
    shelf.reserve(1, 1)?;
    let _tag = shelf.submit(Op::Write(SECTOR_0, one(alloc, byte)?));
    Ok(())
}

// Submits a flush of disk 0.
fn submit_flush<S: Shelf>(shelf: &mut S) -> Result<(), Failed>
    requires { 0 < length (S.state shelf.old).sizes }
    ensures { (S.state shelf.new).sizes ≡ (S.state shelf.old).sizes }
{
    shelf.reserve(1, 0)?;
    let _tag = shelf.submit(Op::Flush(0));
    Ok(())
}

// Completes so many operations.
fn complete<S: Shelf>(shelf: &mut S, count: usize)
    ensures { (S.state shelf.new).sizes ≡ (S.state shelf.old).sizes }
{
    for _ in 0..count {
        let _done = shelf.settle();
    }
}

#[test]
fn a_flush_drops_what_was_overtaken_when_it_was_submitted(rt: HostRuntime) -> Result<(), Failed> {
    let alloc = rt.alloc();
    let mut shelf = two_disks(alloc, picks(alloc, &[0, 1, 1])?, Vec::new(alloc))?;
    submit_write(alloc, &mut shelf, 1)?;
    submit_write(alloc, &mut shelf, 2)?;
    submit_flush(&mut shelf)?;
    // The first write and this flush complete, then a later flush, then the second write, and then the last flush.
    complete(&mut shelf, 2);
    submit_flush(&mut shelf)?;
    complete(&mut shelf, 2);
    submit_flush(&mut shelf)?;
    complete(&mut shelf, 1);
    assert_eq!(rt; shelf.moments(), 10);
    for (moment, choice, want) in [
        (0, 1, 0),
        (1, 0, 0),
        (1, 1, 1),
        (1, 2, 0),
        (2, 2, 2),
        (5, 0, 0),
        (6, 1, 1),
        (7, 0, 1),
        (7, 1, 2),
        (9, 0, 1),
        (10, 0, 2),
        (10, 1, 2),
    ] {
        let found = byte_at(&rt, &shelf, moment, &picks(alloc, &[choice])?, 0)?;
        assert_eq!(rt; found, want, "at {moment}, {choice}");
    }
    Ok(())
}

// Submits a write of the byte 2 to sector 2 of disk 0.
fn submit_other<S: Shelf>(alloc: Global, shelf: &mut S) -> Result<(), Failed>
    requires disk { 0 < length (S.state shelf.old).sizes }
    requires sectors { 3 ≤ slice_index_or (S.state shelf.old).sizes 0 0 }
    ensures { (S.state shelf.new).sizes ≡ (S.state shelf.old).sizes }
{
    shelf.reserve(1, 1)?;
    let span = Span {
        pv: 0,
        first: 2,
        count: 1,
    };
    let _tag = shelf.submit(Op::Write(span, one(alloc, 2)?));
    Ok(())
}

#[test]
fn a_sector_with_one_value_takes_no_choice(rt: HostRuntime) -> Result<(), Failed> {
    let alloc = rt.alloc();
    let mut shelf = two_disks(alloc, Vec::new(alloc), Vec::new(alloc))?;
    submit_write(alloc, &mut shelf, 1)?;
    submit_other(alloc, &mut shelf)?;
    for (list, want) in [([0, 0], (0, 0)), ([0, 1], (0, 2)), ([1, 0], (1, 0))] {
        let choices = picks(alloc, &list)?;
        let first = byte_at(&rt, &shelf, 2, &choices, 0)?;
        let other = byte_at(&rt, &shelf, 2, &choices, 2)?;
        assert_eq!(rt; (first, other), want);
    }
    assert_eq!(rt; byte_at(&rt, &shelf, 2, &Vec::new(alloc), 2)?, 0);
    Ok(())
}

// A shelf of a disk of 8 sectors, on which a write of sector 0 is held until one of sector 2 is flushed.
fn holding_disk(alloc: Global, picks: Vec<u64>, limit: u64) -> Result<MemShelf, AllocError>
    ensures { IfOk result (λ shelf. (images : _) × (length images ≡ 1) × (length (slice_index_or images 0 []) ≡ 8) × (⟦<MemShelf as Shelf>⟧.state shelf ≡ new_state images)) }
{
    let mut disks = Vec::new(alloc);
    disks.push(Sectors::zeroed(alloc, 8)?)?;
    let mut holds = Vec::new(alloc);
    holds.push(Hold {
        pv: 0,
        sector: 0,
        until_pv: 0,
        until: 2,
    })?;
    let plan = ShelfPlan {
        picks,
        fails: Vec::new(alloc),
        holds,
        limit,
    };
    MemShelf::new(alloc, Images::from_vec(disks), plan)
}

// The tag of the operation that is reaped, if one is.
fn reaped<S: Shelf>(shelf: &mut S) -> Option<u64>
    ensures { (S.state shelf.new).sizes ≡ (S.state shelf.old).sizes }
{
    Some(shelf.reap()?.tag)
}

#[test]
fn a_held_write_waits_for_the_flush_of_another(rt: HostRuntime) -> Result<(), Failed> {
    let alloc = rt.alloc();
    let mut shelf = holding_disk(alloc, Vec::new(alloc), 1_000)?;
    submit_write(alloc, &mut shelf, 1)?;
    submit_other(alloc, &mut shelf)?;
    assert_eq!(rt; reaped(&mut shelf), Some(1));
    assert_eq!(rt; reaped(&mut shelf), None);
    submit_flush(&mut shelf)?;
    assert_eq!(rt; reaped(&mut shelf), Some(2));
    assert_eq!(rt; reaped(&mut shelf), Some(0));
    assert_eq!(rt; shelf.forced(), 0);
    Ok(())
}

#[test]
fn a_pick_is_taken_of_those_that_are_ready(rt: HostRuntime) -> Result<(), Failed> {
    let alloc = rt.alloc();
    let mut shelf = holding_disk(alloc, picks(alloc, &[3])?, 1)?;
    submit_write(alloc, &mut shelf, 1)?;
    submit_other(alloc, &mut shelf)?;
    submit_flush(&mut shelf)?;
    // Number 3 modulo 2 is the flush. It was submitted after the write that the held one waits for.
    assert_eq!(rt; reaped(&mut shelf), Some(2));
    assert_eq!(rt; reaped(&mut shelf), Some(1));
    assert_eq!(rt; reaped(&mut shelf), Some(0));
    assert_eq!(rt; shelf.forced(), 0);
    Ok(())
}

#[test]
fn the_oldest_held_write_is_let_go_after_vain_answers(rt: HostRuntime) -> Result<(), Failed> {
    let alloc = rt.alloc();
    let mut shelf = holding_disk(alloc, Vec::new(alloc), 2)?;
    submit_write(alloc, &mut shelf, 1)?;
    submit_write(alloc, &mut shelf, 2)?;
    assert_eq!(rt; reaped(&mut shelf), None);
    assert_eq!(rt; reaped(&mut shelf), None);
    assert_eq!(rt; shelf.forced(), 1);
    assert_eq!(rt; reaped(&mut shelf), Some(0));
    assert_eq!(rt; reaped(&mut shelf), None);
    assert_eq!(rt; shelf.forced(), 1);
    // What waits for the second lets it go at once.
    assert_eq!(rt; shelf.settle().ok_or("none")?.tag, 1);
    assert_eq!(rt; (shelf.forced(), shelf.steps()), (2, 4));
    Ok(())
}

// How many sectors are put in the long record, one after another.
const PUTS: u64 = 600;

// Two disks of 2,112 sectors of zeros.
fn large_disks(alloc: Global) -> Result<MemShelf, AllocError>
    ensures { IfOk result (λ shelf. (images : _) × (length images ≡ 2) × (length (slice_index_or images 0 []) ≡ 2112) × (length (slice_index_or images 1 []) ≡ 2112)
        × (⟦<MemShelf as Shelf>⟧.state shelf ≡ new_state images)) }
{
    let mut disks = Vec::new(alloc);
    disks.push(Sectors::zeroed(alloc, 2112)?)?;
    disks.push(Sectors::zeroed(alloc, 2112)?)?;
    let plan = ShelfPlan {
        picks: Vec::new(alloc),
        fails: Vec::new(alloc),
        holds: Vec::new(alloc),
        limit: 0,
    };
    MemShelf::new(alloc, Images::from_vec(disks), plan)
}

// Where the put of this number goes: its disk, and its sector, one of 32 on each disk.
fn place_of(put: u64) -> (u32, u64)
    ensures disk { result.0 < 2 }
    ensures sector { result.1 < 2112 }
{
    (u32::from(put % 2 == 1), put / 2 % 32 * 66)
}

// The byte that the put of this number writes.
fn byte_of(put: u64) -> u8 {
    (put % 251 + 1) as u8
}

// Puts one sector more.
fn put_more<S: Shelf>(alloc: Global, shelf: &mut S, put: u64) -> Result<(), Failed>
    requires idle { (S.state shelf.old).in_flight ≡ [] }
    requires sizes { (S.state shelf.old).sizes ≡ 2112 ∷ 2112 ∷ [] }
    ensures idle { IfOk result (λ _. (S.state shelf.new).in_flight ≡ []) }
    ensures sizes { IfOk result (λ _. (S.state shelf.new).sizes ≡ 2112 ∷ 2112 ∷ []) }
{
    shelf.reserve(2, 1)?;
    let (pv, sector) = place_of(put);
    put_sector(shelf, pv, sector, one(alloc, byte_of(put))?)?;
    Ok(())
}

// The first byte that a crash at this moment leaves in this sector, with this choice.
fn left_at(
    rt: &impl Abort,
    shelf: &MemShelf,
    moment: u64,
    choices: &Vec<u64>,
    place: (u32, u64),
) -> Result<u8, Failed> {
    assert!(rt; moment <= shelf.moments());
    let images = shelf.images_at(moment, choices)?;
    let (pv, sector) = place;
    assert!(rt; (pv as usize) < images.len());
    let disk = images.get(pv as usize);
    assert!(rt; sector < disk.len() as u64);
    Ok(disk.get(sector as usize).as_bytes()[0])
}

#[test]
fn each_moment_of_a_long_record_has_its_images(rt: HostRuntime) -> Result<(), Failed> {
    let alloc = rt.alloc();
    let mut shelf = large_disks(alloc)?;
    for put in 0..PUTS {
        put_more(alloc, &mut shelf, put)?;
    }
    assert_eq!(rt; shelf.moments(), 4 * PUTS);
    let oldest = Vec::new(alloc);
    let newest = picks(alloc, &[1])?;
    for put in 0..PUTS {
        let place = place_of(put);
        let before = if put < 64 { 0 } else { byte_of(put - 64) };
        // The old value is left until the flush has completed, and the new one may be from the write on.
        for step in 1..4 {
            let found = left_at(&rt, &shelf, 4 * put + step, &oldest, place)?;
            assert_eq!(rt; found, before, "at {put}, {step}");
        }
        let found = left_at(&rt, &shelf, 4 * put + 1, &newest, place)?;
        assert_eq!(rt; found, byte_of(put), "at {put}");
        let found = left_at(&rt, &shelf, 4 * put + 4, &oldest, place)?;
        assert_eq!(rt; found, byte_of(put), "after {put}");
    }
    Ok(())
}
