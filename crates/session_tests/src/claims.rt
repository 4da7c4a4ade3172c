//! Writes and reads that share sectors, a region that is closed, suspensions, and how many steps `busy` takes.
ghost use Rattle.std.specs.Prelude.{◌≡◌, ◌<◌, ◌≤◌, ◌-◌, [], length};

use claim_table::{By, ClaimTable, Entry};
use sector_base::Piece;
use std::marker::Brand;
use std::sync::ledger::{Blank, Ledger};
use std::test::Fail;
use step_count::Steps;

fn piece(first: u64, count: u32, write: bool) -> Piece {
    Piece {
        volume: 0,
        first,
        count,
        write,
    }
}

// With at most a thousand started pieces it takes ten steps at most.
fn is_busy_in_ten<L: Ledger>(table: &ClaimTable, region: u64, blank: Blank) -> bool
    requires pieces { length table.now.started ≤ 1000 }
    requires name { blank.name ≡ L.name }
    requires parts { blank.parts ≡ L.parts }
    requires some { 0 < blank.parts }
{
    let mut steps = Steps::<L>::new(blank);
    let busy = table.busy(region, &mut steps);
    within_ten(&steps);
    busy
}

// Without one it takes none.
fn is_busy_in_none<L: Ledger>(table: &ClaimTable, region: u64, blank: Blank) -> bool
    requires pieces { table.now.started ≡ [] }
    requires name { blank.name ≡ L.name }
    requires parts { blank.parts ≡ L.parts }
    requires some { 0 < blank.parts }
{
    let mut steps = Steps::<L>::new(blank);
    let busy = table.busy(region, &mut steps);
    not_one(&steps);
    busy
}

fn within_ten<L: Ledger>(steps: &Steps<L>)
    requires { steps.now ≤ 10 }
{
    let _ = steps;
}

fn not_one<L: Ledger>(steps: &Steps<L>)
    requires { steps.now ≡ 0 }
{
    let _ = steps;
}

#[test]
fn pieces_wait_for_what_they_conflict_with(rt: HostRuntime) -> Result<(), Fail> {
    let mut table = ClaimTable::new(rt.alloc())?;
    table.reserve(2)?;
    assert_eq!(rt; table.enter(0, piece(0, 8, true), None), Entry::Started);
    assert_eq!(rt;
        table.enter(1, piece(4, 8, true), Some(7)),
        Entry::Deferred(By::Piece(0))
    );
    assert_eq!(rt; table.next_ready(), None);
    assert!(rt; table.close_region(7));
    table.leave(0);
    assert_eq!(rt; table.next_ready(), None);
    table.open_region(7);
    table.set_region(1, Some(8));
    assert_eq!(rt; table.next_ready(), Some(1));
    assert!(rt; !table.close_region(8));
    Ok(())
}

#[test]
fn a_piece_waits_for_the_end_of_a_suspension(rt: HostRuntime) -> Result<(), Fail> {
    let mut table = ClaimTable::new(rt.alloc())?;
    table.reserve(1)?;
    table.suspend(0);
    assert_eq!(rt;
        table.enter(0, piece(0, 8, false), None),
        Entry::Deferred(By::Suspended(0))
    );
    assert!(rt; table.drained(0));
    table.resume(0);
    assert_eq!(rt; table.next_ready(), Some(0));
    assert!(rt; !table.drained(0));
    Ok(())
}

#[test]
fn a_write_cut_in_two_waits_with_one_piece(rt: HostRuntime) -> Result<(), Fail> {
    let mut table = ClaimTable::new(rt.alloc())?;
    table.reserve(3)?;
    assert_eq!(rt; table.enter(0, piece(0, 8, true), None), Entry::Started);
    assert_eq!(rt;
        table.enter(1, piece(4, 4, true), None),
        Entry::Deferred(By::Piece(0))
    );
    assert_eq!(rt; table.enter(2, piece(8, 4, true), None), Entry::Started);
    table.leave(2);
    assert_eq!(rt; table.next_ready(), None);
    table.leave(0);
    assert_eq!(rt; table.next_ready(), Some(1));
    Ok(())
}

#[test]
fn two_reads_of_the_same_sectors_start(rt: HostRuntime) -> Result<(), Fail> {
    let mut table = ClaimTable::new(rt.alloc())?;
    table.reserve(2)?;
    assert_eq!(rt; table.enter(0, piece(0, 8, false), None), Entry::Started);
    assert_eq!(rt; table.enter(1, piece(0, 8, false), None), Entry::Started);
    Ok(())
}

#[test]
fn busy_takes_few_steps(rt: HostRuntime) -> Result<(), Fail> {
    let mut table = ClaimTable::new(rt.alloc())?;
    table.reserve(2)?;
    assert!(rt; !is_busy_in_none::<Brand>(&table, 8, Blank::new(1)));
    table.enter(0, piece(0, 8, true), Some(8));
    table.enter(1, piece(8, 8, true), Some(9));
    assert!(rt; is_busy_in_ten::<Brand>(&table, 8, Blank::new(1)));
    assert!(rt; !is_busy_in_ten::<Brand>(&table, 7, Blank::new(1)));
    Ok(())
}
