//! A piece starts, and has an operation in flight; and one leaves, where one that conflicts with it is to start then.
use crate::{PieceTable, Stage};
use claim_table::Entry;
use flush_waits::Ticket;
use sector_base::{Piece, Sectors};

const PIECE: Piece = Piece {
    volume: 0,
    first: 0,
    count: 1,
    write: true,
};

#[test]
fn an_operation_flies_and_lands(rt: HostRuntime) {
    let sectors = Sectors::zeroed(rt.alloc(), 1).expect(&rt, "memory");
    let mut table = PieceTable::new(rt.alloc()).expect(&rt, "memory");
    table.reserve(1, 1).expect(&rt, "memory");
    let (number, entry) = table.enter(4, PIECE, None, sectors, None);
    assert!(rt; entry == Entry::Started);
    assert!(rt; table.start(number).len() == 1);
    table.flies(number, 100, true);
    let stage = Stage::Started {
        flying: 1,
        lost: Some(3),
    };
    table.set_stage(number, stage);
    assert!(rt; table.lands(100).is_some());
}

#[test]
fn what_conflicts_starts_when_the_first_leaves(rt: HostRuntime) {
    let ticket = Ticket::new(rt.alloc()).expect(&rt, "memory");
    let sectors = Sectors::zeroed(rt.alloc(), 1).expect(&rt, "memory");
    let others = Sectors::zeroed(rt.alloc(), 1).expect(&rt, "memory");
    let mut table = PieceTable::new(rt.alloc()).expect(&rt, "memory");
    table.reserve(2, 0).expect(&rt, "memory");
    table.agree();
    let (first, _) = table.enter(4, PIECE, None, sectors, Some(ticket));
    assert!(rt; table.get(first).line == 4);
    assert!(rt; table.take_ticket(first).is_some());
    let (second, _) = table.enter(5, PIECE, None, others, None);
    table.leave(first);
    assert!(rt; table.next_ready() == Some(second));
}
