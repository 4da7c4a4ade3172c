//! The table of the pieces under way.
ghost use Rattle.std.specs.Prelude.{◌≡◌, ◌≤◌, ◌<◌, ◌+◌, ◌-◌, ◌^◌, false, IfOk, IfSome, IsTrue, MatchOption, None, OnErr, OnOk, Some, option_map, slice_get};
ghost use Rattle.std.specs.List.{list_any};
ghost use Rattle.claim_table.specs.Claims.{IsEntry, ready_at};
ghost use Rattle.claim_table.specs.Steps.{has_number};
ghost use Rattle.claim_table.specs.declared.claim.Entry.TheVariants as entry;
ghost use Rattle.piece_table.specs.Pieces.{AreClaimed, AreNumbered, claim_of, flying_at, flying_of, is_among, is_started, is_waiting, live_at, may_start, no_pieces, owner_at, sectors_at};
ghost use Rattle.piece_table.specs.declared.live.Stage.TheVariants.{Started};
ghost use Rattle.piece_table.specs.Steps.{after_enter, after_flies, after_lands, after_leave, after_ready, after_reserve, live_of, with_flying, with_stage, without_ticket};

use crate::live::{LivePiece, Owner, Stage};
use claim_table::{ClaimTable, Entry};
use flush_waits::Ticket;
use indexmap::IndexMap;
use sector_base::{Piece, Sectors};
use std::alloc::{AllocError, Global};
use std::marker::Model;

/// The pieces under way, and whose the operations in flight are. Contracts see it as the record `Pieces`.
#[derive(Drop)]
pub struct PieceTable {
    claims: ClaimTable,
    lives: IndexMap<u64, LivePiece>,
    owners: IndexMap<u64, Owner>,
    next: u64,
    spare_ops: u64,
}

impl Model for PieceTable {
    ghost use Rattle.std.specs.Prelude.{◌<◌, ◌≤◌, ◌+◌, ◌^◌};
    ghost use Rattle.indexmap.specs.IndexMap.{spare as room};
    ghost use Rattle.piece_table.specs.Pieces.{AreClaimed, AreFlying, AreNumbered, AreWaiting, Pieces};

    ghost Value = { Pieces };

    ghost view = { λ t. record { claims = t.claims; lives = t.lives.entries; owners = t.owners.entries; next = t.next; spare_ops = t.spare_ops } };

    // The pieces are those of the claims, the deferred ones unsubmitted, under numbers below the next; the operations in flight are
    // counted; what is spare has room, and can be numbered.
    ghost invariant = { λ t. AreClaimed t.claims t.lives.entries × AreNumbered t.next t.lives.entries × AreFlying t.lives.entries t.owners.entries × (t.claims.spare ≤ room t.lives) × (t.spare_ops ≤ room t.owners) × (t.next + t.claims.spare < 2 ^ 64)
        × AreWaiting t.claims.deferred t.lives.entries };
}

impl PieceTable {
    /// No piece. Only memory can be wanting.
    pub fn new(alloc: Global) -> Result<Self, AllocError>
        ensures { IfOk result (λ table. table ≡ no_pieces) }
    {
        Ok(PieceTable {
            claims: ClaimTable::new(alloc)?,
            lives: IndexMap::new(alloc),
            owners: IndexMap::new(alloc),
            next: 0,
            spare_ops: 0,
        })
    }

    /// Makes at least so many pieces and operations spare. Only memory can be wanting.
    pub fn reserve(&mut self, pieces: u64, operations: u64) -> Result<(), AllocError>
        ensures ok { OnOk result (self.new ≡ after_reserve self.old pieces operations) }
        ensures err { OnErr result (self.new ≡ self.old) }
    {
        let operations = operations.max(self.spare_ops);
        self.next.checked_add(pieces).ok_or(AllocError)?;
        self.lives.reserve(pieces as usize)?;
        self.owners.reserve(operations as usize)?;
        self.claims.reserve(pieces)?;
        self.spare_ops = operations;
        Ok(())
    }

    /// A piece of the line enters, in this region or in none, with its sectors and, where its flush is awaited, room to wait. It
    /// uses up a spare piece. Its number comes back, and whether it is to start.
    pub fn enter(
        &mut self,
        line: u32,
        piece: Piece,
        region: Option<u64>,
        sectors: Sectors,
        ticket: Option<Ticket>,
    ) -> (u64, Entry)
        requires spare { 0 < self.old.claims.spare }
        ensures number { result.0 ≡ self.old.next }
        ensures answer { IsEntry self.old.claims (claim_of self.old.next piece region) result.1 }
        ensures after { self.new ≡ after_enter self.old line piece region sectors ticket result.1 }
        ensures started { result.1 ≡ entry.Started → IsTrue (may_start self.new result.0) }
    {
        let number = self.next;
        let live = LivePiece {
            line,
            piece,
            stage: Stage::Waiting(sectors),
            ticket,
        };
        match self.lives.insert(number, live) {
            Ok(_) => {}
            Err(_) => unreachable!(),
        }
        self.next += 1;
        (number, self.claims.enter(number, piece, region))
    }

    /// The number of the first deferred piece that is to start now; `None` exactly where there is none.
    pub fn next_ready(&mut self) -> Option<u64>
        ensures number { result ≡ option_map (λ c. c.number) (slice_get self.old.claims.deferred (ready_at self.old.claims)) }
        ensures after { MatchOption result (self.new ≡ self.old) (λ _. self.new ≡ after_ready self.old) }
        ensures starts { IfSome result (λ number. IsTrue (may_start self.new number)) }
    {
        self.claims.next_ready()
    }

    /// The piece with this number.
    pub fn get(&self, number: u64) -> &LivePiece
        requires { IsTrue (is_among self.now number) }
        ensures { live_at self.now.lives number ≡ Some result.now }
    {
        match self.lives.get(&number) {
            Some(live) => live,
            None => unreachable!(),
        }
    }

    /// The piece with this number, which is to start, is started, and hands out its sectors.
    pub fn start(&mut self, number: u64) -> Sectors
        requires { IsTrue (may_start self.old number) }
        ensures sectors { result ≡ sectors_at self.old number }
        ensures after { self.new ≡ with_stage self.old number (Started 0 None) }
    {
        let Stage::Waiting(sectors) = self.swap_stage(
            number,
            Stage::Started {
                flying: 0,
                lost: None,
            },
        ) else {
            unreachable!()
        };
        sectors
    }

    /// An operation of the started piece was submitted under this tag. It uses up a spare operation.
    pub fn flies(&mut self, number: u64, tag: u64, primary: bool)
        requires spare { 0 < self.old.spare_ops }
        requires started { IsTrue (is_started self.old number) }
        requires few { flying_at self.old number < 8 }
        requires fresh { owner_at self.old.owners tag ≡ None }
        ensures { self.new ≡ after_flies self.old number tag primary }
    {
        let owner = Owner {
            piece: number,
            primary,
        };
        match self.owners.insert(tag, owner) {
            Ok(_) => {}
            Err(_) => unreachable!(),
        }
        self.spare_ops -= 1;
        match self.lives.get_mut(&number) {
            Some(live) => begin_op(&mut live.stage),
            None => unreachable!(),
        }
    }

    /// The operation with this tag has completed. Whose it was comes back, if it was a piece's. Its place isn't spare again.
    pub fn lands(&mut self, tag: u64) -> Option<Owner>
        ensures owner { result ≡ owner_at self.old.owners tag }
        ensures after { MatchOption result (self.new ≡ self.old) (λ owner. self.new ≡ after_lands self.old tag owner.piece) }
    {
        let owner = self.owners.swap_remove(&tag)?;
        match self.lives.get_mut(&owner.piece) {
            Some(live) => end_op(&mut live.stage),
            None => unreachable!(),
        }
        Some(owner)
    }

    /// The submitted piece comes to this stage, from one with as many operations in flight.
    pub fn set_stage(&mut self, number: u64, stage: Stage)
        requires among { IsTrue (is_among self.old number) }
        requires submitted { is_waiting self.old number ≡ false }
        requires flying { flying_of stage ≡ flying_at self.old number }
        ensures { self.new ≡ with_stage self.old number stage }
    {
        self.swap_stage(number, stage);
    }

    /// Takes the piece's room to wait, if it has some.
    pub fn take_ticket(&mut self, number: u64) -> Option<Ticket>
        requires { IsTrue (is_among self.old number) }
        ensures ticket { result ≡ (live_of self.old number).ticket }
        ensures after { self.new ≡ without_ticket self.old number }
    {
        match self.lives.get_mut(&number) {
            Some(live) => live.ticket.take(),
            None => unreachable!(),
        }
    }

    /// Its claims are those of its pieces, and its pieces have numbers below the next. It changes nothing.
    pub fn agree(&self)
        ensures claimed { AreClaimed self.now.claims self.now.lives }
        ensures numbered { AreNumbered self.now.next self.now.lives }
    {
        let _ = &self.claims;
    }

    /// The piece leaves, of which no operation is in flight.
    pub fn leave(&mut self, number: u64)
        requires among { IsTrue (is_among self.old number) }
        requires landed { flying_at self.old number ≡ 0 }
        ensures { self.new ≡ after_leave self.old number }
    {
        self.claims.leave(number);
        self.lives.swap_remove(&number);
    }

    // The piece, which isn't deferred, or of which something was submitted, comes to this stage, and the one before comes back.
    fn swap_stage(&mut self, number: u64, stage: Stage) -> Stage
        requires among { IsTrue (is_among self.old number) }
        requires apart { IsTrue (is_waiting self.old number) → list_any (has_number number) self.old.claims.deferred ≡ false }
        requires flying { flying_of stage ≡ flying_at self.old number }
        ensures before { result ≡ (live_of self.old number).stage }
        ensures after { self.new ≡ with_stage self.old number stage }
    {
        match self.lives.get_mut(&number) {
            Some(live) => std::mem::replace(&mut live.stage, stage),
            None => unreachable!(),
        }
    }
}

// One more of its operations is in flight.
fn begin_op(stage: &mut Stage)
    requires { flying_of stage.old < 8 }
    ensures { stage.new ≡ with_flying stage.old (λ n. n + 1) }
{
    if let Stage::Started { flying, .. } = stage {
        *flying += 1;
    }
}

// One less.
fn end_op(stage: &mut Stage)
    requires { 0 < flying_of stage.old }
    ensures { stage.new ≡ with_flying stage.old (λ n. n - 1) }
{
    if let Stage::Started { flying, .. } = stage {
        *flying -= 1;
    }
}
