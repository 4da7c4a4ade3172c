//! Pieces by number, with their places sorted beside them.
ghost use Rattle.std.specs.Prelude.{◌≡◌, ◌<◌, ◌≤◌, ◌-◌, ◌&&◌, ◌==◌, ℕ, [], IfNone, IfSome, IsFalse, IsTrue, OnErr, OnOk, length, max, nat_lt, position, remove, slice_index_or, slice_set, true};
ghost use Rattle.std.specs.List.{insert, list_any};
ghost use Rattle.claim_table.specs.declared.claim.Claim.{Claim as ClaimRecord};
ghost use Rattle.claim_table.specs.Conflict.{clash};
ghost use Rattle.claim_table.specs.Places.{is_below};
ghost use Rattle.claim_table.specs.Steps.{has_number, no_claim, number_at, place_by_number};

use crate::Claim;
use crate::numbers::{find_number, first_from};
use crate::placed::{Placed, claim_place, is_over};
use crate::places::{first_met, is_of_volume};
use crate::sorted::{put_in, take_at, take_out};
use std::alloc::{AllocError, Global};
use std::collections::VecDeque;
use std::marker::Model;

// Pieces in the order of their numbers, their places in order, and what none is longer than. There is room for so many more.
#[derive(Drop)]
pub(crate) struct Pieces {
    claims: VecDeque<Claim>,
    places: VecDeque<Placed>,
    longest: u32,
    room: u64,
}

impl Model for Pieces {
    ghost use Rattle.std.specs.Prelude.{◌≡◌, ◌≤◌, ◌+◌, length};
    ghost use Rattle.std.specs.VecDeque.{deque_capacity, deque_len};
    ghost use Rattle.claim_table.specs.Places.{IsIndexed, Kept};

    ghost Value = { Kept };

    ghost view = { λ p. record { claims = p.claims.items; room = p.room } };

    ghost invariant = { λ p. IsIndexed p.claims.items p.places.items p.longest × (deque_len p.claims + p.room ≤ deque_capacity p.claims) × (deque_len p.places + p.room ≤ deque_capacity p.places) × (deque_len p.claims ≡ length p.claims.items) × (deque_len p.places ≡ length p.places.items) };
}

impl Pieces {
    // None, and no room.
    pub(crate) fn new(alloc: Global) -> Self
        ensures { result ≡ record { claims = []; room = 0 } }
    {
        Pieces {
            claims: VecDeque::new(alloc),
            places: VecDeque::new(alloc),
            longest: 0,
            room: 0,
        }
    }

    // Makes room for at least so many more.
    pub(crate) fn reserve(&mut self, room: u64) -> Result<(), AllocError>
        ensures ok { OnOk result (self.new ≡ record self.old { room = max room self.old.room }) }
        ensures err { OnErr result (self.new ≡ self.old) }
    {
        let room = room.max(self.room);
        self.claims.reserve(room as usize)?;
        self.places.reserve(room as usize)?;
        self.room = room;
        Ok(())
    }

    // Puts the piece in, by its number.
    pub(crate) fn put(&mut self, claim: Claim)
        requires { 0 < self.old.room }
        ensures { self.new ≡ record { claims = insert self.old.claims (place_by_number self.old.claims claim.number) claim; room = self.old.room - 1 } }
    {
        let at = first_from(&self.claims, claim.number);
        put_in(&mut self.places, claim_place(&claim));
        match self.claims.insert(at, claim) {
            Ok(()) => {}
            Err(_) => unreachable!(),
        }
        self.longest = self.longest.max(claim.piece.count);
        self.room -= 1;
    }

    // Takes out the piece at this place.
    pub(crate) fn take(&mut self, at: usize) -> Claim
        requires { at < length self.old.claims }
        ensures claim { result ≡ slice_index_or self.old.claims at no_claim }
        ensures after { self.new ≡ record self.old { claims = remove self.old.claims at } }
    {
        let claim = take_at(&mut self.claims, at);
        take_out(&mut self.places, &claim_place(&claim));
        claim
    }

    // Where the piece of this number stands, if it is here.
    pub(crate) fn find(&self, number: u64) -> Option<usize>
        ensures { result ≡ position (has_number number) self.now.claims }
    {
        find_number(&self.claims, number)
    }

    // Where the piece of this number stands, which is here.
    pub(crate) fn place_of(&self, number: u64) -> usize
        requires { IsTrue (list_any (has_number number) self.now.claims) }
        ensures place { result ≡ number_at self.now.claims number }
        ensures within { result < length self.now.claims }
    {
        self.find(number).unwrap_or(0)
    }

    // The number of one that clashes with the piece, among those of numbers below the limit, or of any.
    pub(crate) fn clash(&self, claim: &Claim, limit: Option<u64>) -> Option<u64>
        ensures some { IfSome result (λ number. IsTrue (list_any (λ d. is_below limit d.number && ((d.number == number) && clash d claim.now)) self.now.claims)) }
        ensures none { IfNone result (IsFalse (list_any (λ d. is_below limit d.number && clash d claim.now) self.now.claims)) }
    {
        first_met(&self.places, self.longest, &claim.piece, limit)
    }

    // A number below which none clashes with the piece, or none where none does.
    pub(crate) fn least_clash(&self, claim: &Claim) -> Option<u64>
        ensures { IsFalse (list_any (λ d. is_below result d.number && clash d claim.now) self.now.claims) }
    {
        let mut least = self.clash(claim, None)?;
        while let Some(lower) = self.clash(claim, Some(least)) {
            least = lower;
        }
        Some(least)
    }

    // How many have numbers below this one.
    pub(crate) fn below(&self, number: u64) -> usize
        ensures within { result ≤ length self.now.claims }
        ensures below { (k : ℕ) (d : ClaimRecord) → k < result → nat_lt (slice_index_or self.now.claims k d).number number ≡ true }
    {
        first_from(&self.claims, number)
    }

    // Whether one writes all sectors of the piece, as far as one that clashes with it shows: then what clashes with the piece clashes with
    // that one.
    pub(crate) fn covers(&self, claim: &Claim) -> bool
        ensures { IsTrue result → (d : ClaimRecord) → clash claim.now d ≡ true → list_any (λ c. clash c d) self.now.claims ≡ true }
    {
        match self.clash(claim, None) {
            Some(number) => is_over(&self.at(self.place_of(number)), claim),
            None => false,
        }
    }

    // Whether one is of the volume.
    pub(crate) fn has_volume(&self, volume: u32) -> bool
        ensures { result ≡ list_any (λ c. c.piece.volume == volume) self.now.claims }
    {
        is_of_volume(&self.places, volume)
    }

    // The piece at this place lies in this region from now on, or in none.
    pub(crate) fn set_region(&mut self, at: usize, region: Option<u64>)
        requires { at < length self.old.claims }
        ensures { self.new ≡ record self.old { claims = slice_set self.old.claims at (record (slice_index_or self.old.claims at no_claim) { region = region }) } }
    {
        self.claims[at].region = region;
    }

    // How many there are.
    pub(crate) fn len(&self) -> usize
        ensures { result ≡ length self.now.claims }
    {
        self.claims.len()
    }

    // The piece at this place.
    pub(crate) fn at(&self, at: usize) -> Claim
        requires { at < length self.now.claims }
        ensures { result ≡ slice_index_or self.now.claims at no_claim }
    {
        self.claims[at]
    }
}
