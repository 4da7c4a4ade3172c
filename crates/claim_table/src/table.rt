//! The table of the pieces that are under way and of those that wait.
ghost use Rattle.std.specs.Prelude.{◌≡◌, ◌≤◌, ◌<◌, ◌+◌, ◌-◌, ◌*◌, ◌^◌, None, Some, ◌==◌, ◌||◌, All, IfSome, IfNone, IfOk, IsFalse, IsTrue, MatchOption, OnErr, OnOk, filter, length, max, not, position, slice_get, slice_index_or, take, if◌then◌else◌, ℕ, ◌⊎◌, ◌++◌, ◌∷◌, [], ◌&&◌, true, false};
ghost use Rattle.std.specs.List.{list_any, position_or_len};
ghost use Rattle.std.specs.Option.{option_map};
ghost use Rattle.claim_table.specs.declared.claim.Claim.{Claim as ClaimRecord};
ghost use Rattle.claim_table.specs.Claims.{IsEntry, conflicts, is_free, is_suspended, lies_in, ready_at};
ghost use Rattle.claim_table.specs.Conflict.{clash};
ghost use Rattle.claim_table.specs.Places.{is_below};
ghost use Rattle.claim_table.specs.Steps.{after_enter, after_leave, after_ready, after_resume, after_set_region, after_suspend, has_number, no_claim, no_claims};

use crate::kept_regions::KeptRegions;
use crate::pieces::Pieces;
use crate::placed::claim_place;
use crate::places::overlap;
use crate::regions::{forget_region, has_region, note_region};
use crate::{By, Claim, Entry};
use sector_base::Piece;
use std::alloc::{AllocError, Global};
use std::collections::VecDeque;
use std::marker::{Brand, Model};
use std::sync::ledger::{Blank, Ledger};
use step_count::Steps;

/// The pieces that are under way, those that wait, the region that is closed, and the volumes that are suspended. Contracts
/// see it as the record `Claims`.
#[derive(Drop)]
pub struct ClaimTable {
    started: Pieces,
    regions: VecDeque<u64>,
    deferred: Pieces,
    closed: Option<u64>,
    suspended: Vec<u32>,
    spare: u64,
    // The pieces that left since no deferred one was ready: each that may start now clashes with one of these, unless any of them may.
    left: Vec<Claim>,
    any: bool,
}

// The place of the volume, if it is among them.
fn find_volume(volumes: &[u32], volume: u32) -> Option<usize>
    ensures { result ≡ position (λ v. v == volume) volumes.now }
{
    volumes.iter().position(|v| *v == volume)
}

// Where the volume stands.
fn place_of_volume(volumes: &[u32], volume: u32) -> usize
    requires { IsTrue (list_any (λ v. v == volume) volumes.now) }
    ensures place { result ≡ position_or_len (λ v. v == volume) volumes.now }
    ensures within { result < length volumes.now }
{
    find_volume(volumes, volume).unwrap_or(0)
}

// Notes that the piece left, where there is room for it; else any deferred piece may start now.
fn note_left(left: &mut Vec<Claim>, any: &mut bool, claim: Claim)
    ensures { any.new ≡ false → (any.old ≡ false) × (left.new.items ≡ left.old.items ++ claim ∷ []) }
{
    if left.len() < left.capacity() {
        left.push_reserved(claim);
    } else {
        *any = true;
    }
}

// Whether they are of one volume, share a sector, and one of them writes.
fn clashes(one: &Claim, other: &Claim) -> bool
    ensures { result ≡ clash one.now other.now }
{
    (one.piece.write || other.piece.write) && overlap(&claim_place(one), &other.piece)
}

// So many volumes may be suspended at once.
const SUSPENSIONS: usize = 1024;

impl Model for ClaimTable {
    ghost use Rattle.std.specs.Prelude.{◌≡◌, ◌≤◌, ◌<◌, ◌+◌, [], AllPairs, false, length, vec_capacity};
    ghost use Rattle.std.specs.VecDeque.{deque_capacity, deque_len};
    ghost use Rattle.claim_table.specs.Claims.{Claims};
    ghost use Rattle.claim_table.specs.Watched.{IsWatched};
    ghost use Rattle.claim_table.specs.Regions.{AreRegionsOf};

    ghost Value = { Claims };

    ghost view = { λ t. record { started = t.started.claims; deferred = t.deferred.claims; closed = t.closed; suspended = t.suspended.items; spare = t.spare } };

    // The regions are those of the started pieces, and the deferred ones have numbers of their own. A deferred piece has room
    // among the started ones, and a spare place is room among both. Unless any deferred piece may start, those that clash with none
    // of the pieces that left conflict with something.
    ghost invariant = { λ t. AreRegionsOf t.started.claims t.regions.items × AllPairs (λ c d. c.number < d.number) t.deferred.claims × (deque_len t.regions + t.started.room ≤ deque_capacity t.regions) × (length t.deferred.claims + t.spare ≤ t.started.room) × (t.spare ≤ t.deferred.room) × (1024 ≤ vec_capacity t.suspended) × (t.any ≡ false → IsWatched (record { started = t.started.claims; deferred = t.deferred.claims; closed = t.closed; suspended = t.suspended.items; spare = t.spare }) t.left.items [] t.deferred.claims) × (deque_len t.regions ≡ length t.regions.items) };
}

impl ClaimTable {
    /// A table with no piece, no closed region and no suspension, and room for 1,024 suspensions. Only memory can be wanting.
    pub fn new(alloc: Global) -> Result<Self, AllocError>
        ensures { IfOk result (λ table. table ≡ no_claims) }
    {
        Ok(ClaimTable {
            started: Pieces::new(alloc),
            regions: VecDeque::new(alloc),
            deferred: Pieces::new(alloc),
            closed: None,
            suspended: Vec::with_capacity(alloc, SUSPENSIONS)?,
            spare: 0,
            left: Vec::new(alloc),
            any: false,
        })
    }

    /// Makes at least so many places spare. Only memory can be wanting.
    pub fn reserve(&mut self, pieces: u64) -> Result<(), AllocError>
        ensures ok { OnOk result (self.new ≡ record self.old { spare = max pieces self.old.spare }) }
        ensures err { OnErr result (self.new ≡ self.old) }
    {
        let spare = pieces.max(self.spare);
        let room = (self.deferred.len() as u64).checked_add(spare);
        let room = room.ok_or(AllocError)?;
        self.regions.reserve(room as usize)?;
        self.started.reserve(room)?;
        self.deferred.reserve(spare)?;
        self.left.reserve(spare as usize)?;
        self.spare = spare;
        Ok(())
    }

    /// Starts or defers the piece, which lies in this region or in none. It uses up a spare place.
    pub fn enter(&mut self, number: u64, piece: Piece, region: Option<u64>) -> Entry
        requires spare { 0 < self.old.spare }
        requires started { All (λ c. c.number < number) self.old.started }
        requires deferred { All (λ c. c.number < number) self.old.deferred }
        ensures answer { IsEntry self.old (record { number = number; piece = piece; region = region }) result }
        ensures after { self.new ≡ after_enter self.old (record { number = number; piece = piece; region = region }) result }
    {
        let claim = Claim {
            number,
            piece,
            region,
        };
        let by = self.conflict(&claim, None);
        self.spare -= 1;
        match by {
            None => {
                note_region(&mut self.regions, region);
                self.started.put(claim);
                Entry::Started
            }
            Some(by) => {
                self.deferred.put(claim);
                Entry::Deferred(by)
            }
        }
    }

    /// The deferred piece lies in this region from now on, or in none.
    pub fn set_region(&mut self, number: u64, region: Option<u64>)
        requires { IsTrue (list_any (has_number number) self.old.deferred) }
        ensures { self.new ≡ after_set_region self.old number region }
    {
        let at = self.deferred.place_of(number);
        self.deferred.set_region(at, region);
        self.any = true;
    }

    /// Takes out the started or deferred piece.
    pub fn leave(&mut self, number: u64)
        requires { IsTrue (list_any (has_number number) self.old.started || list_any (has_number number) self.old.deferred) }
        ensures { self.new ≡ after_leave self.old number }
    {
        match self.started.find(number) {
            Some(at) => {
                let claim = self.started.take(at);
                forget_region(&mut self.regions, claim.region);
                note_left(&mut self.left, &mut self.any, claim);
            }
            None => {
                let at = self.deferred.place_of(number);
                let claim = self.deferred.take(at);
                note_left(&mut self.left, &mut self.any, claim);
            }
        }
    }

    /// Starts the first deferred piece that conflicts with no started piece, the closed region, a suspension or a piece that
    /// was deferred earlier, and answers its number; `None` exactly where there is none.
    #[tactic(auto, using(crate::proofs::FreePieces::ready_none))]
    pub fn next_ready(&mut self) -> Option<u64>
        ensures number { result ≡ option_map (λ c. c.number) (slice_get self.old.deferred (ready_at self.old)) }
        ensures after { MatchOption result (self.new ≡ self.old) (λ _. self.new ≡ after_ready self.old) }
    {
        let at = self.first_ready();
        if at == self.deferred.len() {
            self.left.clear();
            self.any = false;
            return None;
        }
        let claim = self.deferred.take(at);
        note_region(&mut self.regions, claim.region);
        self.started.put(claim);
        Some(claim.number)
    }

    /// Closes the region for a copy, where no started piece lies in it; else it answers false, and nothing changes.
    pub fn close_region(&mut self, region: u64) -> bool
        requires { self.old.closed ≡ None }
        ensures answer { result ≡ not (list_any (lies_in region) self.old.started) }
        ensures after { self.new ≡ (if result then record self.old { closed = Some region } else self.old) }
    {
        if self.is_busy::<Brand>(region, Blank::new(1)) {
            return false;
        }
        self.closed = Some(region);
        true
    }

    /// Opens the region again.
    pub fn open_region(&mut self, region: u64)
        requires { self.old.closed ≡ Some region }
        ensures { self.new ≡ record self.old { closed = None } }
    {
        let _ = region;
        self.closed = None;
        self.any = true;
    }

    /// Suspends the volume: no piece of it starts any more.
    pub fn suspend(&mut self, volume: u32)
        requires new { IsFalse (is_suspended self.old volume) }
        requires room { length self.old.suspended < 1024 }
        ensures { self.new ≡ after_suspend self.old volume }
    {
        self.suspended.push_reserved(volume);
    }

    /// Ends the suspension of the volume.
    pub fn resume(&mut self, volume: u32)
        requires { IsTrue (is_suspended self.old volume) }
        ensures { self.new ≡ after_resume self.old volume }
    {
        let at = place_of_volume(&self.suspended, volume);
        self.suspended.remove(at);
        self.any = true;
    }

    /// Whether no started piece is of the volume.
    pub fn drained(&self, volume: u32) -> bool
        ensures { result ≡ not (list_any (λ c. c.piece.volume == volume) self.now.started) }
    {
        !self.started.has_volume(volume)
    }

    /// Whether a started piece lies in the region. A step is a comparison with the region of a started piece; with n started
    /// pieces it takes at most d steps, where 2^d is at most 2n + 1, and so none without one.
    pub fn busy<L: Ledger>(&self, region: u64, steps: &mut Steps<L>) -> bool
        ensures answer { result ≡ list_any (lies_in region) self.now.started }
        ensures bound { 2 ^ (steps.new - steps.old) ≤ 2 * length self.now.started + 1 }
        ensures counted { steps.old ≤ steps.new }
    {
        has_region(&KeptRegions::of(&self.regions), region, steps)
    }

    // The same, by a counter of its own.
    fn is_busy<L: Ledger>(&self, region: u64, blank: Blank) -> bool
        requires name { blank.name ≡ L.name }
        requires parts { blank.parts ≡ L.parts }
        requires some { 0 < blank.parts }
        ensures { result ≡ list_any (lies_in region) self.now.started }
    {
        self.busy(region, &mut Steps::<L>::new(blank))
    }

    // Something that the claim conflicts with, where those with numbers below the limit, or all, were deferred before it.
    #[tactic(auto, using(crate::proofs::Indices::any_filter))]
    fn conflict(&self, claim: &Claim, limit: Option<u64>) -> Option<By>
        ensures none { IfNone result (IsTrue (is_free self.now (filter (λ d. is_below limit d.number) self.now.deferred) claim.now)) }
        ensures some { IfSome result (λ by. IsTrue (conflicts self.now (filter (λ d. is_below limit d.number) self.now.deferred) claim.now by)) }
    {
        if self.suspended.contains(&claim.piece.volume) {
            return Some(By::Suspended(claim.piece.volume));
        }
        if let Some(region) = self.closed
            && claim.region == Some(region)
        {
            return Some(By::Region(region));
        }
        if let Some(number) = self.started.clash(claim, None) {
            return Some(By::Piece(number));
        }
        match self.deferred.clash(claim, limit) {
            Some(number) => Some(By::Piece(number)),
            None => None,
        }
    }

    // How many pieces are deferred.
    fn waiting(&self) -> usize
        ensures { result ≡ length self.now.deferred }
    {
        self.deferred.len()
    }

    // Whether the deferred piece at this place conflicts with something.
    fn is_blocked(&self, at: usize) -> bool
        requires { at < length self.now.deferred }
        ensures { result ≡ not (is_free self.now (take at self.now.deferred) (slice_index_or self.now.deferred at no_claim)) }
    {
        let claim = self.deferred.at(at);
        self.conflict(&claim, Some(claim.number)).is_some()
    }

    // The place of the first deferred piece that conflicts with nothing, or their number. Only those that clash with a piece that left
    // are looked at, unless any may start.
    fn first_ready(&self) -> usize
        ensures place { result ≡ ready_at self.now }
        ensures within { result ≤ length self.now.deferred }
    {
        if self.any {
            return self.first_of_all();
        }
        let mut first = self.waiting();
        for claim in &self.left {
            first = self.first_beside(claim, first);
        }
        first
    }

    // The place of the first deferred piece before this one that clashes with the claim and conflicts with nothing, or this place. None
    // does where a started piece writes all that the claim covers, and none has a number below the least of those that clash. Mostly it
    // is the first of all.
    fn first_beside(&self, claim: &Claim, end: usize) -> usize
        requires { end ≤ length self.now.deferred }
        ensures within { result ≤ end }
        ensures before { (k : ℕ) (d : ClaimRecord) → k < result → clash claim.now (slice_index_or self.now.deferred k d) ≡ true
            → is_free self.now (take k self.now.deferred) (slice_index_or self.now.deferred k d) ≡ false }
        ensures here { (result ≡ end) ⊎ ((result < end) × (is_free self.now (take result self.now.deferred) (slice_index_or self.now.deferred result no_claim) ≡ true)) }
    {
        if self.started.covers(claim) {
            return end;
        }
        if end > 0 && self.is_freed(claim, 0) {
            return 0;
        }
        match self.deferred.least_clash(claim) {
            Some(number) => self.first_freed(claim, self.deferred.below(number), end),
            None => end,
        }
    }

    // The same, where none before the place `from` clashes with the claim.
    fn first_freed(&self, claim: &Claim, from: usize, end: usize) -> usize
        requires within { end ≤ length self.now.deferred }
        requires before { (k : ℕ) (d : ClaimRecord) → k < from → clash claim.now (slice_index_or self.now.deferred k d) ≡ false }
        ensures within { result ≤ end }
        ensures before { (k : ℕ) (d : ClaimRecord) → k < result → clash claim.now (slice_index_or self.now.deferred k d) ≡ true
            → is_free self.now (take k self.now.deferred) (slice_index_or self.now.deferred k d) ≡ false }
        ensures here { (result ≡ end) ⊎ ((result < end) × (is_free self.now (take result self.now.deferred) (slice_index_or self.now.deferred result no_claim) ≡ true)) }
    {
        let mut at = from.min(end);
        while at < end && !self.is_freed(claim, at) {
            at += 1;
        }
        at
    }

    // Whether the deferred piece at this place clashes with the claim, and conflicts with nothing.
    fn is_freed(&self, claim: &Claim, at: usize) -> bool
        requires { at < length self.now.deferred }
        ensures { result ≡ (clash claim.now (slice_index_or self.now.deferred at no_claim)
            && is_free self.now (take at self.now.deferred) (slice_index_or self.now.deferred at no_claim)) }
    {
        clashes(claim, &self.deferred.at(at)) && !self.is_blocked(at)
    }

    // The same of all of them.
    fn first_of_all(&self) -> usize
        ensures place { result ≡ ready_at self.now }
        ensures within { result ≤ length self.now.deferred }
    {
        let mut at = 0;
        while at < self.waiting() && self.is_blocked(at) {
            at += 1;
        }
        at
    }
}
