//! Which pieces of reads and writes may be under way at once.
//!
//! Two pieces of one volume conflict where they share a sector and one of them writes; a piece conflicts with a region that
//! it lies in while that is closed for a copy, and with the suspension of its volume. A piece that enters is started or
//! deferred exactly on conflict, with what it waits for, and a deferred one waits for earlier deferred ones that it
//! conflicts with too, so that none is passed over for ever by later ones. Started pieces never conflict with one another,
//! none lies in the closed region, and none starts while its volume is suspended.
#![tactic(auto)]

mod claim;
mod kept_regions;
mod laws;
mod numbers;
mod pieces;
mod placed;
mod places;
mod regions;
mod sorted;
mod table;

pub use claim::{By, Claim, Entry};
pub use laws::claims_stay_apart;
pub use table::ClaimTable;
