//! A copy-on-write snapshot of a volume, kept in a second one.
//!
//! `Vols` is the trait of volumes that are read, written and flushed, each operation complete in its call; `MemVols` are
//! volumes in memory, which tell everything. A `CowStore` keeps what an origin held when the snapshot was taken: before
//! a sector of the origin is written for the first time, its chunk of eight sectors is copied into a slot of the store and
//! made lasting, and then the entry that says so. So at every moment, in every image that a crash may leave, the store
//! opens and the snapshot reads as the origin did when it was taken (`specs/Stands.antt`).
#![tactic(auto)]

mod chunk_table;
mod cow_store;
mod layout;
mod mem_vols;
mod opening;
mod refusal;
mod saving;
mod taking;
mod vol_ops;
mod vols;

pub use cow_store::CowStore;
pub use layout::slots_for;
pub use mem_vols::MemVols;
pub use refusal::{CowRefusal, CowRefused};
pub use vols::{Failed, Vols};
