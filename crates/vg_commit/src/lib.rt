//! Committing a metadata text to many areas at once: where a crash comes in between, each area shows the old text or the new
//! one, whole.
//!
//! A commit is three batches of writes, each lasting before the next: the texts into sectors that the committed texts
//! leave free; the headers with the old entry still in force and the new one beside it; the headers with the new entry.
//! Where nothing else is in flight they are carried out in turn (`Prepared::into_batches`). Among other operations a commit
//! is a machine that takes its completions one by one: `Precommitting` until the headers that name the texts last,
//! `Precommitted`, then `Committing` until it is `Committed`.
//!
//! `specs/Written` has what is written, `specs/Showing` what an area shows in an image, `specs/SectorReading` the same for
//! each sector, `specs/Commits` what makes three batches a commit, `specs/Phases` what the machine does, `specs/CommitHolds`
//! what it has made sure of in each phase, and `specs/Laws` its laws.
#![tactic(auto)]

mod committed;
mod committing;
mod laws;
mod plan;
mod precommitting;
mod prepared;
mod preparing;
mod puts;
mod refusal;

pub use committed::Committed;
pub use committing::{ComStep, Committing, Precommitted};
pub use laws::commit_laws;
pub use precommitting::{PreStep, Precommitting};
pub use prepared::Prepared;
pub use preparing::{prepare, prepare_text};
pub use puts::header_write;
pub use refusal::CommitRefusal;
