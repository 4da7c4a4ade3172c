//! A row of disks in memory, which behaves by the disk model and tells its images and its record.
//!
//! `MemShelf` completes and fails its operations as its plan says, and `images_at` gives what a crash may leave. The
//! trait `Shelf` and all definitions of the model are those of `disk_model`, on which the layers above stand; tests
//! stand on this crate.
#![tactic(auto)]

mod images;
mod mem_shelf;
mod plan;

pub use disk_model::{DiskFault, Done, Op, Shelf, flush, put_sector, read_span, run_one};
pub use images::Images;
pub use mem_shelf::MemShelf;
pub use plan::{Fail, Hold, ShelfPlan};
