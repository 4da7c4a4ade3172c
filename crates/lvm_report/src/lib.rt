//! Reports: of one disk, what stands in lvm2's sectors of it (`pvck`); of what a scan of disks found, the physical
//! volumes, the group, its volumes, and what isn't in order (`pvs`, `vgs`, `lvs`, `vgck`); and of a run, the answers of its
//! lines (`write_answers`, `answer_lines`).
//!
//! Each text is a function of plain data that was read; nothing is written to a disk.
#![tactic(auto)]

mod answers;
mod columns;
mod group_line;
mod kinds;
mod lines;
mod moving;
mod pv_lines;
mod pvck_report;
mod report;
mod reports;
mod runs;
mod vgck_lines;
mod volume_lines;

pub use answers::{answer_lines, write_answered, write_answers};
pub use pvck_report::pvck;
pub use reports::{lvs, pvs, vgck, vgs};
