//! What each command that changes nothing does, a file for each.
pub mod pvck;
pub mod scan_report;
pub mod vgcfgbackup;
