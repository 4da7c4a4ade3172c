//! Printing a group, and what stands beside it.
ghost use Rattle.std.specs.Prelude.{[], ◌∷◌, IfOk, OnErr, codes};
ghost use Rattle.conf_text.specs.Sinks.{Prints};
ghost use Rattle.meta_print.specs.Layout.{words, vg_words, group_entries, trailer, tree_of, backup_of};
ghost use Rattle.meta_print.specs.Parts.{group_keys};

use crate::lvs::write_lvs;
use crate::pvs::write_pvs;
use crate::words::write_words_set;
use conf_text::{TextSink, write_close, write_number, write_open, write_text, write_words};
use meta_model::{Group, VgStatus};
use std::alloc::AllocError;

// The committed text.
pub(crate) fn write_tree<S: TextSink>(
    sink: &mut S,
    group: &Group,
    now: u64,
) -> Result<(), AllocError>
    ensures added { IfOk result (λ _. Prints S.Adds sink.old (tree_of group.now now) sink.new) }
    ensures failed { OnErr result S.MayFail }
{
    write_group(sink, group)?;
    write_trailer(sink, now)
}

// The text of a backup.
pub(crate) fn write_backup<S: TextSink>(
    sink: &mut S,
    group: &Group,
    now: u64,
) -> Result<(), AllocError>
    ensures added { IfOk result (λ _. Prints S.Adds sink.old (backup_of group.now now) sink.new) }
    ensures failed { OnErr result S.MayFail }
{
    write_trailer(sink, now)?;
    write_group(sink, group)
}

fn write_group<S: TextSink>(sink: &mut S, group: &Group) -> Result<(), AllocError>
    ensures added { IfOk result (λ _. Prints S.Adds sink.old (group_entries group.now) sink.new) }
    ensures failed { OnErr result S.MayFail }
{
    write_open(sink, group.name.as_bytes())?;
    write_group_keys(sink, group)?;
    write_open(sink, b"physical_volumes")?;
    write_pvs(sink, &group.pvs)?;
    write_close(sink)?;
    write_lvs(sink, group)?;
    write_close(sink)
}

fn write_group_keys<S: TextSink>(sink: &mut S, group: &Group) -> Result<(), AllocError>
    ensures added { IfOk result (λ _. Prints S.Adds sink.old (group_keys group.now) sink.new) }
    ensures failed { OnErr result S.MayFail }
{
    write_text(sink, b"id", &group.id.hyphen())?;
    write_number(sink, b"seqno", group.seqno)?;
    write_text(sink, b"format", b"lvm2")?;
    write_vg_status(sink, group.status)?;
    write_words(sink, b"flags", &[])?;
    write_number(sink, b"extent_size", group.extent_size)?;
    write_number(sink, b"max_lv", group.max_lv)?;
    write_number(sink, b"max_pv", group.max_pv)?;
    write_number(sink, b"metadata_copies", group.copies)
}

fn write_vg_status<S: TextSink>(sink: &mut S, status: VgStatus) -> Result<(), AllocError>
    ensures added { IfOk result (λ _. Prints S.Adds sink.old (words (codes "status") (vg_words status) ∷ []) sink.new) }
    ensures failed { OnErr result S.MayFail }
{
    let words: [(bool, &[u8]); 3] = [
        (status.is_resizeable(), b"RESIZEABLE"),
        (status.is_readable(), b"READ"),
        (status.is_writable(), b"WRITE"),
    ];
    write_words_set(sink, b"status", &words)
}

// What stands beside the group.
fn write_trailer<S: TextSink>(sink: &mut S, now: u64) -> Result<(), AllocError>
    ensures added { IfOk result (λ _. Prints S.Adds sink.old (trailer now) sink.new) }
    ensures failed { OnErr result S.MayFail }
{
    write_text(sink, b"contents", b"Text Format Volume Group")?;
    write_number(sink, b"version", 1)?;
    write_text(sink, b"description", b"")?;
    write_text(sink, b"creation_host", b"localhost")?;
    write_number(sink, b"creation_time", now)
}
