//! Printing the logical volumes of a group.
ghost use Rattle.std.specs.Prelude.{[], ◌∷◌, IfOk, OnErr, flat_map, codes};
ghost use Rattle.conf_text.specs.Sinks.{Prints};
ghost use Rattle.meta_print.specs.Layout.{words, lv_words, lv_entries, lvs_entries};

use crate::segments::write_segments;
use crate::words::write_words_set;
use conf_text::{TextSink, write_close, write_number, write_open, write_text, write_words};
use lvm_name::VolumeName;
use meta_model::{Group, Lv, LvStatus};
use std::alloc::AllocError;

// The section of the volumes, where there are any.
pub(crate) fn write_lvs<S: TextSink>(sink: &mut S, group: &Group) -> Result<(), AllocError>
    ensures added { IfOk result (λ _. Prints S.Adds sink.old (lvs_entries group.now group.now.lvs) sink.new) }
    ensures failed { OnErr result S.MayFail }
{
    if group.lvs.len() == 0 {
        return Ok(());
    }
    write_open(sink, b"logical_volumes")?;
    write_lv_rows(sink, group)?;
    write_close(sink)
}

// The sections of the volumes, one after another.
fn write_lv_rows<S: TextSink>(sink: &mut S, group: &Group) -> Result<(), AllocError>
    ensures added { IfOk result (λ _. Prints S.Adds sink.old (flat_map (lv_entries group.now) group.now.lvs) sink.new) }
    ensures failed { OnErr result S.MayFail }
{
    for number in 0..group.lvs.len() {
        let (name, lv) = group.lvs.get(number);
        write_lv(sink, group, name, lv)?;
    }
    Ok(())
}

fn write_lv<S: TextSink>(
    sink: &mut S,
    group: &Group,
    name: &VolumeName,
    lv: &Lv,
) -> Result<(), AllocError>
    ensures added { IfOk result (λ _. Prints S.Adds sink.old (lv_entries group.now (name.now, lv.now)) sink.new) }
    ensures failed { OnErr result S.MayFail }
{
    write_open(sink, name.as_bytes())?;
    write_text(sink, b"id", &lv.id.hyphen())?;
    write_lv_status(sink, lv.status)?;
    write_words(sink, b"flags", &[])?;
    write_number(sink, b"creation_time", lv.created)?;
    write_text(sink, b"creation_host", lv.host.as_bytes())?;
    write_number(sink, b"segment_count", lv.segments.len() as u64)?;
    write_segments(sink, group, lv.segments.as_slice())?;
    write_close(sink)
}

fn write_lv_status<S: TextSink>(sink: &mut S, status: LvStatus) -> Result<(), AllocError>
    ensures added { IfOk result (λ _. Prints S.Adds sink.old (words (codes "status") (lv_words status) ∷ []) sink.new) }
    ensures failed { OnErr result S.MayFail }
{
    let words: [(bool, &[u8]); 7] = [
        (status.is_readable(), b"READ"),
        (status.is_writable(), b"WRITE"),
        (status.is_visible(), b"VISIBLE"),
        (status.is_fixed_minor(), b"FIXED_MINOR"),
        (status.is_pvmove(), b"PVMOVE"),
        (status.is_locked(), b"LOCKED"),
        (status.is_notsynced(), b"NOTSYNCED"),
    ];
    write_words_set(sink, b"status", &words)
}
