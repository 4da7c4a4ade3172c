//! Printing the physical volumes of a group.
ghost use Rattle.std.specs.Prelude.{IfOk, OnErr, flat_map};
ghost use Rattle.conf_text.specs.Sinks.{Prints};
ghost use Rattle.meta_print.specs.Layout.{pv_entries};

use crate::words::write_words_set;
use conf_text::{TextSink, write_close, write_number, write_open, write_text};
use lvm_name::VolumeName;
use meta_model::{Pv, PvTable};
use std::alloc::AllocError;

// The sections of the volumes, one after another.
pub(crate) fn write_pvs<S: TextSink>(sink: &mut S, pvs: &PvTable) -> Result<(), AllocError>
    ensures added { IfOk result (λ _. Prints S.Adds sink.old (flat_map pv_entries pvs.now) sink.new) }
    ensures failed { OnErr result S.MayFail }
{
    for number in 0..pvs.len() {
        let (name, pv) = pvs.get(number);
        write_pv(sink, name, pv)?;
    }
    Ok(())
}

fn write_pv<S: TextSink>(sink: &mut S, name: &VolumeName, pv: &Pv) -> Result<(), AllocError>
    ensures added { IfOk result (λ _. Prints S.Adds sink.old (pv_entries (name.now, pv.now)) sink.new) }
    ensures failed { OnErr result S.MayFail }
{
    write_open(sink, name.as_bytes())?;
    write_text(sink, b"id", &pv.id.hyphen())?;
    write_text(sink, b"device", pv.device.as_bytes())?;
    write_words_set(sink, b"status", &[(pv.allocatable, b"ALLOCATABLE")])?;
    write_words_set(sink, b"flags", &[(pv.missing, b"MISSING")])?;
    write_number(sink, b"dev_size", pv.dev_size)?;
    write_number(sink, b"pe_start", pv.pe_start)?;
    write_number(sink, b"pe_count", pv.pe_count)?;
    write_close(sink)
}
