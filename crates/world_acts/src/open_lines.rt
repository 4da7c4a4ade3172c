//! The lines that were begun and aren't answered, by their places among all that were begun.
ghost use Rattle.std.specs.Prelude.{◌≡◌, ◌≤◌, ◌<◌, ◌+◌, ◌-◌, ◌^◌, IsTrue, OnErr, OnOk, Some, [], is_some, length, max};
ghost use Rattle.world_acts.specs.OpenLines.{after_added, after_begun, after_closed, after_failure, after_filled, after_finished, fits_read, left_of, open_at, open_of};

use crate::open_line::{OpenLine, Work};
use line_answers::Answer;
use sector_base::Sectors;
use std::alloc::{AllocError, Global};
use std::marker::Model;

/// Of each line that was begun, in order, what is known of it until it is answered. Contracts see it as the record `Opens`.
#[derive(Drop)]
pub struct OpenLines {
    list: Vec<Option<OpenLine>>,
    spare: u64,
}

impl Model for OpenLines {
    ghost use Rattle.std.specs.Prelude.{◌≤◌, ◌+◌, vec_capacity, vec_len};
    ghost use Rattle.world_acts.specs.OpenLines.{Opens};

    ghost Value = { Opens };

    ghost view = { λ o. record { list = o.list.items; spare = o.spare } };

    ghost invariant = { λ o. vec_len o.list + o.spare ≤ vec_capacity o.list };
}

impl OpenLines {
    /// No line was begun.
    pub fn new(alloc: Global) -> Self
        ensures { result ≡ record { list = []; spare = 0 } }
    {
        OpenLines {
            list: Vec::new(alloc),
            spare: 0,
        }
    }

    /// Makes room for one line more. Only memory can be wanting.
    pub fn reserve(&mut self) -> Result<(), AllocError>
        ensures ok { OnOk result (self.new ≡ record self.old { spare = max 1 self.old.spare }) }
        ensures err { OnErr result (self.new ≡ self.old) }
    {
        let spare = self.spare.max(1);
        self.list.reserve(spare as usize)?;
        self.spare = spare;
        Ok(())
    }

    /// The next line is open.
    pub fn begin(&mut self, line: OpenLine)
        requires { 0 < self.old.spare }
        ensures { self.new ≡ after_begun self.old line }
    {
        self.list.push_reserved(Some(line));
        self.spare -= 1;
    }

    /// Whether the line at this place is open.
    pub fn is_open(&self, line: u32) -> bool
        ensures { result ≡ is_some (open_at self.now line) }
    {
        match self.list.get(line as usize) {
            Some(open) => open.is_some(),
            None => false,
        }
    }

    /// The line at this place, which is open.
    pub fn get(&self, line: u32) -> &OpenLine
        requires { IsTrue (is_some (open_at self.now line)) }
        ensures { open_at self.now line ≡ Some result.now }
    {
        match &self.list[line as usize] {
            Some(open) => open,
            None => unreachable!(),
        }
    }

    /// One more is left of the line.
    pub fn add(&mut self, line: u32)
        requires opened { IsTrue (is_some (open_at self.old line)) }
        requires few { left_of self.old line + 1 < 2 ^ 64 }
        ensures { self.new ≡ after_added self.old line }
    {
        if let Some(open) = &mut self.list[line as usize] {
            open.left += 1;
        }
    }

    /// One less is left of it.
    pub fn finish(&mut self, line: u32)
        requires { 0 < left_of self.old line }
        ensures { self.new ≡ after_finished self.old line }
    {
        if let Some(open) = &mut self.list[line as usize] {
            open.left -= 1;
        }
    }

    /// It will answer so, unless it was to answer that a disk failed.
    pub fn fail(&mut self, line: u32, answer: Answer)
        requires { IsTrue (is_some (open_at self.old line)) }
        ensures { self.new ≡ after_failure self.old line answer }
    {
        if let Some(open) = &mut self.list[line as usize]
            && !matches!(open.failure, Some(Answer::PvFailed(_)))
        {
            open.failure = Some(answer);
        }
    }

    /// Of what it reads, these sectors have come, from this one of its volume on.
    pub fn fill(&mut self, line: u32, first: u64, sectors: &Sectors)
        requires opened { IsTrue (is_some (open_at self.old line)) }
        requires within { fits_read (open_of self.old line).work first (length sectors.now) }
        ensures { self.new ≡ after_filled self.old line first sectors.now }
    {
        if let Some(open) = &mut self.list[line as usize]
            && let Work::Read(start, buffer) = &mut open.work
        {
            let at = first - *start;
            buffer.copy_in(at as usize, sectors, sectors.len());
        }
    }

    /// It isn't open any more.
    pub fn close(&mut self, line: u32) -> OpenLine
        requires { IsTrue (is_some (open_at self.old line)) }
        ensures opened { result ≡ open_of self.old line }
        ensures after { self.new ≡ after_closed self.old line }
    {
        match self.list[line as usize].take() {
            Some(open) => open,
            None => unreachable!(),
        }
    }
}
