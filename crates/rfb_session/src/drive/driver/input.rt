//! The lines of a rig, as they come.

ghost use Rattle.std.specs.Prelude.{◌≡◌, ◌≤◌, length, take, false, []};
ghost use Rattle.std.specs.Prelude.{IfOk, OnOk, OnErr};
ghost use Rattle.rfb_session.specs.drive.driver.Input as spec;
ghost use Rattle.rfb_session.specs.drive.driver.Input.{IsUpcoming, taken, with_bytes, ended};

use crate::channel::Channel;
use crate::owner::length_of_line;
use std::alloc::{AllocError, Global};

/// A line has no more bytes.
pub(crate) const LINE_MAX: usize = 1 << 16;

const HASH: u8 = b'#';

/// The bytes of lines that were not read yet, and how many lines were.
#[derive(Debug, Drop)]
pub(crate) struct Input {
    pub waiting: Channel,
    pub count: u64,
    pub has_ended: bool,
}

/// What comes next.
#[derive(Clone, Copy, Debug, PartialEq, Eq)]
pub(crate) enum Upcoming {
    /// A line with more bytes to come.
    Partial,
    /// A line of so many bytes, without its newline. The last may lack that.
    Line(usize),
    /// One that is too long.
    TooLong,
    /// Nothing.
    Over,
}

impl Upcoming {
    /// More bytes come.
    pub(crate) fn is_partial(self) -> bool
        ensures { result ≡ spec.is_partial self }
    {
        matches!(self, Upcoming::Partial)
    }

    /// Nothing comes any more.
    pub(crate) fn is_over(self) -> bool
        ensures { result ≡ spec.is_over self }
    {
        matches!(self, Upcoming::Over)
    }
}

impl Input {
    /// Nothing has come.
    pub(crate) fn new(alloc: Global) -> Input
        ensures waiting { result.waiting ≡ [] }
        ensures count { result.count ≡ 0 }
        ensures more { result.has_ended ≡ false }
    {
        Input {
            waiting: Channel::new(alloc),
            count: 0,
            has_ended: false,
        }
    }

    /// More bytes come. Where there is no memory for them nothing changes.
    pub(crate) fn add(&mut self, bytes: &[u8]) -> Result<(), AllocError>
        ensures added { OnOk result (self.new ≡ with_bytes bytes.now self.old) }
        ensures kept { OnErr result (self.new ≡ self.old) }
    {
        self.waiting.send(bytes)
    }

    /// No more come.
    pub(crate) fn end(&mut self)
        ensures { self.new ≡ ended self.old }
    {
        self.has_ended = true;
    }

    /// What comes next.
    pub(crate) fn upcoming(&self) -> Upcoming
        ensures { IsUpcoming self.now.waiting self.now.has_ended result }
    {
        let bytes = self.waiting.first(self.waiting.len());
        let length = length_of_line(bytes);
        if length > LINE_MAX {
            return Upcoming::TooLong;
        }
        if length < bytes.len() {
            return Upcoming::Line(length);
        }
        match (self.has_ended, length > 0) {
            (true, true) => Upcoming::Line(length),
            (true, false) => Upcoming::Over,
            (false, _) => Upcoming::Partial,
        }
    }

    /// Takes the next line, which has so many bytes, and its newline. Where there is no memory for
    /// it nothing changes.
    pub(crate) fn take(&mut self, alloc: Global, count: usize) -> Result<Vec<u8>, AllocError>
        requires { count ≤ length self.old.waiting }
        ensures line { IfOk result (λ line. line.items ≡ take count self.old.waiting) }
        ensures taken { OnOk result (self.new ≡ taken count self.old) }
        ensures kept { OnErr result (self.new ≡ self.old) }
    {
        let mut line = Vec::new(alloc);
        line.extend_from_slice(self.waiting.first(count))?;
        let all = self.waiting.len().min(count + 1);
        self.waiting.arrive(all);
        self.count = self.count.saturating_add(1);
        Ok(line)
    }
}

/// Whether a line says nothing, and is passed over: it is empty, or a remark.
pub(crate) fn is_skipped(line: &[u8]) -> bool
    ensures { result ≡ spec.is_skipped line.now }
{
    match line {
        [] => true,
        [first, ..] => *first == HASH,
    }
}
