//! How far a server's handshake has come.

ghost use Rattle.std.specs.Prelude.{◌≡◌, ◌≤◌, false};
ghost use Rattle.rfb_hello.specs.ServerProgress.{is_open, least_left};
ghost use Rattle.rfb_hello.specs.pieces.ServerPiece.{part_in};

use crate::fault::HelloFault;
use crate::version::{VERSION_PART, VERSION_SIZE, Version};
use arrayvec::ArrayVec;

/// What the client's next bytes are.
#[derive(Debug, Drop)]
pub enum Progress {
    /// Its version: the bytes of it that have come, which are never all.
    Version(ArrayVec<u8, VERSION_PART>),
    /// Its choice of a security type.
    Choice(Version),
    /// ClientInit.
    Init(Version),
    /// No part of the handshake.
    Done(Version, bool),
    /// None that are taken.
    Failed(HelloFault),
}

impl Progress {
    /// Whether the client's bytes go on in the handshake.
    pub fn is_open(&self) -> bool
        ensures { result ≡ is_open self.now }
    {
        !matches!(self, Progress::Done(..) | Progress::Failed(_))
    }

    /// How many bytes have come of a piece that is not whole.
    pub fn part(&self) -> usize
        ensures value { result ≡ part_in self.now }
        ensures few { result ≤ 11 }
        ensures closed { is_open self.now ≡ false → result ≡ 0 }
    {
        match self {
            Progress::Version(text) => text.len(),
            Progress::Choice(_) | Progress::Init(_) | Progress::Done(..) | Progress::Failed(_) => 0,
        }
    }
    /// How many bytes the client sends at least before its handshake is done.
    pub fn left(&self) -> usize
        ensures { result ≡ least_left self.now }
    {
        match self {
            // What its version lacks, and ClientInit: at version 3.3 there is no choice.
            Progress::Version(text) => VERSION_SIZE - text.len() + 1,
            Progress::Choice(_) => 2,
            Progress::Init(_) => 1,
            Progress::Done(..) | Progress::Failed(_) => 0,
        }
    }
}
