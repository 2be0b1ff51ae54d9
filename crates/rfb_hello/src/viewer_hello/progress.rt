//! How far a viewer's handshake has come.

ghost use Rattle.std.specs.Prelude.{◌≡◌, ◌≤◌, false};
ghost use Rattle.rfb_hello.specs.pieces.ViewerPiece.{fault_for};
ghost use Rattle.rfb_hello.specs.ViewerProgress.{is_open};
ghost use Rattle.rfb_hello.specs.pieces.ViewerPiece.{part_in};

use crate::fault::HelloFault;
use crate::pieces::{INIT_PART, WORD_PART};
use crate::text::Text;
use crate::version::{VERSION_PART, Version};
use crate::viewer_hello::type_list::TypeList;
use arrayvec::ArrayVec;

/// What a reason is sent for.
#[derive(Clone, Copy, Debug, PartialEq, Eq)]
pub enum Cause {
    /// The server refuses the connection.
    Refused,
    /// Its SecurityResult was not success.
    SecurityFailed,
}

/// What the server's next bytes are. A part of a piece is never all of it.
#[derive(Debug, Drop)]
pub enum Progress {
    /// Its version: the bytes of it that have come.
    Version(ArrayVec<u8, VERSION_PART>),
    /// Its security type, as 3.3 has it: the bytes of the word that have come.
    Word(ArrayVec<u8, WORD_PART>),
    /// The count of its security types, under 3.7 or 3.8.
    Count(Version),
    /// Its security types: those that have come.
    Types {
        version: Version,
        list: TypeList,
    },
    /// SecurityResult: the bytes of the word that have come.
    Result(Version, ArrayVec<u8, WORD_PART>),
    /// The length of a reason: the bytes of the word that have come.
    ReasonLength {
        cause: Cause,
        part: ArrayVec<u8, WORD_PART>,
    },
    /// A reason: its length, how many bytes come after the next one, and what is kept of it.
    Reason {
        cause: Cause,
        length: u32,
        more: u32,
        kept: Text,
    },
    /// ServerInit up to the name: the bytes of it that have come.
    Init(Version, ArrayVec<u8, INIT_PART>),
    /// The name: the screen's size, the name's length, how many bytes come after the next one, and
    /// what is kept of it.
    Name {
        version: Version,
        width: u16,
        height: u16,
        length: u32,
        more: u32,
        kept: Text,
    },
    /// No part of the handshake.
    Done,
    /// None that are taken; and what is kept of the reason that the server gave.
    Failed(HelloFault, Text),
}

impl Progress {
    /// Whether the server's bytes go on in the handshake.
    pub fn is_open(&self) -> bool
        ensures { result ≡ is_open self.now }
    {
        !matches!(self, Progress::Done | Progress::Failed(..))
    }

    /// How many bytes have come of a piece that is not whole.
    pub fn part(&self) -> usize
        ensures value { result ≡ part_in self.now }
        ensures few { result ≤ 23 }
        ensures closed { is_open self.now ≡ false → result ≡ 0 }
    {
        match self {
            Progress::Version(part) => part.len(),
            Progress::Word(part) => part.len(),
            Progress::Result(_, part) => part.len(),
            Progress::ReasonLength { part, .. } => part.len(),
            Progress::Init(_, part) => part.len(),
            Progress::Count(_)
            | Progress::Types { .. }
            | Progress::Reason { .. }
            | Progress::Name { .. }
            | Progress::Done
            | Progress::Failed(..) => 0,
        }
    }
}

impl Cause {
    /// The fault that a reason of that length is given for.
    pub fn fault(self, length: u32) -> HelloFault
        ensures { result ≡ fault_for self length }
    {
        match self {
            Cause::Refused => HelloFault::Refused(length),
            Cause::SecurityFailed => HelloFault::SecurityFailed(length),
        }
    }
}
