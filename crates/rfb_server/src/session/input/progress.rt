//! How far a client's bytes have come in a session.

use crate::encodings::EncodingList;
use crate::fault::ServerFault;
use arrayvec::ArrayVec;
use rfb_hello::Text;

/// How many bytes the longest head of a client message has: SetPixelFormat, RFC 6143 section 7.5.1.
pub(crate) const MAX_HEAD: usize = 20;

/// How many bytes an encoding-type of SetEncodings has, section 7.5.2.
pub(crate) const NUMBER_SIZE: usize = 4;

/// What the next bytes are.
#[derive(Debug, Drop)]
pub(crate) enum Progress {
    /// Those of a step of the handshake; the handshake's end holds what came of it.
    Handshake,
    /// Those of a message's head: what came of it.
    Head(ArrayVec<u8, MAX_HEAD>),
    /// Those of a number in SetEncodings: how many numbers are missing, what came of the next one,
    /// and the encodings that are known among those before it.
    Encodings {
        left: u16,
        number: ArrayVec<u8, NUMBER_SIZE>,
        list: EncodingList,
    },
    /// Those of a text: how many it has, how many of them are missing, and what is kept of it.
    CutText {
        length: u32,
        left: u32,
        kept: Text,
    },
    /// None: the session has failed.
    Failed(ServerFault),
}
