//! What happens at the ends of a handshake.

use crate::server_hello::MAX_NAME;
use crate::text::Text;
use crate::version::{VERSION_SIZE, Version};
use arrayvec::ArrayVec;

/// How many bytes ServerInit has before the name, section 7.3.2.
pub const INIT_SIZE: usize = 24;

/// How many bytes an answer of the server has at most: ServerInit with the longest name.
pub const MAX_REPLY: usize = INIT_SIZE + MAX_NAME;

/// What happened at the last byte that a server's end took.
#[derive(Debug, Drop, PartialEq, Eq)]
pub enum ServerStep {
    /// Bytes that are to be sent to the client.
    Reply(ArrayVec<u8, MAX_REPLY>),
    /// The handshake is done. `reply` is ServerInit, the last bytes to be sent; `version` is what
    /// both ends use; `shared` says whether the client shares the screen with others.
    Ready {
        reply: ArrayVec<u8, MAX_REPLY>,
        version: Version,
        shared: bool,
    },
}

/// How many bytes an answer of the viewer has at most: a ProtocolVersion.
pub const MAX_ANSWER: usize = VERSION_SIZE;

/// What happened at the last byte that a viewer's end took.
#[derive(Debug, Drop)]
pub enum ViewerStep {
    /// Bytes that are to be sent to the server.
    Reply(ArrayVec<u8, MAX_ANSWER>),
    /// The screen's size, before its name is read.
    Screen {
        width: u16,
        height: u16,
    },
    /// The handshake is done. `width` and `height` are the screen's, `version` is what both ends
    /// use, `name` is as much of the screen's name as is kept, of `name_length` bytes.
    Ready {
        width: u16,
        height: u16,
        version: Version,
        name: Text,
        name_length: u32,
    },
}
