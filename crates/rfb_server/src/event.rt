//! What a server reports of what its client sent.

ghost use Rattle.std.specs.Prelude.{◌≡◌};
ghost use Rattle.rfb_server.specs.Told.{event_told, reply_bytes};

use arrayvec::ArrayVec;

/// How many bytes an answer has at most: ServerInit with a name of 255 bytes, RFC 6143 section
/// 7.3.2.
pub const MAX_REPLY: usize = 279;

/// What happened at the last byte that was used. SetPixelFormat, SetEncodings and
/// FramebufferUpdateRequest change the server, and have no event.
#[derive(Debug, Drop)]
pub enum ServerEvent {
    /// Bytes that are to be sent to the client.
    Reply(ArrayVec<u8, MAX_REPLY>),
    /// The handshake is done: the last bytes to be sent, ServerInit; and whether the client shares
    /// the screen with others.
    Ready {
        reply: ArrayVec<u8, MAX_REPLY>,
        shared: bool,
    },
    /// KeyEvent, section 7.5.4: a key was pressed or released.
    Key {
        down: bool,
        key: u32,
    },
    /// PointerEvent, section 7.5.5: the buttons that are down, a bit each, and where the pointer
    /// is.
    Pointer {
        buttons: u8,
        x: u16,
        y: u16,
    },
    /// ClientCutText, section 7.5.6: as much of the text as is kept, which is the caller's from
    /// here on, and how many bytes it had.
    CutText {
        kept: Vec<u8>,
        length: u32,
    },
}

impl ServerEvent {
    /// Lends the bytes that are to be sent to the client for it: an answer's, and of other events
    /// none.
    pub fn reply(&self) -> &[u8]
        ensures { result.now ≡ reply_bytes (event_told self.now) }
    {
        match self {
            ServerEvent::Reply(reply) => reply.as_slice(),
            ServerEvent::Ready { reply, .. } => reply.as_slice(),
            ServerEvent::Key { .. } | ServerEvent::Pointer { .. } | ServerEvent::CutText { .. } => {
                &[]
            }
        }
    }
}
