//! What a viewer reports of what its server sent.

ghost use Rattle.std.specs.Prelude.{◌≡◌};
ghost use Rattle.rfb_viewer.specs.Told.{event_told, reply_bytes};

use arrayvec::ArrayVec;

/// How many bytes an answer of the handshake has at most: a ProtocolVersion, RFC 6143 section
/// 7.1.1.
pub const MAX_ANSWER: usize = 12;

/// How many bytes the last answer has at most: SetPixelFormat, and SetEncodings with four numbers,
/// sections 7.5.1 and 7.5.2.
pub const MAX_READY: usize = 40;

/// What happened at the last byte that was used.
#[derive(Debug, Drop)]
pub enum ViewerEvent {
    /// Bytes that are to be sent to the server.
    Reply(ArrayVec<u8, MAX_ANSWER>),
    /// The handshake is done. It has the last bytes to be sent, SetPixelFormat and SetEncodings,
    /// and how many columns and rows the screen has, section 7.3.2. `name` is as much of its name
    /// as is kept, the caller's from here on, and `name_length` how many bytes it had.
    Ready {
        reply: ArrayVec<u8, MAX_READY>,
        width: u16,
        height: u16,
        name: Vec<u8>,
        name_length: u32,
    },
    /// The last byte of a FramebufferUpdate, section 7.6.1. No request is outstanding any more.
    UpdateDone,
    /// Bell, section 7.6.3.
    Bell,
    /// ServerCutText, section 7.6.4: as much of the text as is kept, which is the caller's from
    /// here on, and how many bytes it had.
    CutText {
        kept: Vec<u8>,
        length: u32,
    },
    /// The last byte of SetColorMapEntries, section 7.6.2. Nothing of it is kept: formats here have
    /// no colour map.
    ColourMapSkipped,
}

impl ViewerEvent {
    /// Lends the bytes that are to be sent to the server for it: an answer's, and of other events
    /// none.
    pub fn reply(&self) -> &[u8]
        ensures { result.now ≡ reply_bytes (event_told self.now) }
    {
        match self {
            ViewerEvent::Reply(reply) => reply.as_slice(),
            ViewerEvent::Ready { reply, .. } => reply.as_slice(),
            ViewerEvent::UpdateDone
            | ViewerEvent::Bell
            | ViewerEvent::CutText { .. }
            | ViewerEvent::ColourMapSkipped => &[],
        }
    }
}
