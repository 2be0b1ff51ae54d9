//! Calls of a viewer's owner as values, and the messages that they become, RFC 6143 section 7.5.

ghost use Rattle.std.specs.Prelude.{◌≡◌, ◌≤◌, ◌++◌, length, OnOk, OnErr};
ghost use Rattle.rfb_wire.specs.ClientMessage.{SpellsClientMessage};

use crate::client_messages::{spell_encodings, spell_format};
use arrayvec::ArrayVec;
use rfb_picture::Rect;
use rfb_pixel::Format;
use rfb_wire::pieces::append_within;
use rfb_wire::{ClientHead, Encoding};
use std::alloc::AllocError;

/// How many bytes a message has at most, without a text: SetPixelFormat has as many, and so has
/// SetEncodings with four numbers, sections 7.5.1 and 7.5.2.
pub const MAX_FRONT: usize = 20;

/// A call of a viewer's owner, which becomes one message to the server. What it borrows stays the
/// caller's.
#[derive(Clone, Copy, Debug)]
pub enum Call<'a> {
    /// FramebufferUpdateRequest, section 7.5.3: asks for the area, what has changed of it or all of
    /// it.
    Request { incremental: bool, rect: Rect },
    /// SetPixelFormat, section 7.5.1: asks for updates in this format.
    SetFormat(Format),
    /// SetEncodings, section 7.5.2: lists the encodings that updates may have, the best first.
    SetEncodings(&'a ArrayVec<Encoding, 4>),
    /// KeyEvent, section 7.5.4: a key, by its keysym, was pressed or released.
    Key { down: bool, key: u32 },
    /// PointerEvent, section 7.5.5: where the pointer is, and which buttons are down, a bit each.
    Pointer { buttons: u8, x: u16, y: u16 },
    /// ClientCutText, section 7.5.6: a text of at most 1,048,576 bytes.
    CutText(&'a [u8]),
}

/// A message to the server in two parts, which are sent one after the other. Only ClientCutText has
/// a text, which stays the caller's.
#[derive(Debug, Drop)]
pub struct Message<'a> {
    pub front: ArrayVec<u8, MAX_FRONT>,
    pub text: &'a [u8],
}

impl<'a> Call<'a> {
    ghost use Rattle.rfb_viewer.specs.Call.{bytes_of, message_bytes, message_of, text_in};

    // Its message.
    pub(crate) fn message(&self) -> Message<'a>
        requires few { length (text_in self.now) ≤ 1048576 }
        ensures value { bytes_of result ≡ message_bytes self.now }
        ensures spelled { SpellsClientMessage (message_of self.now) (bytes_of result) }
        ensures text { result.text.now ≡ text_in self.now }
    {
        let front = match *self {
            Call::Request { incremental, rect } => ClientHead::Request {
                incremental,
                rect,
            }.spell(),
            Call::SetFormat(format) => spell_format(format),
            Call::SetEncodings(encodings) => spell_encodings(encodings.as_slice()),
            Call::Key { down, key } => ClientHead::Key { down, key }.spell(),
            Call::Pointer { buttons, x, y } => ClientHead::Pointer { buttons, x, y }.spell(),
            Call::CutText(text) => {
                return Message {
                    front: ClientHead::CutText(text.len() as u32).spell(),
                    text,
                };
            }
        };
        Message { front, text: &[] }
    }

    // Appends its message, or where there is no memory nothing.
    pub(crate) fn append_to(&self, out: &mut Vec<u8>) -> Result<(), AllocError>
        requires few { length (text_in self.now) ≤ 1048576 }
        ensures sent { OnOk result (out.new.items ≡ out.old.items ++ message_bytes self.now) }
        ensures spelled { OnOk result
            (SpellsClientMessage (message_of self.now) (message_bytes self.now)) }
        ensures kept { OnErr result (out.new.items ≡ out.old.items) }
    {
        let message = self.message();
        out.reserve(message.front.len() + message.text.len())?;
        append_within(out, message.front.as_slice());
        append_within(out, message.text);
        Ok(())
    }
}
