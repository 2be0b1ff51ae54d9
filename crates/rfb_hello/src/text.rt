//! A text that a server sends, its name or a reason.

ghost use Rattle.std.specs.Prelude.{◌≡◌, ◌≤◌, ◌+◌, ◌++◌, [], length, take, IfOk};
ghost use Rattle.std.specs.Vec.{vec_capacity, vec_items};
ghost use Rattle.rfb_hello.specs.KeptText.{KeptText, no_text};

use rfb_wire::pieces::append_within;
use std::alloc::{AllocError, Global};
use std::marker::Model;

/// The first bytes of a text, as many as there was room for: its memory is for these and no more.
/// What they are encoded in is the server's matter.
#[derive(Debug, Drop)]
pub struct Text {
    bytes: Vec<u8>,
}

impl Model for Text {
    ghost Value = { KeptText };

    ghost view = { λ t. record { room = vec_capacity t.bytes; bytes = vec_items t.bytes } };
}

impl Text {
    /// A text without room. It takes no memory.
    pub fn empty(alloc: Global) -> Text
        ensures { result ≡ no_text }
    {
        Text {
            bytes: Vec::new(alloc),
        }
    }

    /// A text with room for `room` bytes and none of them there. An error where there is no
    /// memory.
    pub fn with_room(alloc: Global, room: usize) -> Result<Text, AllocError>
        ensures { IfOk result (λ text. text ≡ record { room = room; bytes = [] }) }
    {
        let bytes = Vec::with_capacity(alloc, room)?;
        Ok(Text { bytes })
    }

    /// The bytes that are kept.
    pub fn as_slice(&self) -> &[u8]
        ensures { result.now ≡ self.now.bytes }
    {
        self.bytes.as_slice()
    }

    /// The bytes that are kept, which are the caller's from now on, with the memory that was taken
    /// for them.
    pub fn into_vec(self) -> Vec<u8>
        ensures bytes { vec_items result ≡ self.bytes }
        ensures room { vec_capacity result ≡ self.room }
    {
        let Text { bytes } = self;
        bytes
    }

    /// Keeps as many of these bytes after the others as there is room for. It takes no memory.
    pub fn keep(&mut self, bytes: &[u8])
        ensures { self.new ≡ record self.old {
          bytes = take self.old.room (self.old.bytes ++ bytes.now);
        } }
    {
        let size = bytes.len().min(self.bytes.capacity() - self.bytes.len());
        append_within(&mut self.bytes, &bytes[..size]);
    }
}
