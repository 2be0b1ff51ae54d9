//! The colours of a rectangle, as their bytes come.

ghost use Rattle.std.specs.Prelude.{◌≡◌, ◌≤◌, ◌<◌, ◌++◌, ◌-◌, [], length, min, take, vec_len, IfOk};
ghost use Rattle.std.specs.Vec.{vec_capacity};
ghost use Rattle.rfb_session.specs.owner.Lines.{data_length};

use rfb_picture::Rect;
use rfb_wire::pieces::append_within;
use std::alloc::{AllocError, Global};

/// A rectangle, and those bytes of its colours that have come. There is room for all.
#[derive(Drop)]
pub struct Pixels {
    rect: Rect,
    bytes: Vec<u8>,
    ghost within: { vec_len bytes ≤ data_length rect },
    ghost room: { data_length rect ≤ vec_capacity bytes },
}

impl Pixels {
    /// None have come. An error where there is no memory for all.
    pub fn with_room(alloc: Global, rect: Rect) -> Result<Pixels, AllocError>
        ensures rect { IfOk result (λ pixels. pixels.rect ≡ rect) }
        ensures none { IfOk result (λ pixels. pixels.bytes.items ≡ []) }
    {
        let bytes = Vec::with_capacity(alloc, data_length(rect) as usize)?;
        Ok(Pixels { rect, bytes })
    }

    /// How many have yet to come.
    pub fn left(&self) -> usize
        ensures { result ≡ data_length self.now.rect - length self.now.bytes.items }
    {
        data_length(self.rect) as usize - self.bytes.len()
    }

    /// Takes the next of them, all of these or all that have yet to come, and returns their number.
    pub fn take(&mut self, bytes: &[u8]) -> usize
        ensures used { result
            ≡ min (data_length self.old.rect - length self.old.bytes.items) (length bytes.now) }
        ensures rect { self.new.rect ≡ self.old.rect }
        ensures bytes { self.new.bytes.items ≡ self.old.bytes.items ++ take result bytes.now }
    {
        let used = self.left().min(bytes.len());
        append_within(&mut self.bytes, &bytes[..used]);
        used
    }

    /// The rectangle, and the bytes that have come.
    pub fn into_parts(self) -> (Rect, Vec<u8>)
        ensures rect { result.0 ≡ self.rect }
        ensures bytes { result.1.items ≡ self.bytes.items }
    {
        let Pixels { rect, bytes } = self;
        (rect, bytes)
    }
}

/// How many bytes the colours of a rectangle have.
pub fn data_length(rect: Rect) -> u64
    ensures { result ≡ data_length rect }
{
    3 * u64::from(rect.w) * u64::from(rect.h)
}
