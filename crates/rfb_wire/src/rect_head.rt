//! The head of a rectangle of an update, RFC 6143 section 7.6.1.

ghost use Rattle.std.specs.Prelude.{◌≡◌, ℕ, ◌+◌, ◌<◌, ◌≤◌, ◌↔◌, List, [], ◌++◌, length, take};
ghost use Rattle.std.specs.Prelude.{IsTrue};
ghost use Rattle.rfb_wire.specs.Heads.{IfMore, IfGot, IfBad};
ghost use Rattle.rfb_wire.specs.Encoding.{IsNoEncoding};
ghost use Rattle.rfb_wire.specs.Fields.{s32_at};
ghost use Rattle.rfb_wire.specs.RectHead.{SpellsRectHead, IsOnScreen, IsRectFault, rect_head_bytes};

use crate::encoding::Encoding;
use crate::fault::WireFault;
use crate::fields::{MAX_HEAD, Spelling, append_rect, append_u32, read_rect};
use crate::read::Read;
use arrayvec::ArrayVec;
use byteorder::{BigEndian, ByteOrder};
use rfb_picture::Rect;

const HEAD_SIZE: usize = 12;

/// Which places of the screen a rectangle of an update covers, and how its data are laid out. The
/// rectangle may lie anywhere; `read` gives none that leaves the screen.
#[derive(Clone, Copy, Debug, PartialEq, Eq)]
pub struct RectHead {
    pub rect: Rect,
    pub encoding: Encoding,
}

impl RectHead {
    ghost use Rattle.rfb_wire.specs.declared.rect_head.RectHead.{RectHead};
    ghost use Rattle.rfb_wire.specs.declared.fault.WireFault.TheVariants.{UnknownEncoding};
    ghost use Rattle.rfb_wire.specs.declared.fault.WireFault.TheVariants.{RectOutside};
    ghost use Rattle.rfb_wire.specs.declared.read.Read.TheVariants.{More, Got, Bad};

    /// The head that the bytes begin with, of a rectangle on a screen of `width` by `height`. It is
    /// judged at its twelfth byte: first the encoding, then whether an edge passes the screen's.
    pub fn read(bytes: &[u8], width: u16, height: u16) -> Read<RectHead>
        // What it returns is so.
        ensures got { IfGot result (λ head used. (used ≤ length bytes.now) ×
            SpellsRectHead head (take used bytes.now) × IsOnScreen width height head.rect) }
        ensures more { IfMore result (λ n. (0 < n) × (length bytes.now + n ≡ 12)) }
        ensures bad { IfBad result (λ fault. IsRectFault width height fault bytes.now) }

        // And it is returned wherever it is so: for bytes that begin with a head on the screen, for
        // fewer than twelve, for a number that no encoding has, and for a head that leaves the
        // screen.
        ensures head { (head : RectHead) (front rest : List ℕ) → bytes.now ≡ front ++ rest →
            SpellsRectHead head front → IsOnScreen width height head.rect →
            result ≡ Got head (length front) }
        ensures front { (n : ℕ) → 0 < n → length bytes.now + n ≡ 12 → result ≡ More n }
        ensures unknown { 12 ≤ length bytes.now → IsNoEncoding (s32_at 8 bytes.now) →
            result ≡ Bad (UnknownEncoding (s32_at 8 bytes.now)) }
        ensures outside { (head : RectHead) (front rest : List ℕ) → bytes.now ≡ front ++ rest →
            SpellsRectHead head front → (IsOnScreen width height head.rect → ⊥) →
            result ≡ Bad RectOutside }
    {
        if bytes.len() < HEAD_SIZE {
            return Read::More(HEAD_SIZE - bytes.len());
        }
        let number = BigEndian::read_i32(&bytes[8..]);
        let encoding = match Encoding::try_from(number) {
            Ok(encoding) => encoding,
            Err(fault) => return Read::Bad(fault),
        };
        let rect = read_rect(bytes);
        if !is_on_screen(rect, width, height) {
            return Read::Bad(WireFault::RectOutside);
        }
        Read::Got(RectHead { rect, encoding }, HEAD_SIZE)
    }

    /// The twelve bytes of this head. `read` gives the head back, whatever follows them, at every
    /// screen that the rectangle does not leave.
    pub fn spell(&self) -> ArrayVec<u8, MAX_HEAD>
        ensures spells { SpellsRectHead self.now result.items }
        ensures value { result.items ≡ rect_head_bytes self.now }
    {
        let mut bytes = Spelling::new();
        append_rect(&mut bytes, self.rect);
        append_u32(&mut bytes, self.encoding.number().cast_unsigned());
        bytes
    }

    /// A law about `SpellsRectHead`, with nothing to run: bytes spell one head at most, and no
    /// head's bytes go on as another's.
    pub fn spellings_are_apart()
        ensures { (head other : RectHead) (front rest : List ℕ) →
            SpellsRectHead head front → SpellsRectHead other (front ++ rest) →
            (other ≡ head) × (rest ≡ []) }
    {}
}

// Whether no edge of the rectangle passes the screen's.
fn is_on_screen(rect: Rect, width: u16, height: u16) -> bool
    ensures { IsTrue result ↔ IsOnScreen width height rect }
{
    u32::from(rect.x) + u32::from(rect.w) <= u32::from(width)
        && u32::from(rect.y) + u32::from(rect.h) <= u32::from(height)
}

#[cfg(test)]
mod tests;
