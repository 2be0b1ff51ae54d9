//! The heads of the messages from client to server, RFC 6143 section 7.5.

ghost use Rattle.std.specs.Prelude.{◌≡◌, ℕ, ◌<◌, ◌≤◌, List, [], ◌∷◌, ◌++◌, length, take};
ghost use Rattle.std.specs.Prelude.{slice_index, Some};
ghost use Rattle.rfb_wire.specs.stream.Heads.{BeginsNone, Misses};
ghost use Rattle.rfb_wire.specs.Heads.{IfMore, IfGot, IfBad, IsUnknown};
ghost use Rattle.rfb_wire.specs.ClientHead.{SpellsClientHead, client_head_bytes, client_head_size};

use crate::fault::WireFault;
use crate::fields::{MAX_HEAD, Spelling, append_rect, append_u16, append_u32, read_rect};
use crate::pieces::append;
use crate::read::Read;
use arrayvec::ArrayVec;
use byteorder::{BigEndian, ByteOrder};
use rfb_picture::Rect;
use rfb_pixel::FORMAT_SIZE;

const SET_PIXEL_FORMAT: u8 = 0;

const SET_ENCODINGS: u8 = 2;

const FRAMEBUFFER_UPDATE_REQUEST: u8 = 3;

const KEY_EVENT: u8 = 4;

const POINTER_EVENT: u8 = 5;

const CLIENT_CUT_TEXT: u8 = 6;

/// A message from client to server, without the list or the text that it may end with. Every value
/// of the fields is one that a client may send.
#[derive(Clone, Copy, Debug, PartialEq, Eq)]
pub enum ClientHead {
    /// SetPixelFormat, section 7.5.1: the bytes of a PIXEL_FORMAT, which are not judged here.
    SetPixelFormat([u8; FORMAT_SIZE]),
    /// SetEncodings, section 7.5.2: how many encodings follow, four bytes each.
    SetEncodings(u16),
    /// FramebufferUpdateRequest, section 7.5.3. The rectangle may lie anywhere.
    Request { incremental: bool, rect: Rect },
    /// KeyEvent, section 7.5.4: a keysym that was pressed or released.
    Key { down: bool, key: u32 },
    /// PointerEvent, section 7.5.5: the buttons that are down, a bit each,
    /// and where the pointer is.
    Pointer { buttons: u8, x: u16, y: u16 },
    /// ClientCutText, section 7.5.6: how many bytes of text follow.
    CutText(u32),
}

impl ClientHead {
    ghost use Rattle.rfb_wire.specs.declared.client_head.ClientHead.{ClientHead};
    ghost use Rattle.rfb_wire.specs.declared.fault.WireFault.TheVariants.{UnknownMessage};
    ghost use Rattle.rfb_wire.specs.declared.read.Read.TheVariants.{More, Got, Bad};

    /// The head that the bytes begin with. A type that no client message has is refused at its
    /// byte; no other byte is ever wrong. Flags are true where they are not zero, padding is
    /// ignored.
    pub fn read(bytes: &[u8]) -> Read<ClientHead>
        // What it returns is so.
        ensures got { IfGot result (λ head used. (used ≤ length bytes.now) ×
            SpellsClientHead head (take used bytes.now)) }
        ensures more { IfMore result (λ n. Misses SpellsClientHead n bytes.now) }
        ensures bad { IfBad result (λ fault. IsUnknown SpellsClientHead fault bytes.now) }

        // And it is returned wherever it is so: for bytes that begin with a head, for none, for a
        // prefix of a head, and for a type byte that no head has.
        ensures head { (head : ClientHead) (front rest : List ℕ) → bytes.now ≡ front ++ rest →
            SpellsClientHead head front → result ≡ Got head (length front) }
        ensures empty { bytes.now ≡ [] → result ≡ More 1 }
        ensures front { (head : ClientHead) (missing : List ℕ) → 0 < length bytes.now →
            0 < length missing →
            SpellsClientHead head (bytes.now ++ missing) → result ≡ More (length missing) }
        ensures unknown { (first : ℕ) (rest : List ℕ) → bytes.now ≡ first ∷ rest →
            BeginsNone SpellsClientHead first → result ≡ Bad (UnknownMessage first) }
    {
        let Some(&kind) = bytes.first() else {
            return Read::More(1);
        };
        let Some(size) = head_size(kind) else {
            return Read::Bad(WireFault::UnknownMessage(kind));
        };
        if bytes.len() < size {
            return Read::More(size - bytes.len());
        }
        Read::Got(ClientHead::of_whole(&bytes[..size]), size)
    }

    // The head that the bytes spell, as many as their type byte asks for.
    fn of_whole(bytes: &[u8]) -> ClientHead
        requires some { 0 < length bytes.now }
        requires whole { client_head_size (slice_index bytes.now 0) ≡ Some (length bytes.now) }
        ensures { SpellsClientHead result bytes.now }
    {
        match bytes[0] {
            SET_PIXEL_FORMAT => {
                let mut format = [0; FORMAT_SIZE];
                format.copy_from_slice(&bytes[4..]);
                ClientHead::SetPixelFormat(format)
            }
            SET_ENCODINGS => ClientHead::SetEncodings(BigEndian::read_u16(&bytes[2..])),
            FRAMEBUFFER_UPDATE_REQUEST => ClientHead::Request {
                incremental: bytes[1] != 0,
                rect: read_rect(&bytes[2..]),
            },
            KEY_EVENT => ClientHead::Key {
                down: bytes[1] != 0,
                key: BigEndian::read_u32(&bytes[4..]),
            },
            POINTER_EVENT => ClientHead::Pointer {
                buttons: bytes[1],
                x: BigEndian::read_u16(&bytes[2..]),
                y: BigEndian::read_u16(&bytes[4..]),
            },
            // ClientCutText, the only type that is left.
            _ => ClientHead::CutText(BigEndian::read_u32(&bytes[4..])),
        }
    }

    /// The bytes of this head, with padding of zeros and flags of 1 or 0. `read` gives the head
    /// back, whatever follows them.
    pub fn spell(&self) -> ArrayVec<u8, MAX_HEAD>
        ensures spells { SpellsClientHead self.now result.items }
        ensures value { result.items ≡ client_head_bytes self.now }
    {
        let mut bytes = Spelling::new();
        match self {
            ClientHead::SetPixelFormat(format) => {
                append(&mut bytes, &[SET_PIXEL_FORMAT, 0, 0, 0]);
                append(&mut bytes, format);
            }
            ClientHead::SetEncodings(count) => {
                append(&mut bytes, &[SET_ENCODINGS, 0]);
                append_u16(&mut bytes, *count);
            }
            ClientHead::Request { incremental, rect } => {
                append(
                    &mut bytes,
                    &[FRAMEBUFFER_UPDATE_REQUEST, u8::from(*incremental)],
                );
                append_rect(&mut bytes, *rect);
            }
            ClientHead::Key { down, key } => {
                append(&mut bytes, &[KEY_EVENT, u8::from(*down), 0, 0]);
                append_u32(&mut bytes, *key);
            }
            ClientHead::Pointer { buttons, x, y } => {
                append(&mut bytes, &[POINTER_EVENT, *buttons]);
                append_u16(&mut bytes, *x);
                append_u16(&mut bytes, *y);
            }
            ClientHead::CutText(length) => {
                append(&mut bytes, &[CLIENT_CUT_TEXT, 0, 0, 0]);
                append_u32(&mut bytes, *length);
            }
        }
        bytes
    }

    /// A law about `SpellsClientHead`, with nothing to run: bytes spell one head at most, and no
    /// head's bytes go on as another's.
    pub fn spellings_are_apart()
        ensures { (head other : ClientHead) (front rest : List ℕ) →
            SpellsClientHead head front → SpellsClientHead other (front ++ rest) →
            (other ≡ head) × (rest ≡ []) }
    {}

    /// A law about `SpellsClientHead`, with nothing to run: a head has as many bytes as its type
    /// byte asks for, and as many bytes as their first asks for are always a head.
    pub fn type_tells_the_size()
        ensures size { (head : ClientHead) (bytes : List ℕ) →
            SpellsClientHead head bytes →
            client_head_size (slice_index bytes 0) ≡ Some (length bytes) }
        ensures whole { (bytes : List ℕ) →
            client_head_size (slice_index bytes 0) ≡ Some (length bytes) →
            (head : ClientHead) × SpellsClientHead head bytes }
    {}
}

// How many bytes the head of a message of this type has.
fn head_size(kind: u8) -> Option<usize>
    ensures { result ≡ client_head_size kind }
{
    match kind {
        SET_PIXEL_FORMAT => Some(20),
        SET_ENCODINGS => Some(4),
        FRAMEBUFFER_UPDATE_REQUEST => Some(10),
        KEY_EVENT | CLIENT_CUT_TEXT => Some(8),
        POINTER_EVENT => Some(6),
        _ => None,
    }
}

#[cfg(test)]
mod tests;
