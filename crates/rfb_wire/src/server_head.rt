//! The heads of the messages from server to client, RFC 6143 section 7.6.

ghost use Rattle.std.specs.Prelude.{◌≡◌, ℕ, ◌<◌, ◌≤◌, List, [], ◌∷◌, ◌++◌, length, take};
ghost use Rattle.std.specs.Prelude.{slice_index, Some};
ghost use Rattle.rfb_wire.specs.stream.Heads.{BeginsNone, Misses};
ghost use Rattle.rfb_wire.specs.Heads.{IfMore, IfGot, IfBad, IsUnknown};
ghost use Rattle.rfb_wire.specs.ServerHead.{SpellsServerHead, server_head_bytes, server_head_size};

use crate::fault::WireFault;
use crate::fields::{MAX_HEAD, Spelling, append_u16, append_u32};
use crate::pieces::append;
use crate::read::Read;
use arrayvec::ArrayVec;
use byteorder::{BigEndian, ByteOrder};

const FRAMEBUFFER_UPDATE: u8 = 0;

const SET_COLOR_MAP_ENTRIES: u8 = 1;

const BELL: u8 = 2;

const SERVER_CUT_TEXT: u8 = 3;

/// A message from server to client, without the rectangles, the colours or the text that it may end
/// with. Every value of the fields is one that a server may send.
#[derive(Clone, Copy, Debug, PartialEq, Eq)]
pub enum ServerHead {
    /// FramebufferUpdate, section 7.6.1: how many rectangles follow.
    Update(u16),
    /// SetColorMapEntries, section 7.6.2: how many colours follow, six bytes each, and the place of
    /// the first in the map.
    ColourMap { first: u16, count: u16 },
    /// Bell, section 7.6.3.
    Bell,
    /// ServerCutText, section 7.6.4: how many bytes of text follow.
    CutText(u32),
}

impl ServerHead {
    ghost use Rattle.rfb_wire.specs.declared.server_head.ServerHead.{ServerHead};
    ghost use Rattle.rfb_wire.specs.declared.fault.WireFault.TheVariants.{UnknownMessage};
    ghost use Rattle.rfb_wire.specs.declared.read.Read.TheVariants.{More, Got, Bad};

    /// The head that the bytes begin with. A type that no server message has is refused at its
    /// byte; no other byte is ever wrong. Padding is ignored.
    pub fn read(bytes: &[u8]) -> Read<ServerHead>
        // What it returns is so.
        ensures got { IfGot result (λ head used. (used ≤ length bytes.now) ×
            SpellsServerHead head (take used bytes.now)) }
        ensures more { IfMore result (λ n. Misses SpellsServerHead n bytes.now) }
        ensures bad { IfBad result (λ fault. IsUnknown SpellsServerHead fault bytes.now) }

        // And it is returned wherever it is so: for bytes that begin with a head, for none, for a
        // prefix of a head, and for a type byte that no head has.
        ensures head { (head : ServerHead) (front rest : List ℕ) → bytes.now ≡ front ++ rest →
            SpellsServerHead head front → result ≡ Got head (length front) }
        ensures empty { bytes.now ≡ [] → result ≡ More 1 }
        ensures front { (head : ServerHead) (missing : List ℕ) → 0 < length bytes.now →
            0 < length missing →
            SpellsServerHead head (bytes.now ++ missing) → result ≡ More (length missing) }
        ensures unknown { (first : ℕ) (rest : List ℕ) → bytes.now ≡ first ∷ rest →
            BeginsNone SpellsServerHead first → result ≡ Bad (UnknownMessage first) }
    {
        let Some(&kind) = bytes.first() else {
            return Read::More(1);
        };
        let Some(size) = head_size(kind) else {
            return Read::Bad(WireFault::UnknownMessage(kind));
        };
        if bytes.len() < size {
            return Read::More(size - bytes.len());
        }
        Read::Got(ServerHead::of_whole(&bytes[..size]), size)
    }

    // The head that the bytes spell, as many as their type byte asks for.
    fn of_whole(bytes: &[u8]) -> ServerHead
        requires some { 0 < length bytes.now }
        requires whole { server_head_size (slice_index bytes.now 0) ≡ Some (length bytes.now) }
        ensures { SpellsServerHead result bytes.now }
    {
        match bytes[0] {
            FRAMEBUFFER_UPDATE => ServerHead::Update(BigEndian::read_u16(&bytes[2..])),
            SET_COLOR_MAP_ENTRIES => ServerHead::ColourMap {
                first: BigEndian::read_u16(&bytes[2..]),
                count: BigEndian::read_u16(&bytes[4..]),
            },
            BELL => ServerHead::Bell,
            // ServerCutText, the only type that is left.
            _ => ServerHead::CutText(BigEndian::read_u32(&bytes[4..])),
        }
    }

    /// The bytes of this head, with padding of zeros. `read` gives the head back, whatever follows
    /// them.
    pub fn spell(&self) -> ArrayVec<u8, MAX_HEAD>
        ensures spells { SpellsServerHead self.now result.items }
        ensures value { result.items ≡ server_head_bytes self.now }
    {
        let mut bytes = Spelling::new();
        match self {
            ServerHead::Update(count) => {
                append(&mut bytes, &[FRAMEBUFFER_UPDATE, 0]);
                append_u16(&mut bytes, *count);
            }
            ServerHead::ColourMap { first, count } => {
                append(&mut bytes, &[SET_COLOR_MAP_ENTRIES, 0]);
                append_u16(&mut bytes, *first);
                append_u16(&mut bytes, *count);
            }
            ServerHead::Bell => append(&mut bytes, &[BELL]),
            ServerHead::CutText(length) => {
                append(&mut bytes, &[SERVER_CUT_TEXT, 0, 0, 0]);
                append_u32(&mut bytes, *length);
            }
        }
        bytes
    }

    /// A law about `SpellsServerHead`, with nothing to run: bytes spell one head at most, and no
    /// head's bytes go on as another's.
    pub fn spellings_are_apart()
        ensures { (head other : ServerHead) (front rest : List ℕ) →
            SpellsServerHead head front → SpellsServerHead other (front ++ rest) →
            (other ≡ head) × (rest ≡ []) }
    {}

    /// A law about `SpellsServerHead`, with nothing to run: a head has as many bytes as its type
    /// byte asks for, and as many bytes as their first asks for are always a head.
    pub fn type_tells_the_size()
        ensures size { (head : ServerHead) (bytes : List ℕ) →
            SpellsServerHead head bytes →
            server_head_size (slice_index bytes 0) ≡ Some (length bytes) }
        ensures whole { (bytes : List ℕ) →
            server_head_size (slice_index bytes 0) ≡ Some (length bytes) →
            (head : ServerHead) × SpellsServerHead head bytes }
    {}
}

// How many bytes the head of a message of this type has.
fn head_size(kind: u8) -> Option<usize>
    ensures { result ≡ server_head_size kind }
{
    match kind {
        FRAMEBUFFER_UPDATE => Some(4),
        SET_COLOR_MAP_ENTRIES => Some(6),
        BELL => Some(1),
        SERVER_CUT_TEXT => Some(8),
        _ => None,
    }
}

#[cfg(test)]
mod tests;
