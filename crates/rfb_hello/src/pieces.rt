//! Words and texts that come in slices, and the bytes of short answers.

ghost use Rattle.std.specs.Prelude.{◌≡◌, ◌≤◌, ◌<◌, ◌+◌, ◌++◌, length, take, true, false, IfSome};
ghost use Rattle.std.specs.Prelude.{None};
ghost use Rattle.rfb_hello.specs.ServerEnd.{as_reply};
ghost use Rattle.rfb_hello.specs.ServerHandshake.{IsWord, has_none};

use crate::step::INIT_SIZE;
use crate::text::Text;
use arrayvec::ArrayVec;
use byteorder::{BigEndian, ByteOrder};
use rfb_wire::pieces::{append, gather};

/// The security type None, as 3.3 sends it and as a list has it, sections 7.1.2 and 7.2.1.
pub const SECURITY_NONE: u8 = 1;

/// How many bytes a word has: a SecurityResult, a length, and the security type of 3.3.
pub const WORD_SIZE: usize = 4;

/// How many bytes of a word, and of ServerInit up to the name, are kept at most until it is whole.
pub const WORD_PART: usize = WORD_SIZE - 1;

pub const INIT_PART: usize = INIT_SIZE - 1;

/// Takes further bytes of a word. Returns how many it took, and the word, if it is whole now.
pub fn gather_word(part: &mut ArrayVec<u8, WORD_PART>, bytes: &[u8]) -> (usize, Option<u32>)
    requires some { 0 < length bytes.now }
    ensures used { (0 < result.0) × (result.0 ≤ length bytes.now) }
    ensures more { result.1 ≡ None
        → (part.new.items ≡ part.old.items ++ take result.0 bytes.now)
        × (length part.new.items < WORD_SIZE) }
    ensures whole { IfSome result.1
        (λ word. IsWord word (part.old.items ++ take result.0 bytes.now)) }
{
    let (used, whole) = gather::<WORD_PART, WORD_SIZE>(part, bytes);
    let Some(whole) = whole else {
        return (used, None);
    };
    (used, Some(BigEndian::read_u32(whole.as_slice())))
}

/// Takes bytes of a text that misses its next byte and `more` after it. Returns how many it took,
/// and whether the text is whole now.
pub fn read_text(kept: &mut Text, more: &mut u32, bytes: &[u8]) -> (usize, bool)
    requires some { 0 < length bytes.now }
    ensures used { (0 < result.0) × (result.0 ≤ length bytes.now) }
    ensures kept { kept.new ≡ record kept.old {
      bytes = take kept.old.room (kept.old.bytes ++ take result.0 bytes.now);
    } }
    ensures more { result.1 ≡ false → result.0 + more.new ≡ more.old }
    ensures whole { result.1 ≡ true → result.0 ≡ more.old + 1 }
{
    let missing = *more as usize + 1;
    if bytes.len() < missing {
        kept.keep(bytes);
        *more -= bytes.len() as u32;
        return (bytes.len(), false);
    }
    kept.keep(&bytes[..missing]);
    (missing, true)
}

/// Whether None is among these security types.
pub fn has_none(types: &[u8]) -> bool
    ensures { result ≡ has_none types.now }
{
    types.contains(&SECURITY_NONE)
}

/// A short answer.
pub fn reply_of<const CAP: usize>(bytes: &[u8]) -> ArrayVec<u8, CAP>
    requires { length bytes.now ≤ CAP }
    ensures { result ≡ as_reply bytes.now }
{
    let mut reply = ArrayVec::new();
    append(&mut reply, bytes);
    reply
}
