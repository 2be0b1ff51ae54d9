//! Words of a line of a hub's script that mean a value.

ghost use Rattle.std.specs.Prelude.{◌≡◌, ℕ, Bool, List, IfOk, MatchOption};
ghost use Rattle.rfb_viewer.specs.declared.setup.ViewerSetup.{ViewerSetup as Setup};
ghost use Rattle.rfb.specs.HubScript.{AreForeign, AreJoin, IsHexWord, kind_of_join};
ghost use Rattle.rfb_session.specs.language.Words.{texts};

use crate::defaults::{MAX_PLACES, TEXT_LIMIT};
use crate::script::arguments::read_wants;
use hex::FromHexError;
use rfb_hello::Version;
use rfb_session::Setup;
use rfb_session::language::read_slot;
use std::alloc::{AllocError, Global};

/// Others may go on beside a viewer.
pub const SHARED: &[u8] = b"shared";

/// A viewer asks for the screen alone.
pub const SOLE: &[u8] = b"sole";

// How many bytes a line of foreign ones has at most.
const FOREIGN_MAX: usize = 64;

/// A slot, and what the viewer that takes it is made with: one of version 3.8.
pub fn read_join(words: &[&[u8]]) -> Option<(u8, Setup)>
    ensures { MatchOption result
        ((slot : ℕ) (setup : Setup) → ¬ (AreJoin (texts words.now) slot setup))
        (λ join. AreJoin (texts words.now) join.0 join.1) }
{
    let (slot, words) = words.split_first()?;
    let slot = read_slot(slot)?;
    let (kind, words) = words.split_first()?;
    let shared = read_kind(kind)?;
    let wants = read_wants(words)?;
    let setup = Setup {
        format: wants.format,
        encodings: wants.encodings,
        limit: Version::V38,
        shared,
        max_places: MAX_PLACES,
        text_limit: TEXT_LIMIT,
    };
    Some((slot, setup))
}

// Whether others may go on beside a viewer.
fn read_kind(word: &[u8]) -> Option<bool>
    ensures { MatchOption result ((shared : Bool) → ¬ (word.now ≡ kind_of_join shared))
        (λ shared. word.now ≡ kind_of_join shared) }
{
    if word == SHARED {
        return Some(true);
    }
    if word == SOLE {
        return Some(false);
    }
    None
}

/// A slot, and 1 to 64 bytes.
pub fn read_foreign(alloc: Global, words: &[&[u8]]) -> Result<Option<(u8, Vec<u8>)>, AllocError>
    ensures { IfOk result (λ found. MatchOption found
        ((slot : ℕ) (bytes : List ℕ) → ¬ (AreForeign (texts words.now) slot bytes))
        (λ foreign. AreForeign (texts words.now) foreign.0 foreign.1.items)) }
{
    let [slot, digits] = words else {
        return Ok(None);
    };
    let Some(slot) = read_slot(slot) else {
        return Ok(None);
    };
    match read_hex(alloc, digits)? {
        Some(bytes) => Ok(Some((slot, bytes))),
        None => Ok(None),
    }
}

// 1 to 64 bytes, each as two hexadecimal digits of either case.
fn read_hex(alloc: Global, digits: &[u8]) -> Result<Option<Vec<u8>>, AllocError>
    ensures { IfOk result (λ found. MatchOption found
        ((bytes : List ℕ) → ¬ (IsHexWord digits.now bytes))
        (λ bytes. IsHexWord digits.now bytes.items)) }
{
    match hex::decode(alloc, digits) {
        Ok(bytes) if !bytes.is_empty() && bytes.len() <= FOREIGN_MAX => Ok(Some(bytes)),
        Err(FromHexError::OutOfMemory) => Err(AllocError),
        _ => Ok(None),
    }
}
