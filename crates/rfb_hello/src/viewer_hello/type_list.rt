//! A list of security types that comes in slices.

ghost use Rattle.std.specs.Prelude.{◌≡◌, ◌≤◌, ◌<◌, ◌+◌, ◌++◌, [], length, take, None, IfSome};
ghost use Rattle.rfb_hello.specs.TypesSoFar.{TypesSoFar};

use crate::offered::MAX_TYPES;
use arrayvec::ArrayVec;
use rfb_wire::pieces::append;
use std::marker::Model;
use std::mem;

/// The security types of a list that have come, and how many come after the next one.
#[derive(Debug, Drop)]
pub struct TypeList {
    types: ArrayVec<u8, MAX_TYPES>,
    more: u8,
}

impl Model for TypeList {
    ghost Value = { TypesSoFar };

    ghost view = { λ l. record { types = l.types.items; more = l.more } };

    ghost invariant = { λ l. length l.types.items + l.more < 255 };
}

impl TypeList {
    /// A list of `more` types and one. None has come yet.
    pub fn new(more: u8) -> TypeList
        requires { more < 255 }
        ensures { result ≡ record { types = []; more = more } }
    {
        TypeList {
            types: ArrayVec::new(),
            more,
        }
    }

    /// Takes types, as many of the list as there are. Returns how many these were, and the whole
    /// list after the last of them.
    pub fn take(&mut self, bytes: &[u8]) -> (usize, Option<ArrayVec<u8, MAX_TYPES>>)
        requires some { 0 < length bytes.now }
        ensures used { (0 < result.0) × (result.0 ≤ length bytes.now) }
        ensures more { result.1 ≡ None
            → (self.new.types ≡ self.old.types ++ take result.0 bytes.now)
            × (result.0 + self.new.more ≡ self.old.more) }
        ensures whole { IfSome result.1 (λ types.
            (types.items ≡ self.old.types ++ take result.0 bytes.now)
            × (result.0 ≡ self.old.more + 1)) }
    {
        let missing = usize::from(self.more) + 1;
        if bytes.len() < missing {
            append(&mut self.types, bytes);
            self.more -= bytes.len() as u8;
            return (bytes.len(), None);
        }
        let mut whole = mem::replace(&mut self.types, ArrayVec::new());
        append(&mut whole, &bytes[..missing]);
        (missing, Some(whole))
    }
}
