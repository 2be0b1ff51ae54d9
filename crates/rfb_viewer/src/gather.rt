//! Heads of messages that come in slices.

ghost use Rattle.std.specs.Prelude.{◌≡◌, ◌≤◌, ◌+◌, ◌++◌, ◌∷◌, [], length, take};
ghost use Rattle.rfb_wire.specs.stream.Heads.{Misses};
ghost use Rattle.rfb_wire.specs.Heads.{IfMore, IfGot, IfBad, IsUnknown};
ghost use Rattle.rfb_wire.specs.ServerHead.{SpellsServerHead};

use arrayvec::ArrayVec;
use rfb_wire::pieces::append;
use rfb_wire::{Read, ServerHead};

/// Takes a byte of a message's head, which comes after the part: the head, if it is whole now; else
/// the byte is kept.
pub(crate) fn read_head(part: &mut ArrayVec<u8, 7>, byte: u8) -> Read<ServerHead>
    ensures kept { IfMore result (λ n. part.new.items ≡ part.old.items ++ byte ∷ []) }
    ensures more { IfMore result (λ n.
        Misses SpellsServerHead n (part.old.items ++ byte ∷ [])) }
    ensures got { IfGot result (λ head used. (used ≤ length part.old.items + 1)
        × SpellsServerHead head (take used (part.old.items ++ byte ∷ []))) }
    ensures bad { IfBad result (λ fault.
        IsUnknown SpellsServerHead fault (part.old.items ++ byte ∷ [])) }
{
    let mut whole = ArrayVec::<u8, 8>::new();
    append(&mut whole, part.as_slice());
    whole.push(byte);
    let read = ServerHead::read(whole.as_slice());
    if let Read::More(_) = read {
        part.push(byte);
    }
    read
}
