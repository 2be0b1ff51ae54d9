//! Heads and numbers of a client's messages that come in slices.

ghost use Rattle.std.specs.Prelude.{◌≡◌, ℕ, ◌≤◌, ◌<◌, ◌++◌, length, take, true};
ghost use Rattle.rfb_wire.specs.ClientHead.{SpellsClientHead};
ghost use Rattle.rfb_wire.specs.Heads.{IfMore, IfGot, IfBad};
ghost use Rattle.rfb_wire.specs.ClientMessage.{UnknownType, FaultsClientMessage};
ghost use Rattle.rfb_wire.specs.declared.fault.WireFault.TheVariants.{UnknownMessage};
ghost use Rattle.rfb_server.specs.Progress.{is_head_begun};

use crate::session::input::progress::MAX_HEAD;
use arrayvec::ArrayVec;
use rfb_wire::pieces::append;
use rfb_wire::{ClientHead, Read};

// Takes further bytes of a message's head. Returns how many it took, and the head, if it is whole
// now, or its fault. Where it is not whole, the bytes are added to the part.
pub(super) fn gather_head(
    part: &mut ArrayVec<u8, MAX_HEAD>,
    bytes: &[u8],
) -> (usize, Read<ClientHead>)
    requires some { 0 < length bytes.now }
    requires partial { is_head_begun part.old.items ≡ true }
    ensures used { (0 < result.0) × (result.0 ≤ length bytes.now) }
    ensures more { IfMore result.1 (λ n.
        (part.new.items ≡ part.old.items ++ take result.0 bytes.now)
        × (is_head_begun part.new.items ≡ true)) }
    ensures got { IfGot result.1 (λ head n. (part.new ≡ part.old)
        × SpellsClientHead head (part.old.items ++ take result.0 bytes.now)) }
    ensures bad { IfBad result.1 (λ fault. (part.new ≡ part.old)
        × (kind : ℕ) × (fault ≡ UnknownMessage kind)
        × FaultsClientMessage (UnknownType kind) (part.old.items ++ take result.0 bytes.now)) }
{
    let mut head = ArrayVec::<u8, MAX_HEAD>::new();
    append(&mut head, part.as_slice());
    let room = MAX_HEAD - part.len();
    append(&mut head, &bytes[..bytes.len().min(room)]);
    match ClientHead::read(head.as_slice()) {
        Read::More(missing) => {
            append(part, bytes);
            (bytes.len(), Read::More(missing))
        }
        Read::Got(whole, size) => (size - part.len(), Read::Got(whole, size)),
        Read::Bad(fault) => (1, Read::Bad(fault)),
    }
}
