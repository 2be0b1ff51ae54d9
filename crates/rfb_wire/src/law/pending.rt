//! Laws of the pending bytes of messages: which pieces a message has.

ghost use Rattle.std.specs.Prelude.{ℕ, ℤ, List, [], ◌++◌, ◌≡◌, ◌<◌, ◌≤◌, length};
ghost use Rattle.rfb_wire.specs.declared.client_head.ClientHead.{ClientHead as ClientHeadValue};
ghost use Rattle.rfb_wire.specs.declared.server_head.ServerHead.{ServerHead as ServerHeadValue};
ghost use Rattle.rfb_wire.specs.stream.Prefix.{Listed};
ghost use Rattle.rfb_wire.specs.ClientHead.{SpellsClientHead, SpellsSetEncodings};
ghost use Rattle.rfb_wire.specs.ClientHead.{SpellsClientCutText};
ghost use Rattle.rfb_wire.specs.ServerHead.{SpellsServerHead, SpellsColourMap, SpellsServerCutText};
ghost use Rattle.rfb_wire.specs.ClientMessage.{SpellsNumber};
ghost use Rattle.rfb_wire.specs.ServerMessage.{MapColour, SpellsMapColour};
ghost use Rattle.rfb_wire.specs.MessagePieces.{client_pending, server_pending};

/// Of a client message the head is one piece, each number of SetEncodings one, and each byte of a
/// text one. At most 19 bytes are pending, and no more than came.
pub fn client_pending_follows_the_last_piece()
    ensures none { client_pending [] ≡ 0 }
    ensures head { (head : ClientHeadValue) (bytes missing : List ℕ) →
        SpellsClientHead head (bytes ++ missing) → 0 < length missing →
        client_pending bytes ≡ length bytes }
    ensures number { (count : ℕ) (numbers : List ℤ) (head list rest : List ℕ) →
        SpellsSetEncodings count head → Listed SpellsNumber numbers list → length rest < 4 →
        client_pending (head ++ (list ++ rest)) ≡ length rest }
    ensures text { (count : ℕ) (head text : List ℕ) →
        SpellsClientCutText count head → client_pending (head ++ text) ≡ 0 }
    ensures most { (bytes : List ℕ) → client_pending bytes ≤ 19 }
    ensures few { (bytes : List ℕ) → client_pending bytes ≤ length bytes }
{}

/// Of a server message the head is one piece, each colour of SetColorMapEntries one, and each byte
/// of a text one. At most 7 bytes are pending, and no more than came.
pub fn server_pending_follows_the_last_piece()
    ensures none { server_pending [] ≡ 0 }
    ensures head { (head : ServerHeadValue) (bytes missing : List ℕ) →
        SpellsServerHead head (bytes ++ missing) → 0 < length missing →
        server_pending bytes ≡ length bytes }
    ensures colour { (first count : ℕ) (colours : List MapColour) (head list rest : List ℕ) →
        SpellsColourMap first count head → Listed SpellsMapColour colours list → length rest < 6 →
        server_pending (head ++ (list ++ rest)) ≡ length rest }
    ensures text { (count : ℕ) (head text : List ℕ) →
        SpellsServerCutText count head → server_pending (head ++ text) ≡ 0 }
    ensures most { (bytes : List ℕ) → server_pending bytes ≤ 7 }
    ensures few { (bytes : List ℕ) → server_pending bytes ≤ length bytes }
{}
