//! Laws of bytes that are too few: where no item is whole yet, more is waited for.

ghost use Rattle.std.specs.Prelude.{ℕ, List, ◌∷◌, ◌++◌, ◌≡◌, ◌*◌, ◌<◌, length};
ghost use Rattle.rfb_wire.specs.stream.Heads.{BeginsNone, Misses};
ghost use Rattle.rfb_wire.specs.stream.Prefix.{More, Bad};
ghost use Rattle.rfb_wire.specs.ClientHead.{SpellsClientHead};
ghost use Rattle.rfb_wire.specs.ClientHead.{SpellsSetEncodings, SpellsClientCutText};
ghost use Rattle.rfb_wire.specs.ClientMessage.{UnknownType};
ghost use Rattle.rfb_wire.specs.ClientStream.{client_message};
ghost use Rattle.rfb_wire.specs.ServerHead.{SpellsServerHead, SpellsColourMap, SpellsServerCutText};
ghost use Rattle.rfb_wire.specs.ServerMessage.{UnknownType as UnknownServerType, server_message};
ghost use Rattle.rfb_wire.specs.RectStream.{rect_head};

/// A client message waits for the bytes that its head misses, for each number that its head
/// counts, and for all of its text. A type that no client message has is a fault at once.
pub fn client_messages_wait_for_their_last_byte()
    ensures head { (n : ℕ) (bytes : List ℕ) →
        Misses SpellsClientHead n bytes → client_message bytes ≡ More }
    ensures numbers { (count : ℕ) (head rest : List ℕ) → SpellsSetEncodings count head →
        length rest < count * 4 → client_message (head ++ rest) ≡ More }
    ensures text { (text_length : ℕ) (head rest : List ℕ) → SpellsClientCutText text_length head →
        length rest < text_length → client_message (head ++ rest) ≡ More }
    ensures unknown { (first : ℕ) (rest : List ℕ) → BeginsNone SpellsClientHead first →
        client_message (first ∷ rest) ≡ Bad (UnknownType first) }
{}

/// A server message waits for the bytes that its head misses, for each colour that its head
/// counts, and for all of its text. A type that no server message has is a fault at once.
pub fn server_messages_wait_for_their_last_byte()
    ensures head { (n : ℕ) (bytes : List ℕ) →
        Misses SpellsServerHead n bytes → server_message bytes ≡ More }
    ensures colours { (first count : ℕ) (head rest : List ℕ) → SpellsColourMap first count head →
        length rest < count * 6 → server_message (head ++ rest) ≡ More }
    ensures text { (text_length : ℕ) (head rest : List ℕ) → SpellsServerCutText text_length head →
        length rest < text_length → server_message (head ++ rest) ≡ More }
    ensures unknown { (first : ℕ) (rest : List ℕ) → BeginsNone SpellsServerHead first →
        server_message (first ∷ rest) ≡ Bad (UnknownServerType first) }
{}

/// The head of a rectangle waits for its twelve bytes.
pub fn rect_heads_wait_for_their_last_byte()
    ensures { (width height : ℕ) (bytes : List ℕ) →
        length bytes < 12 → rect_head width height bytes ≡ More }
{}
