//! Laws of RFC 6143's messages, with nothing to run: which bytes are read as which of them.

pub mod pending;
pub mod waiting;

ghost use Rattle.std.specs.Prelude.{ℕ, List, [], ◌≡◌, ◌++◌, Option};
ghost use Rattle.std.specs.List.{concat};
ghost use Rattle.rfb_wire.specs.stream.Prefix.{Reads};
ghost use Rattle.rfb_wire.specs.stream.Grammar.{IsSpelled, IsGrammar, CutVerdict};
ghost use Rattle.rfb_wire.specs.ClientMessage.{ClientMessage, ClientFault, SpellsClientMessage};
ghost use Rattle.rfb_wire.specs.ClientMessage.{client_says};
ghost use Rattle.rfb_wire.specs.ClientStream.{client_message, client_stream};
ghost use Rattle.rfb_wire.specs.RectStream.{rect_head, rect_head_says};
ghost use Rattle.rfb_wire.specs.ServerMessage.{ServerMessage, SpellsServerMessage, server_says};
ghost use Rattle.rfb_wire.specs.ServerMessage.{server_message};

/// Reading client messages gives exactly those that the bytes spell and exactly the faults that
/// they end in, whatever follows; so no message's bytes go on as another's.
pub fn client_messages_are_spelled()
    ensures reads { Reads client_message client_says }
    ensures stream { IsSpelled client_stream (λ _. client_says) }
    ensures laws { IsGrammar client_stream }
    ensures apart { (m other : ClientMessage) (front rest : List ℕ) →
        SpellsClientMessage m front → SpellsClientMessage other (front ++ rest) →
        (m ≡ other) × (rest ≡ []) }
{}

/// The verdict of a client's bytes between two messages does not depend on how they are split.
pub fn client_verdict_is_of_the_bytes()
    ensures { (one two : List (List ℕ)) (items others : List ClientMessage) →
        (fault other : Option ClientFault) → concat one ≡ concat two →
        CutVerdict client_stream tt [] one items fault →
        CutVerdict client_stream tt [] two others other → (items ≡ others) × (fault ≡ other) }
{}

/// Reading server messages gives exactly those that the bytes spell, of an update its head, and
/// exactly the faults that they end in, whatever follows; so no message's bytes go on as
/// another's.
pub fn server_messages_are_spelled()
    ensures reads { Reads server_message server_says }
    ensures apart { (m other : ServerMessage) (front rest : List ℕ) →
        SpellsServerMessage m front → SpellsServerMessage other (front ++ rest) →
        (m ≡ other) × (rest ≡ []) }
{}

/// Reading the head of a rectangle gives exactly those that twelve bytes spell on a screen of
/// that size, and exactly the faults of others, whatever follows.
pub fn rect_heads_are_spelled()
    ensures { (width height : ℕ) → Reads (rect_head width height) (rect_head_says width height) }
{}
