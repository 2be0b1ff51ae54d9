//! Laws of a client's stream and of a server's states, with nothing to run.

ghost use Rattle.std.specs.Prelude.{◌≡◌, ℕ, List, true, map, ◌++◌, Some, None, ◌⊎◌, ◌↔◌};
ghost use Rattle.rfb_pixel.specs.declared.colour.Colour.{Colour};
ghost use Rattle.rfb_pixel.specs.Format.{PixelFormat, seen_through};
ghost use Rattle.rfb_picture.specs.Grid.{Grid, IsGrid, at_or};
ghost use Rattle.rfb_wire.specs.stream.Grammar.{IsSpelled, IsGrammar};
ghost use Rattle.rfb_wire.specs.stream.End.{IsMachine};
ghost use Rattle.rfb_wire.specs.stream.Both.{first_point, GoesAsFirst, GoesAsSecond};
ghost use Rattle.rfb_hello.specs.declared.version.Version.{Version};
ghost use Rattle.rfb_hello.specs.ServerEnd.{server_end};
ghost use Rattle.rfb_server.specs.ClientBytes.{client_two, client_bytes, client_bytes_say};
ghost use Rattle.rfb_codec.specs.Effect.{effects, IsAlike, Agrees};
ghost use Rattle.rfb_codec.specs.WholeUpdate.{update_of};
ghost use Rattle.rfb_server.specs.Server.{Serving, ServerState, server, black};
ghost use Rattle.rfb_server.specs.Server.{messages_end, after_handshake};
ghost use Rattle.rfb_server.specs.Told.{step_told};
ghost use Rattle.rfb_server.specs.declared.server.Server.{Server};
ghost use Rattle.rfb_server.specs.declared.session.Session.{Session};
ghost use Rattle.rfb_server.specs.KnownScreen.{Follows};
ghost use Rattle.rfb_server.specs.Model.{StandsFor, fault_of, screen_of, notes_of, notes_at};
ghost use Rattle.rfb_server.specs.Model.{SessionStandsFor, session_of, session_fault, notes_in};
ghost use Rattle.rfb_server.specs.Model.{with_screen, server_over, taken_of};
ghost use Rattle.rfb_server.specs.Request.{wanted, recorded, is_asked};
ghost use Rattle.rfb_server.specs.Composition.{Part, Composes, IsPlace, between, sent_as};

/// All that a client sends is read as RFC 6143 has it, its handshake and then its messages,
/// whatever version was offered.
pub fn client_bytes_are_spelled()
    ensures stream { (offer : Version) → IsSpelled (client_bytes offer) (client_bytes_say offer) }
    ensures laws { (offer : Version) → IsGrammar (client_bytes offer) }
{}

/// A server is a machine over that stream: each item brings its state to the point after the item.
pub fn a_server_is_a_machine()
    ensures { (serving : Serving) → IsMachine (server serving) }
{}

/// A server is fed the handshake as the handshake's end is, and messages as an end of messages
/// alone: so what these ends take, refuse or want memory for, the server does.
pub fn a_server_is_fed_as_the_ends_of_its_parts()
    ensures handshake { (serving : Serving) → GoesAsFirst (client_two serving.hello.offer)
        (server serving) (server_end serving.hello) (λ s. first_point s.point)
        (λ step. step_told (Some step)) }
    ensures messages { (serving : Serving) → GoesAsSecond (client_two serving.hello.offer)
        (server serving) (messages_end serving) (λ s. after_handshake s.point s)
        (λ told. Some told) }
{}

/// A server that stands for a state and a prefix has not failed.
pub fn a_server_that_stands_has_not_failed()
    ensures { (serving : Serving) (server : Server) (s : ServerState) (prefix : List ℕ) →
        StandsFor serving server s prefix → fault_of server ≡ None }
{}

/// A server that stands for a state has the screen and the notes of that.
pub fn a_server_that_stands_has_the_notes_of_its_state()
    ensures screen { (serving : Serving) (server : Server) (s : ServerState) (prefix : List ℕ) →
        StandsFor serving server s prefix → screen_of server ≡ s.screen }
    ensures notes { (serving : Serving) (server : Server) (s : ServerState) (prefix : List ℕ) →
        StandsFor serving server s prefix → notes_of server ≡ notes_at s }
{}

/// A session that stands for a state has not failed, and has the notes of that state.
pub fn a_session_that_stands_has_the_notes_of_its_state()
    ensures going { (serving : Serving) (screen : Grid Colour) (session : Session)
        (s : ServerState) (prefix : List ℕ) → SessionStandsFor serving screen session s prefix →
        session_fault session ≡ None }
    ensures notes { (serving : Serving) (screen : Grid Colour) (session : Session)
        (s : ServerState) (prefix : List ℕ) → SessionStandsFor serving screen session s prefix →
        notes_in session ≡ notes_at s }
{}

/// What a session stands for over one screen, it stands for over any other, with that as the
/// screen.
pub fn a_session_stands_over_any_screen()
    ensures { (serving : Serving) (before after : Grid Colour) (session : Session)
        (s : ServerState) (prefix : List ℕ) → SessionStandsFor serving before session s prefix →
        SessionStandsFor serving after session (with_screen after s) prefix }
{}

/// A session over a screen that it follows is a server, which stands for what the session does. A
/// server is its session over its screen, with its count of bytes.
pub fn a_session_over_a_screen_is_a_server()
    ensures stands { (serving : Serving) (screen : Grid Colour) (session : Session)
        (count : ℕ) (follows : Follows screen session) (s : ServerState) (prefix : List ℕ) →
        StandsFor serving (server_over screen session count follows) s prefix
        ↔ SessionStandsFor serving screen session s prefix }
    ensures server { (server : Server) → (follows : Follows (screen_of server) (session_of server))
        × (server_over (screen_of server) (session_of server) (taken_of server) follows ≡ server) }
{}

/// A viewer whose picture agreed with the record shows, once it has the update, the screen over the
/// area that was asked, as it looks through the format.
pub fn an_answered_area_shows_the_screen()
    ensures { (old new : ServerState) (bytes : List ℕ) (copies blocks : List Part)
        (picture : Grid Colour) (x y : ℕ) (d : Colour) →
        Composes old new bytes copies blocks → IsAlike old.screen old.known →
        IsGrid picture → IsAlike picture old.known → Agrees old.form picture old.known →
        IsPlace old x y → is_asked old x y ≡ true →
        at_or (effects (between old) (update_of (map sent_as (copies ++ blocks))) picture) x y d
        ≡ seen_through old.form (at_or old.screen x y black) }
{}

/// A composing leaves each place recorded as it was, or with the wanted pixel; an asked one with
/// the wanted pixel.
pub fn a_record_is_as_before_or_as_wanted()
    ensures asked { (old new : ServerState) (bytes : List ℕ) (copies blocks : List Part)
        (x y : ℕ) → Composes old new bytes copies blocks → IsPlace old x y →
        is_asked old x y ≡ true → recorded new x y ≡ Some (wanted old x y) }
    ensures each { (old new : ServerState) (bytes : List ℕ) (copies blocks : List Part)
        (x y : ℕ) → Composes old new bytes copies blocks → IsPlace old x y →
        (recorded new x y ≡ recorded old x y) ⊎ (recorded new x y ≡ Some (wanted old x y)) }
{}
