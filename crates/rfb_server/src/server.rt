//! A server: a screen and a session.

ghost use Rattle.std.specs.Prelude.{◌≡◌, ◌≢◌, ◌≤◌, ◌<◌, ℕ, List, [], ◌++◌, ◌+◌, length, vec_len};
ghost use Rattle.std.specs.Prelude.{take, true, false, Some, None, Ok, IfOk, IfErr, OnErr};
ghost use Rattle.rfb_server.specs.KnownScreen.{Follows};

mod drawing;
mod lending;

use crate::event::ServerEvent;
use crate::fault::ServerFault;
use crate::session::Session;
use crate::setup::ServerSetup;
use rfb_hello::{Fed, Version};
use rfb_picture::Picture;
use rfb_pixel::Colour;
use std::alloc::{AllocError, Global};

/// A screen and the session of its one viewer. The owner draws on the screen, feeds it what the
/// viewer sends, and sends the viewer what it answers and composes.
#[derive(Debug, Drop)]
pub struct Server {
    screen: Picture<Colour>,
    session: Session,
    taken: u64,
    ghost follows: { Follows screen session },
}

// The colour that a screen begins with.
const BLACK: Colour = Colour { r: 0, g: 0, b: 0 };

impl Server {
    ghost use Rattle.rfb_wire.specs.stream.End.{FedBy, RefusedBy, RunsOutBy, StaysFailed};
    ghost use Rattle.rfb_server.specs.declared.fault.ServerFault.TheVariants.{NoMemory};
    ghost use Rattle.rfb_server.specs.ClientBytes.{client_bytes_pending, is_between};
    ghost use Rattle.rfb_server.specs.Told.{seen};
    ghost use Rattle.rfb_server.specs.Server.{Serving, ServerState, first_server, server};
    ghost use Rattle.rfb_server.specs.Server.{AsksMemory};
    ghost use Rattle.rfb_hello.specs.Version.{version_text};
    ghost use Rattle.rfb_server.specs.Model.{StandsFor, serving_with, serving_of, fault_of};
    ghost use Rattle.rfb_server.specs.Model.{screen_of, Keeps, notes_of, session_of, taken_of};
    ghost use Rattle.rfb_server.specs.Counted.{CountsTo};
    ghost use Rattle.rfb_wire.specs.stream.FaultPlace.{counted_on};
    ghost use Rattle.rfb_server.specs.Failed.{KeepsNotes};
    ghost use Rattle.rfb_server.specs.UpdateCall.{Updates, WasDue, StaysUnsent};
    ghost use Rattle.rfb_server.specs.Hints.{hints_of};
    ghost use Rattle.rfb_server.specs.Room.{GrowsWithin, room_for};
    ghost use Rattle.std.specs.Vec.{vec_capacity};

    /// A server that was fed nothing, with a black screen of `width` by `height` places: nothing
    /// was sent, and nothing is asked. It offers versions up to `offer`, names the screen, and
    /// keeps at most `text_limit` bytes of each text that the viewer cuts. It asks for all the
    /// memory that it will have but for texts; where there is none it gives the error, and nothing
    /// is kept.
    pub fn new(
        alloc: Global,
        width: u16,
        height: u16,
        name: &[u8],
        offer: Version,
        text_limit: u32,
    ) -> Result<Server, AllocError>
        requires columns { (1 ≤ width) × (width ≤ 4096) }
        requires rows { (1 ≤ height) × (height ≤ 4096) }
        requires name { length name.now ≤ 255 }
        requires texts { text_limit ≤ 1048576 }
        ensures stands { IfOk result (λ server.
            StandsFor (serving_with offer width height name.now text_limit) server
            (first_server (serving_with offer width height name.now text_limit)) []) }
        ensures hints { IfOk result (λ server. hints_of server ≡ []) }
        ensures taken { IfOk result (λ server. taken_of server ≡ 0) }
    {
        let screen = Picture::new(alloc, width, height, BLACK)?;
        let session = Session::new(alloc, width, height, name, offer, text_limit)?;
        Ok(Server {
            screen,
            session,
            taken: 0,
        })
    }

    /// A server as `new` makes it, of these.
    pub fn of(alloc: Global, setup: ServerSetup) -> Result<Server, AllocError>
        requires columns { (1 ≤ setup.width) × (setup.width ≤ 4096) }
        requires rows { (1 ≤ setup.height) × (setup.height ≤ 4096) }
        requires name { length setup.name.now ≤ 255 }
        requires texts { setup.text_limit ≤ 1048576 }
        ensures stands { let setup = setup.entry in
            let serving = serving_with setup.offer setup.width setup.height setup.name.now
            setup.text_limit in
            IfOk result (λ server. StandsFor serving server (first_server serving) []) }
        ensures hints { IfOk result (λ server. hints_of server ≡ []) }
        ensures taken { IfOk result (λ server. taken_of server ≡ 0) }
    {
        Server::new(
            alloc,
            setup.width,
            setup.height,
            setup.name,
            setup.offer,
            setup.text_limit,
        )
    }

    /// The ProtocolVersion that is sent before all else, RFC 6143 section 7.1.1.
    pub fn greeting(&self) -> [u8; 12]
        ensures { (serving : Serving) (s : ServerState) (prefix : List ℕ)
            → StandsFor serving self.now s prefix → result ≡ version_text serving.hello.offer }
    {
        self.session.greeting()
    }

    /// Takes bytes of the client's, up to the last of its first item that makes an event, or all.
    /// Events are steps of the handshake, keys, the pointer and texts. Formats, lists and requests
    /// change the server at their last byte, and make no event. A client's fault comes at its last
    /// byte, and want of memory for a text at its length. Then the record, what is asked, the
    /// format and the list stay as the items before left them, and each later call gives the fault
    /// again and takes nothing. Up to 19 bytes are kept of what is under way, and of one text as
    /// much as fits its limit.
    pub fn feed(&mut self, bytes: &[u8]) -> Result<Fed<ServerEvent>, ServerFault>
        // What was taken, what it was, and what is left.
        ensures used { IfOk result (λ fed. fed.used ≤ length bytes.now) }
        ensures all { IfOk result (λ fed. fed.event ≡ None → fed.used ≡ length bytes.now) }
        ensures some { IfOk result (λ fed. 0 < length bytes.now → 0 < fed.used) }
        ensures fed { IfOk result (λ fed. (serving : Serving)
            → FedBy (server serving) (StandsFor serving)
            self.old (take fed.used bytes.now) (seen fed.event) self.new) }
        ensures made { serving_of self.new ≡ serving_of self.old }
        ensures hints { hints_of self.new ≡ hints_of self.old }
        ensures screen { screen_of self.new ≡ screen_of self.old }

        // When a fault comes, when memory is wanting, what is kept, and that it stays.
        ensures fault { IfErr result (λ fault. fault ≢ NoMemory → (serving : Serving)
            → RefusedBy (server serving) (StandsFor serving) self.old bytes.now fault) }
        ensures memory { IfErr result (λ fault. fault ≡ NoMemory → (serving : Serving)
            → RunsOutBy (server serving) AsksMemory (StandsFor serving) self.old bytes.now) }
        ensures kept { IfErr result (λ fault. KeepsNotes fault self.old bytes.now self.new) }
        ensures fails { IfErr result (λ fault. fault_of self.new ≡ Some fault) }
        ensures failed { StaysFailed (fault_of self.old) self.old result self.new }

        // How many bytes were used in all, at a fault up to the byte with which it came.
        ensures taken { IfOk result (λ fed.
            taken_of self.new ≡ counted_on (taken_of self.old) fed.used) }
        ensures place { IfErr result (λ fault. fault_of self.old ≡ None
            → CountsTo fault self.old bytes.now self.new) }
    {
        match self.session.feed_placed(bytes) {
            Ok(fed) => {
                self.taken = self.taken.saturating_add(fed.used as u64);
                Ok(fed)
            }
            Err(flaw) => {
                self.taken = self.taken.saturating_add(flaw.used as u64);
                Err(flaw.fault)
            }
        }
    }

    /// Whether the client's bytes end between two messages: the handshake is done, no message has
    /// begun, and no fault was returned.
    pub fn between(&self) -> bool
        ensures value { (serving : Serving) (s : ServerState) (prefix : List ℕ)
            → StandsFor serving self.now s prefix → result ≡ is_between s.point prefix }
        ensures failed { fault_of self.now ≢ None → result ≡ false }
    {
        self.session.between()
    }

    /// How many bytes are pending: those of the client's item under way after its last whole piece.
    /// It keeps no others, but the first bytes of a text.
    pub fn pending(&self) -> usize
        ensures value { (serving : Serving) (s : ServerState) (prefix : List ℕ)
            → StandsFor serving self.now s prefix
            → result ≡ client_bytes_pending s.point prefix }
        ensures few { result < 20 }
        ensures failed { fault_of self.now ≢ None → result ≡ 0 }
    {
        self.session.pending()
    }

    /// Appends to `out` one FramebufferUpdate, RFC 6143 section 7.6.1, of what the viewer asked for
    /// and does not have. It reports whether it did: exactly where the handshake is done, the
    /// server has not failed, and such a place is there.
    ///
    /// First in it is a CopyRect for each hint that is of use, the oldest first, where the viewer
    /// listed CopyRect. Such a hint copies over asked places, none of them to be sent whole, and
    /// leaves more of them right than there were. Then come pixels. After an update nothing is
    /// asked any more, and no hint is kept.
    ///
    /// `out` stays the caller's; what was in it stays in front. Room is asked for once, before
    /// anything changes. It is at most 260 bytes, and 12 and its pixels' bytes for each cell of 64
    /// by 64 places that holds an asked place, or twice the room that there was, if that is more.
    /// Where there is none it gives the error, if an update is due, and nothing changes.
    pub fn compose(&mut self, out: &mut Vec<u8>) -> Result<bool, AllocError>
        ensures appended { (bytes : List ℕ) × (out.new.items ≡ out.old.items ++ bytes) }
        ensures composed { IfOk result (λ did. did ≡ true →
            Updates self.old self.new out.old.items out.new.items) }
        ensures idle { IfOk result (λ did. did ≡ false →
            StaysUnsent self.old self.new out.old.items out.new.items) }
        ensures kept { OnErr result (out.new.items ≡ out.old.items) }
        ensures due { OnErr result (WasDue self.old) }
        ensures same { OnErr result (Keeps self.old self.new) }
        ensures failed { fault_of self.old ≢ None → result ≡ Ok false }
        ensures spent { IfOk result (λ did. did ≡ true → hints_of self.new ≡ []) }
        ensures hints { IfOk result (λ did. did ≡ false → hints_of self.new ≡ hints_of self.old) }
        ensures unspent { OnErr result (hints_of self.new ≡ hints_of self.old) }
        ensures room { GrowsWithin (vec_capacity out.old)
            (vec_len out.old + room_for (notes_of self.old)) (vec_capacity out.new) }
        ensures taken { taken_of self.new ≡ taken_of self.old }
    {
        self.session.compose(&self.screen, out)
    }

    /// A server of a screen and a session that follows it, which are its own from here on. It has
    /// used no bytes; what the session was fed before is not counted.
    pub fn from_parts(screen: Picture<Colour>, session: Session) -> Server
        requires follows { Follows screen session }
        ensures screen { screen_of result ≡ screen }
        ensures session { session_of result ≡ session }
        ensures taken { taken_of result ≡ 0 }
    {
        Server {
            screen,
            session,
            taken: 0,
        }
    }

    /// Its screen and its session, which are the caller's from here on.
    pub fn into_parts(self) -> (Picture<Colour>, Session)
        ensures screen { result.0 ≡ screen_of self }
        ensures session { result.1 ≡ session_of self }
        ensures follows { Follows result.0 result.1 }
    {
        (self.screen, self.session)
    }
}
