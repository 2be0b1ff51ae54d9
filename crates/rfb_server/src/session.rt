//! All of a server but its screen.

ghost use Rattle.std.specs.Prelude.{◌≡◌, ◌≢◌, ◌≤◌, ◌<◌, ℕ, List, [], length, true, None};
ghost use Rattle.std.specs.Prelude.{IfOk};
ghost use Rattle.std.specs.Bool.{OnTrue};
ghost use Rattle.rfb_picture.specs.Grid.{Holds};
ghost use Rattle.rfb_server.specs.session.Marks.{AreAlike};
ghost use Rattle.rfb_server.specs.Progress.{is_partial};

mod claiming;
mod entering;
mod input;
pub(crate) mod places;
mod shown;
mod twins;
mod update;

use crate::claim::Claim;
use crate::drawing::Notice;
use crate::encodings::EncodingList;
use crate::hint::{Hint, MAX_HINTS};
use crate::record::Record;
use crate::session::input::progress::Progress;
use crate::session::places::Places;
use circular_buffer::HeapCircularBuffer;
pub(crate) use input::handshake::event_of;
use rfb_codec::Block;
use rfb_hello::{ServerHello, Version};
use rfb_picture::{Area, Picture, PlaceSet, Rect};
use rfb_pixel::Format;
use std::alloc::{AllocError, Global};

/// One viewer's part of a server: its handshake, its format and its list of encodings, what it was
/// sent, what it asked for, hints, and marks where the screen may differ from what it was sent. The
/// screen is someone else's: a session is notified where it is drawn on, and borrows it to compose.
/// So several sessions, each of its own viewer, serve one screen.
#[derive(Debug, Drop)]
pub struct Session {
    alloc: Global,
    hello: ServerHello,
    progress: Progress,
    text_limit: u32,
    format: Format,
    encodings: EncodingList,
    known: Record,
    area: Area,
    marks: PlaceSet,
    hints: HeapCircularBuffer<Hint>,
    // Of the latest copy on the screen: where the viewer has that already.
    claim: Option<Claim>,
    // The latest rectangle that was sent, kept for its room.
    block: Block,
    ghost alike: { AreAlike known area marks },
    ghost partial: { is_partial hello progress ≡ true },
    ghost sixteen: { hints.capacity ≡ 16 },
}

impl Session {
    ghost use Rattle.rfb_pixel.specs.declared.colour.Colour.{Colour};
    ghost use Rattle.rfb_picture.specs.Grid.{Grid, IsGrid, at_or};
    ghost use Rattle.rfb_server.specs.Server.{Serving, ServerState, first_server};
    ghost use Rattle.rfb_server.specs.Model.{SessionStandsFor, serving_with, with_screen};
    ghost use Rattle.rfb_server.specs.Model.{KeepsSession, notes_in};
    ghost use Rattle.rfb_server.specs.KnownScreen.{Follows, IsTold};
    ghost use Rattle.rfb_server.specs.Hints.{hints_in};
    ghost use Rattle.rfb_server.specs.Strokes.{with_hint_of};
    ghost use Rattle.rfb_hello.specs.Version.{version_text};
    ghost use Rattle.rfb_server.specs.Record.{ShowsKnown, TellsKnown};
    ghost use Rattle.rfb_server.specs.session.Sessions.{IsMarked, IsHinted};

    /// A session that was fed nothing, for screens of that size: nothing was sent, and nothing is
    /// asked. It offers versions up to `offer`, names the screen, and keeps at most `text_limit`
    /// bytes of each text that the viewer cuts. It asks for all the memory that it will have but
    /// for texts; where there is none it gives the error, and nothing is kept.
    pub fn new(
        alloc: Global,
        width: u16,
        height: u16,
        name: &[u8],
        offer: Version,
        text_limit: u32,
    ) -> Result<Session, AllocError>
        requires columns { width ≤ 4096 }
        requires rows { height ≤ 4096 }
        requires name { length name.now ≤ 255 }
        ensures stands { IfOk result (λ session. (screen : Grid Colour) → SessionStandsFor
            (serving_with offer width height name.now text_limit) screen session
            (with_screen screen
            (first_server (serving_with offer width height name.now text_limit))) []) }
        ensures follows { IfOk result (λ session. (screen : Grid Colour) → IsGrid screen
            → screen.width ≡ width → screen.height ≡ height → Follows screen session) }
        ensures hints { IfOk result (λ session. hints_in session ≡ []) }
    {
        let hints = HeapCircularBuffer::with_capacity(alloc, MAX_HINTS)?;
        let places = Places::new(alloc, width, height)?;
        Ok(Session {
            alloc,
            hello: ServerHello::new(offer, width, height, name),
            progress: Progress::Handshake,
            text_limit,
            format: Format::rgb888(),
            encodings: EncodingList::new(),
            known: places.known,
            area: places.area,
            marks: places.marks,
            hints,
            claim: None,
            block: Block::single(0),
        })
    }

    /// Takes what it is told of a drawing (`Drawing::notice`), before the screen changes or after.
    /// It marks where, remembers a copy, and keeps the hint: the last sixteen are kept until an
    /// update is composed. It follows the screen that the drawing leaves.
    pub fn notified(&mut self, notice: &Notice)
        requires held { Holds (notes_in self.old).known notice.now.area }
        ensures follows { (before after : Grid Colour) → Follows before self.old
            → IsTold notice.now before after → Follows after self.new }
        ensures kept { KeepsSession self.old self.new }
        ensures hints { hints_in self.new ≡ with_hint_of notice.now.hint (hints_in self.old) }
    {
        self.claim = self.claim_after(notice);
        self.marks.add(notice.area);
        if let Some(hint) = notice.hint {
            self.keep_hint(hint);
        }
    }

    // Marks the rectangle, which lies on the screen.
    fn mark(&mut self, rect: Rect)
        requires { Holds self.old.known rect }
        ensures { IsMarked rect self.old self.new }
    {
        self.marks.add(rect);
    }

    // Keeps a hint; the oldest of sixteen is dropped for it.
    fn keep_hint(&mut self, hint: Hint)
        ensures { IsHinted hint self.old self.new }
    {
        self.hints.push_back(hint);
    }

    /// The ProtocolVersion that is sent before all else, RFC 6143 section 7.1.1.
    pub fn greeting(&self) -> [u8; 12]
        ensures { (serving : Serving) (screen : Grid Colour) (s : ServerState) (prefix : List ℕ)
            → SessionStandsFor serving screen self.now s prefix
            → result ≡ version_text serving.hello.offer }
    {
        self.hello.greeting()
    }

    /// Lends what the viewer asked for since the latest update.
    pub fn asked(&self) -> &Area
        ensures value { result.now ≡ (notes_in self.now).area }
        ensures columns { result.now.asked.width ≡ (notes_in self.now).known.width }
        ensures rows { result.now.asked.height ≡ (notes_in self.now).known.height }
    {
        &self.area
    }

    /// Lends what is recorded of the viewer: at each place that `known` has as asked the pixel that
    /// the viewer has or will have, in the format of the session. Elsewhere it says nothing.
    pub fn recorded(&self) -> &Picture<u32>
        ensures value { ShowsKnown (notes_in self.now).known result.now }
        ensures columns { result.now.width ≡ (notes_in self.now).known.width }
        ensures rows { result.now.height ≡ (notes_in self.now).known.height }
    {
        self.known.pixels()
    }

    /// Lends the places where it is known what the viewer has, as asked ones.
    pub fn known(&self) -> &Area
        ensures value { TellsKnown (notes_in self.now).known result.now }
        ensures columns { result.now.asked.width ≡ (notes_in self.now).known.width }
        ensures rows { result.now.asked.height ≡ (notes_in self.now).known.height }
    {
        self.known.known()
    }

    /// Whether it is known what the viewer has at the first place, in the first row. Where that is
    /// not known nothing may be.
    pub fn knows_first(&self) -> bool
        ensures { OnTrue result (at_or (notes_in self.now).known 0 0 None ≢ None) }
    {
        let known = self.known.known();
        known.width() > 0 && known.height() > 0 && known.is_asked(0, 0)
    }

    /// The format that updates are sent in.
    pub fn format(&self) -> Format
        ensures { result ≡ (notes_in self.now).form }
    {
        self.format
    }
}

#[cfg(test)]
mod tests;
