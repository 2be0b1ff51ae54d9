//! A link: a session and its viewer, with the bytes in flight between them.

ghost use Rattle.std.specs.Prelude.{◌≡◌, ◌++◌, ℕ, List, [], length, None, IfOk, OnOk, OnErr};
ghost use Rattle.std.specs.Prelude.{option_copied};
ghost use Rattle.rfb_server.specs.Model.{notes_in};
ghost use Rattle.rfb_session.specs.ends.Room.{HasRoom};

mod calling;
mod composing;
mod delivering;

use crate::channel::Channel;
use crate::latest::Latest;
pub(crate) use calling::copy_of;
pub(crate) use delivering::asks_sole;
use rfb_picture::Picture;
use rfb_pixel::Colour;
use rfb_server::{Notice, Session};
use rfb_viewer::Viewer;
use std::alloc::{AllocError, Global};

/// A session and its viewer in one process, with the bytes in flight between them each way. The
/// screen is someone else's: a composing borrows it, and the link is notified where it is drawn on.
/// Bytes arrive when a delivery says so, as many as it says. It also keeps what its latest update
/// was composed of. Several links go on side by side over one screen.
#[derive(Debug, Drop)]
pub struct Link {
    session: Session,
    viewer: Viewer,
    to_server: Channel,
    to_viewer: Channel,
    latest: Latest,
    ghost room: { HasRoom latest (notes_in session).known.width (notes_in session).known.height },
}

impl Link {
    ghost use Rattle.rfb_pixel.specs.declared.colour.Colour.{Colour};
    ghost use Rattle.rfb_picture.specs.Grid.{Grid, Holds};
    ghost use Rattle.rfb_server.specs.Model.{KeepsSession};
    ghost use Rattle.rfb_server.specs.KnownScreen.{Follows, IsTold};
    ghost use Rattle.rfb_server.specs.Hints.{hints_in};
    ghost use Rattle.rfb_server.specs.Strokes.{area_told, hint_told, with_hint_of};
    ghost use Rattle.rfb_session.specs.Link.{Ends, LinkState, first_link};
    ghost use Rattle.rfb_session.specs.Headline.{due_picture};
    ghost use Rattle.rfb_session.specs.LinkModel.{LinkStandsFor, AreNew, shown_on};
    ghost use Rattle.rfb_session.specs.LinkModel.{session_of_link, ChangesSession};
    ghost use Rattle.rfb_session.specs.LinkModel.{to_server_on, to_viewer_on};
    ghost use Rattle.rfb_session.specs.LinkModel.{IsBesideToServer, server_fault_of, number_of};

    /// A link of two fresh ends: nothing was fed to them. The session's greeting is in flight, RFC
    /// 6143 section 7.1.1. It asks for the memory of a picture and two areas of the session's size;
    /// where there is none it gives the error, and nothing is kept.
    pub fn new(alloc: Global, session: Session, viewer: Viewer) -> Result<Link, AllocError>
        ensures stands { IfOk result (λ link. (e : Ends) (screen : Grid Colour) →
            AreNew e session viewer screen → LinkStandsFor e screen link (first_link e)) }
        ensures session { IfOk result (λ link. session_of_link link ≡ session) }
    {
        let (latest, to_viewer) = opening(alloc, &session)?;
        Ok(Link {
            session,
            viewer,
            to_server: Channel::new(alloc),
            to_viewer,
            latest,
        })
    }

    /// Notifies the session of a drawing, as `Session::notified` does.
    pub fn notified(&mut self, notice: &Notice)
        requires held { Holds (notes_in (session_of_link self.old)).known (area_told notice.now) }
        ensures follows { (before after : Grid Colour)
            → Follows before (session_of_link self.old) → IsTold notice.now before after
            → Follows after (session_of_link self.new) }
        ensures changes { ChangesSession self.old self.new }
        ensures kept { KeepsSession (session_of_link self.old) (session_of_link self.new) }
        ensures hints { hints_in (session_of_link self.new)
            ≡ with_hint_of (hint_told notice.now) (hints_in (session_of_link self.old)) }
    {
        self.session.notified(notice);
    }

    /// These bytes are in flight to the session too, which its viewer did not send. Where there is
    /// no memory nothing changes.
    pub(crate) fn add_to_server(&mut self, bytes: &[u8]) -> Result<(), AllocError>
        ensures sent { OnOk result (to_server_on self.new ≡ to_server_on self.old ++ bytes.now) }
        ensures others { OnOk result (IsBesideToServer self.old self.new) }
        ensures kept { OnErr result (self.new ≡ self.old) }
    {
        self.to_server.send(bytes)
    }

    /// How many bytes are in flight to the session.
    pub fn in_flight_to_server(&self) -> usize
        ensures { result ≡ length (to_server_on self.now) }
    {
        self.to_server.len()
    }

    /// How many bytes are in flight to the viewer.
    pub fn in_flight_to_viewer(&self) -> usize
        ensures { result ≡ length (to_viewer_on self.now) }
    {
        self.to_viewer.len()
    }

    /// The number of the fault that the session has failed with, if it has.
    pub(crate) fn server_fault_number(&self) -> Option<u8>
        ensures { result ≡ number_of (server_fault_of self.now) }
    {
        match self.session.fault() {
            Some(fault) => Some(fault.number()),
            None => None,
        }
    }

    /// What the viewer shows, or `None` before there is a screen. Of a rectangle under way it shows
    /// the pieces that have arrived.
    pub fn picture(&self) -> Option<&Picture<Colour>>
        ensures shown { option_copied result ≡ shown_on self.now }
        // Where nothing is in flight to the viewer, it is what is due.
        ensures due { (e : Ends) (screen : Grid Colour) (l : LinkState) →
            LinkStandsFor e screen self.now l → l.to_viewer ≡ [] →
            option_copied result ≡ due_picture e l }
    {
        self.viewer.picture()
    }
}

ghost use Rattle.rfb_hello.specs.Version.{version_text};
ghost use Rattle.rfb_pixel.specs.declared.colour.Colour.{Colour};
ghost use Rattle.rfb_picture.specs.Grid.{Grid};
ghost use Rattle.rfb_server.specs.Server.{Serving, ServerState};
ghost use Rattle.rfb_server.specs.Model.{SessionStandsFor};
ghost use Rattle.rfb_session.specs.Latest.{composing_in};

// What a link begins with beside its ends: no composing yet, and the session's greeting in flight.
fn opening(alloc: Global, session: &Session) -> Result<(Latest, Channel), AllocError>
    ensures none { IfOk result (λ link. composing_in link.0 ≡ None) }
    ensures room { IfOk result (λ link. HasRoom link.0
        (notes_in session.now).known.width (notes_in session.now).known.height) }
    ensures greeting { IfOk result (λ link. (serving : Serving) (screen : Grid Colour)
        (s : ServerState) (prefix : List ℕ) → SessionStandsFor serving screen session.now s prefix
        → link.1 ≡ version_text serving.hello.offer) }
{
    let mut to_viewer = Channel::new(alloc);
    to_viewer.send(&session.greeting())?;
    let asked = session.asked();
    let latest = Latest::new(alloc, asked.width(), asked.height())?;
    Ok((latest, to_viewer))
}
