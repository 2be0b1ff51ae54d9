//! A world: a screen, and a session and its viewer over it, with the bytes in flight between them.

ghost use Rattle.std.specs.Prelude.{◌≡◌, ◌≢◌, ℕ, List, [], All, None, option_copied};
ghost use Rattle.std.specs.Prelude.{true, false, IfOk, OnOk, OnErr, IsOk, IsErr};
ghost use Rattle.rfb_server.specs.KnownScreen.{Follows};
ghost use Rattle.rfb_session.specs.LinkModel.{session_of_link};

mod drawing;
mod making;

use crate::event::Event;
use crate::link::Link;
use crate::told::{NoMemory, Told};
use rfb_picture::Picture;
use rfb_pixel::Colour;
use rfb_server::{Drawing, Server};
use rfb_viewer::{Call, Viewer};
use std::alloc::{AllocError, Global};

/// A screen, and a link over it: a server and its viewer in one process, with the bytes in flight
/// between them each way. What happens to them comes as events; bytes arrive when a delivery says
/// so, as many as it says. The link also keeps what the latest update was composed of.
#[derive(Debug, Drop)]
pub struct World {
    screen: Picture<Colour>,
    link: Link,
    // After want of memory, for good.
    closed: bool,
    ghost follows: { Follows screen (session_of_link link) },
}

impl World {
    ghost use Rattle.rfb_pixel.specs.declared.colour.Colour.{Colour};
    ghost use Rattle.rfb_picture.specs.Grid.{Grid};
    ghost use Rattle.rfb_session.specs.Link.{Ends};
    ghost use Rattle.rfb_session.specs.World.{StandsFor, AreFresh, first_network};
    ghost use Rattle.rfb_session.specs.World.{is_closed, shown_by};
    ghost use Rattle.rfb_session.specs.Network.{Network};
    ghost use Rattle.rfb_session.specs.Told.{TellsAlone};
    ghost use Rattle.rfb_session.specs.World.{Does, Acts, LosesAs, HintsAs};
    ghost use Rattle.rfb_session.specs.World.{HasFewBytes, IsDrawing};
    ghost use Rattle.rfb_session.specs.ends.WorldStep.{Happens, TakesNoMemory};
    ghost use Rattle.rfb_session.specs.World.{IsRefused, IsLost, ComposesNothing};
    ghost use Rattle.rfb_session.specs.World.{Reaches, NeitherFailed};
    ghost use Rattle.rfb_session.specs.Headline.{IsHeadline, ShowsKnown, ShowsLatest, due_picture};

    /// A world of two fresh ends: nothing was fed to them, and the server's screen may be drawn on.
    /// The server's greeting is in flight, RFC 6143 section 7.1.1. It asks for the memory of a
    /// picture and two areas of the screen's size; where there is none it gives the error, and
    /// nothing is kept.
    pub fn new(alloc: Global, server: Server, viewer: Viewer) -> Result<World, AllocError>
        ensures { IfOk result (λ world. (e : Ends) (screen : Grid Colour) →
            AreFresh e server viewer screen → StandsFor e world (first_network e screen)) }
    {
        let (screen, session) = server.into_parts();
        let link = Link::new(alloc, session, viewer)?;
        Ok(World {
            screen,
            link,
            closed: false,
        })
    }

    /// Makes an event happen. Returns how many bytes it moved, its refusal, and whether an update
    /// was composed. A text has at most 1,048,576 bytes. A refused event changes nothing. Bytes
    /// that reach an end that has failed have no effect. Memory can be wanting for an update, for
    /// messages and answers, for a text that an end keeps, and for the viewer's screen. The world
    /// is closed then, and each later step gives the same error.
    pub fn step(&mut self, event: &Event) -> Result<Told, NoMemory>
        requires few { HasFewBytes event.now }

        // Whatever the ends are, what becomes of them and of the bytes between them.
        ensures acts { IfOk result (λ told. Acts self.old event.now told self.new) }
        // Whatever network the world stood for, the event is a step of it, and the answer says so.
        ensures does { IfOk result (λ told. Does self.old event.now told self.new) }
        ensures tells { IfOk result (λ told. TellsAlone event.now told) }
        ensures kept { IfOk result (λ told. told.refused ≢ None → self.new ≡ self.old) }
        ensures lost { IfOk result (λ told. LosesAs self.old event.now told self.new) }
        ensures hints { IfOk result (λ told. HintsAs self.old event.now told self.new) }

        // A drawing, a hint, what is refused, bytes that are lost and a composing where no update
        // is due take no memory.
        ensures free { IsDrawing event.now → is_closed self.old ≡ false → IsOk result }
        ensures spared { IsRefused self.old event.now → IsOk result }
        ensures dropped { IsLost self.old event.now → is_closed self.old ≡ false → IsOk result }
        ensures idle { ComposesNothing self.old event.now → IsOk result }
        // Want of memory closes it for good.
        ensures closes { OnErr result (is_closed self.new ≡ true) }
        ensures closed { is_closed self.old ≡ true → IsErr result × (self.new ≡ self.old) }
    {
        if self.closed {
            return Err(NoMemory);
        }
        match self.happen(event) {
            Ok(told) => Ok(told),
            Err(error) => {
                self.closed = true;
                Err(error)
            }
        }
    }

    /// All events, in order; it stops where memory is wanting. Whatever network the world stood
    /// for, reached from a fresh one, it then stands for one that the events lead to, and each
    /// clause holds of that one.
    pub fn run(&mut self, events: &[Event]) -> Result<(), NoMemory>
        requires few { All HasFewBytes events.now }

        // The events are its steps.
        ensures steps { OnOk result (Reaches self.old events.now self.new (λ e n. Unit {0})) }
        // Neither end has refused a byte of the other's.
        ensures neither_failed { OnOk result (Reaches self.old events.now self.new (λ e n.
            NeitherFailed self.new)) }
        // Wherever it is known what the viewer has, it shows that, once all in flight has arrived.
        ensures known { OnOk result (Reaches self.old events.now self.new (λ e n.
            ShowsKnown n.link.session.form n.link.session.known (due_picture e n.link))) }
        // Over the area of the latest update it then shows the screen as it was composed of.
        ensures latest { OnOk result (Reaches self.old events.now self.new (λ e n.
            ShowsLatest n.link.latest (due_picture e n.link))) }
        // All of these of one network.
        ensures headline { OnOk result (Reaches self.old events.now self.new (λ e n.
            NeitherFailed self.new × IsHeadline e n.link)) }
        ensures closes { OnErr result (is_closed self.new ≡ true) }
    {
        for event in events {
            self.step(event)?;
        }
        Ok(())
    }

    /// What the viewer shows, or `None` before there is a screen. Of a rectangle under way it shows
    /// the pieces that have arrived.
    pub fn picture(&self) -> Option<&Picture<Colour>>
        ensures shown { option_copied result ≡ shown_by self.now }
        // Where nothing is in flight to the viewer, it is what is due.
        ensures due { (e : Ends) (n : Network) → StandsFor e self.now n →
            n.link.to_viewer ≡ [] → option_copied result ≡ due_picture e n.link }
    {
        self.link.picture()
    }

    // Makes an event happen.
    fn happen(&mut self, event: &Event) -> Result<Told, NoMemory>
        requires few { HasFewBytes event.now }
        ensures happens { IfOk result (λ told. Happens self.old event.now told self.new) }
        ensures kept { IfOk result (λ told. told.refused ≢ None → self.new ≡ self.old) }
        ensures sure { TakesNoMemory self.old event.now → IsOk result }
    {
        match event {
            Event::Fill(rect, colour) => Ok(self.drawn(&Drawing::Fill(*rect, *colour))),
            Event::Put(x, y, row) => Ok(self.drawn(&Drawing::Put(*x, *y, row))),
            Event::Copy(rect, sx, sy) => Ok(self.drawn(&Drawing::Copy(*rect, *sx, *sy))),
            Event::Hint(rect, sx, sy) => Ok(self.drawn(&Drawing::Hint(*rect, *sx, *sy))),
            Event::Request(incremental, rect) => self.link.call(&Call::Request {
                incremental: *incremental,
                rect: *rect,
            }),
            Event::SetFormat(format) => self.link.call(&Call::SetFormat(*format)),
            Event::SetEncodings(encodings) => self.link.call(&Call::SetEncodings(encodings)),
            Event::Key(down, key) => self.link.call(&Call::Key {
                down: *down,
                key: *key,
            }),
            Event::Pointer(buttons, x, y) => self.link.call(&Call::Pointer {
                buttons: *buttons,
                x: *x,
                y: *y,
            }),
            Event::CutText(text) => self.link.call(&Call::CutText(text)),
            Event::Compose => self.link.compose(&self.screen),
            Event::ToServer(count) => self.link.move_to_server(*count),
            Event::ToViewer(count) => self.link.move_to_viewer(*count),
        }
    }
}

#[cfg(test)]
pub(crate) mod tests;
