//! A viewer's seat at a hub: its session, itself, and what is between them.

ghost use Rattle.std.specs.Prelude.{◌≡◌, ◌≢◌, ◌≤◌, length, true, false, None, IfOk, OnOk, IsOk};
ghost use Rattle.std.specs.Prelude.{IsErr, OnErr};

use crate::hub::event::SlotEvent;
use crate::link::Link;
use crate::slots::Follower;
use crate::told::{Delivery, NoMemory, Told};
use rfb_picture::Picture;
use rfb_pixel::Colour;
use rfb_server::Notice;
use rfb_viewer::{Call, ViewerSetup as Setup};

/// A viewer that joined, with its link to a session of its own.
#[derive(Debug, Drop)]
pub struct HubSeat {
    setup: Setup,
    link: Link,
    // Whether bytes that the viewer did not send were put in flight to the session.
    foreign: bool,
}

impl HubSeat {
    ghost use Rattle.rfb_server.specs.KnownScreen.{Follows};
    ghost use Rattle.rfb_session.specs.LinkModel.{session_of_link};
    ghost use Rattle.rfb_session.specs.HubSeats.{SeatDoes, SeatSpares, HasFewSlotBytes};
    ghost use Rattle.rfb_session.specs.HubSeats.{IsSeated, TakesForeign};

    /// A viewer of this setup takes a seat, with its link.
    pub(crate) fn new(setup: Setup, link: Link) -> HubSeat
        ensures { IsSeated setup link result }
    {
        HubSeat {
            setup,
            link,
            foreign: false,
        }
    }

    /// Lends what is between its session and its viewer.
    pub(crate) fn link(&self) -> &Link
        ensures { result.now ≡ self.now.link }
    {
        &self.link
    }

    /// Bytes that the viewer did not send are in flight to the session. Memory can be wanting.
    pub(crate) fn take_foreign(&mut self, bytes: &[u8]) -> Result<(), NoMemory>
        requires few { length bytes.now ≤ 1048576 }
        ensures taken { OnOk result (TakesForeign bytes.now self.old self.new) }
        ensures kept { OnErr result (self.new ≡ self.old) }
    {
        self.link.add_to_server(bytes)?;
        self.foreign = true;
        Ok(())
    }

    /// Makes an event of the slot happen, over the screen. Returns beside whether the client asked
    /// for the screen alone.
    pub(crate) fn happen(
        &mut self,
        event: &SlotEvent,
        screen: &Picture<Colour>,
    ) -> Result<Delivery, NoMemory>
        requires follows { Follows screen.now (session_of_link self.old.link) }
        requires few { HasFewSlotBytes event.now }
        ensures does { IfOk result (λ d. SeatDoes screen.now self.old event.now d self.new) }
        ensures follows { Follows screen.now (session_of_link self.new.link) }
        ensures spared { SeatSpares screen.now self.old event.now → IsOk result }
    {
        match event {
            SlotEvent::Request(incremental, rect) => Ok(alone(
                self.link.call(&Call::Request {
                    incremental: *incremental,
                    rect: *rect,
                })?,
            )),
            SlotEvent::SetFormat(format) => Ok(alone(self.link.call(&Call::SetFormat(*format))?)),
            SlotEvent::SetEncodings(encodings) => {
                Ok(alone(self.link.call(&Call::SetEncodings(encodings))?))
            }
            SlotEvent::Key(down, key) => Ok(alone(
                self.link.call(&Call::Key {
                    down: *down,
                    key: *key,
                })?,
            )),
            SlotEvent::Pointer(buttons, x, y) => Ok(alone(
                self.link.call(&Call::Pointer {
                    buttons: *buttons,
                    x: *x,
                    y: *y,
                })?,
            )),
            SlotEvent::CutText(text) => Ok(alone(self.link.call(&Call::CutText(text))?)),
            SlotEvent::Compose => Ok(alone(self.link.compose(screen)?)),
            SlotEvent::ToServer(count) => self.link.deliver_to_session(*count),
            SlotEvent::ToViewer(count) => Ok(alone(self.link.move_to_viewer(*count)?)),
        }
    }
}

impl Follower for HubSeat {
    ghost use Rattle.rfb_picture.specs.Grid.{Holds};
    ghost use Rattle.rfb_server.specs.Model.{notes_in};
    ghost use Rattle.rfb_session.specs.LinkModel.{session_of_link};
    ghost use Rattle.rfb_session.specs.HubSeats.{IsNotifiedOn};

    ghost Notifiable = { λ rect seat. Holds (notes_in (session_of_link seat.link)).known rect };

    ghost Notified = { λ notice a b. IsNotifiedOn notice a b };

    fn notified(&mut self, notice: &Notice) {
        self.link.notified(notice);
    }
}

// What became of an event that asks for no screen.
fn alone(told: Told) -> Delivery
    ensures told { result.told ≡ told }
    ensures sole { result.sole ≡ false }
{
    Delivery { told, sole: false }
}
