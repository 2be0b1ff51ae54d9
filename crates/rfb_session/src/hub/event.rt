//! What can happen to a hub, and what a step of it answers.

ghost use Rattle.std.specs.Prelude.{◌≡◌, Some};
ghost use Rattle.rfb_session.specs.HubAnswers.{hub_refusal};

use crate::told::Refused;
use arrayvec::ArrayVec;
use rfb_picture::Rect;
use rfb_pixel::{Colour, Format};
use rfb_viewer::ViewerSetup as Setup;
use rfb_wire::Encoding;
use thiserror::Error;

/// One thing that happens to a hub. Slots are numbered from 0 to 7.
#[derive(Debug, Drop)]
pub enum HubEvent {
    /// A rectangle of the screen gets one colour.
    Fill(Rect, Colour),
    /// A part of a row of the screen gets these colours, from the column and the row on.
    Put(u16, u16, Vec<Colour>),
    /// A rectangle of the screen gets what the one of its size at a column and a row had.
    Copy(Rect, u16, u16),
    /// Every session gets the hint that a rectangle looks as the one of its size there did.
    Hint(Rect, u16, u16),
    /// A viewer takes an empty slot.
    Join(u8, Setup),
    /// The viewer of a slot goes, and the slot is empty.
    Leave(u8),
    /// An event of one slot alone.
    Of(u8, SlotEvent),
    /// Bytes that no viewer sent are in flight to the session of a slot, at most 1,048,576.
    Foreign(u8, Vec<u8>),
}

/// One thing that happens in a slot: a call of its viewer, a composing, or a delivery.
#[derive(Debug, Drop)]
pub enum SlotEvent {
    /// The viewer asks for an area, incrementally or whole, RFC 6143 section 7.5.3.
    Request(bool, Rect),
    /// The viewer asks for another format, section 7.5.1.
    SetFormat(Format),
    /// The viewer lists the encodings that it takes, section 7.5.2.
    SetEncodings(ArrayVec<Encoding, 4>),
    /// A key goes down or up at the viewer's, section 7.5.4.
    Key(bool, u32),
    /// The pointer moves at the viewer's: its buttons, its column and its row, section 7.5.5.
    Pointer(u8, u16, u16),
    /// A text is cut at the viewer's, section 7.5.6. It has at most 1,048,576 bytes.
    CutText(Vec<u8>),
    /// The session composes an update, if one is due.
    Compose,
    /// This number of bytes reaches the session, or all that are in flight to it, if they are
    /// fewer.
    ToServer(u32),
    /// This number of bytes reaches the viewer, or all that are in flight to it, if they are fewer.
    ToViewer(u32),
}

/// Why an event is refused. Nothing was changed then.
#[derive(Clone, Copy, Debug, PartialEq, Eq, Error)]
pub enum HubFault {
    /// A drawing or a hint leaves the screen.
    #[error("24 Outside")]
    Outside,
    /// The viewer's handshake is not done.
    #[error("25 NotReady")]
    NotReady,
    /// A request is outstanding; or, for a format, the viewer is inside an update.
    #[error("26 Busy")]
    Busy,
    /// The area that is asked for has no place, or leaves the screen.
    #[error("27 AreaOutside")]
    AreaOutside,
    /// A viewer joins where there is one.
    #[error("31 SlotTaken")]
    SlotTaken,
    /// The slot is above 7; or there is no viewer in it.
    #[error("32 NoSuchSlot")]
    NoSuchSlot,
}

impl From<Refused> for HubFault {
    fn from(refused: Refused) -> HubFault
        ensures { Some result ≡ hub_refusal (Some refused) }
    {
        match refused {
            Refused::Outside => HubFault::Outside,
            Refused::NotReady => HubFault::NotReady,
            Refused::Busy => HubFault::Busy,
            Refused::AreaOutside => HubFault::AreaOutside,
        }
    }
}

/// What became of an event.
#[derive(Clone, Copy, Debug, PartialEq, Eq)]
pub struct HubTold {
    /// How many bytes a delivery moved, 0 at any other event.
    pub moved: u32,
    /// The refusal of an event, if it was refused.
    pub refused: Option<HubFault>,
    /// Whether an update was composed.
    pub composed: bool,
    /// Bit s is set for each slot s that was emptied: another's client asked for the screen alone.
    pub ended: u8,
}
