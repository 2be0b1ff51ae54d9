//! Hubs: viewers of one screen beside each other, friendly and hostile.

ghost use Rattle.std.specs.Prelude.{◌≤◌};
ghost use Rattle.rfb_session.specs.Hub.{HasFewHubBytes};

mod eight;
mod hostile;
mod lots;
mod memory;
mod sole;

use super::Hub;
use crate::hub::event::{HubEvent, HubFault, HubTold, SlotEvent};
use arrayvec::ArrayVec;
use rfb_hello::Version;
use rfb_picture::Rect;
use rfb_pixel::{Colour, Format};
use rfb_server::ServerSetup as HubSetup;
use rfb_viewer::ViewerSetup as Setup;
use rfb_wire::Encoding;
use std::alloc::{AllocError, Global};

// More bytes than are ever in flight here.
const ALL: u32 = 4_294_967_295;

// Of the bytes (255, 128, 1).
const ORANGE: Colour = Colour {
    r: 65_535,
    g: 32_896,
    b: 257,
};

// Orange, as RFC 6143's rgb565 of 5, 6 and 5 bits shows it: 31 of 31, 32 of 63 and 0 of 31.
const ORANGE_OF_565: Colour = Colour {
    r: 65_535,
    g: 33_288,
    b: 0,
};

const BLACK: Colour = Colour { r: 0, g: 0, b: 0 };

// The longest name that a screen may have, so that some answers are long.
const NAME: [u8; 255] = [b'n'; 255];

// What a viewer is made with that takes these encodings.
fn setup(format: Format, encodings: ArrayVec<Encoding, 4>, shared: bool) -> Setup {
    Setup {
        format,
        encodings,
        limit: Version::V38,
        shared,
        max_places: 4096,
        text_limit: 16,
    }
}

fn raw() -> ArrayVec<Encoding, 4> {
    let mut encodings = ArrayVec::new();
    encodings.push(Encoding::Raw);
    encodings
}

fn hub_of(alloc: Global, width: u16) -> Result<Hub, AllocError>
    requires { width ≤ 4096 }
{
    let setup = HubSetup {
        text_limit: 16,
        ..HubSetup::usual(width, 1, &NAME)
    };
    Hub::of(alloc, setup)
}

// What an event is answered; `None` is want of memory.
fn step(hub: &mut Hub, event: HubEvent) -> Option<HubTold>
    requires few { HasFewHubBytes event }
{
    hub.step(&event).ok()
}

// How an event is refused, if it is.
fn refusal(hub: &mut Hub, event: HubEvent) -> Option<HubFault>
    requires few { HasFewHubBytes event }
{
    step(hub, event)?.refused
}

// Which slots an event empties.
fn ended(hub: &mut Hub, event: HubEvent) -> u8
    requires few { HasFewHubBytes event }
{
    match step(hub, event) {
        Some(told) => told.ended,
        None => 0,
    }
}

// Eight times all bytes reach the session of a slot, and then all its viewer. It gives the slots
// that were emptied.
fn settle(hub: &mut Hub, slot: u8) -> u8 {
    let mut emptied = 0;
    for _turn in 0..8 {
        emptied |= ended(hub, HubEvent::Of(slot, SlotEvent::ToServer(ALL)));
        emptied |= ended(hub, HubEvent::Of(slot, SlotEvent::ToViewer(ALL)));
    }
    emptied
}

// What a viewer shows at a place of its first row.
fn shown(hub: &Hub, slot: u8, x: u16) -> Option<Colour> {
    let picture = hub.picture(slot)?;
    if x < picture.width() && picture.height() > 0 {
        return Some(picture.at(x, 0));
    }
    None
}
