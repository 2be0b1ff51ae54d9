//! A share: one screen that its owner draws on, and seats for eight viewers of it. It has no
//! sockets: its owner brings it what the viewers send, and writes to them what waits for them.

ghost use Rattle.std.specs.Option.{ForSome};
ghost use Rattle.rfb_session.specs.ShareKin.{KnowAlike};
ghost use Rattle.std.specs.Prelude.{◌≡◌, ◌≤◌, length, All, IfOk, Some};
ghost use Rattle.rfb_server.specs.KnownScreen.{Follows};
ghost use Rattle.rfb_session.specs.ShareScreen.{shown_on};
ghost use Rattle.rfb_session.specs.ShareSeats.{session_at};
ghost use Rattle.rfb_session.specs.ShareWork.{OthersRest};

mod asking;
mod drawing;
pub(crate) mod event;
mod joining;
pub(crate) mod kin;
mod meeting;
pub(crate) mod mirror;
mod mirroring;
mod receiving;
pub(crate) mod screen;
pub(crate) mod seat;
mod sending;
#[cfg(test)]
mod tests;
mod twins;
pub(crate) mod waiting;

use crate::hub::{BLACK, NAME_LIMIT, name_of};
use crate::seat::Seat;
use crate::seats::Seats;
use crate::share::kin::Kin;
use crate::share::screen::Screen;
use crate::share::seat::ShareSeat;
use crate::slots::{SLOTS, seat_of};
use arrayvec::ArrayVec;
use rfb_hello::Version;
use rfb_picture::Picture;
use rfb_pixel::Colour;
use rfb_server::{ServerFault, ServerSetup as ShareSetup};
use std::alloc::{AllocError, Global};

/// One screen, and eight seats. A viewer has a session of its own at its seat, and what is to be
/// written to it waits there, in order. An update is composed only where nothing waits, so a seat
/// holds at most 297 bytes of answers, or one update. Nothing that one viewer does, or leaves
/// undone, changes what another has, but for asking for the screen alone.
#[derive(Debug, Drop)]
pub struct Share {
    alloc: Global,
    screen: Screen,
    name: ArrayVec<u8, NAME_LIMIT>,
    offer: Version,
    text_limit: u32,
    seats: [Option<ShareSeat>; SLOTS],
    // Where something happened since a composing found nothing to do. Elsewhere nothing waits.
    stirred: Seats,
    // Which seats know the same.
    kin: Kin,
    ghost eight: { length seats ≡ 8 },
    ghost columns: { (shown_on screen).width ≤ 4096 },
    ghost rows: { (shown_on screen).height ≤ 4096 },
    ghost follow: { All (λ slot. ForSome slot (λ seat.
        Follows (shown_on screen) (session_at seat))) seats },
    ghost rest: { OthersRest (shown_on screen) seats stirred },
    ghost alike: { KnowAlike kin seats },
}

impl Share {
    ghost use Rattle.rfb_picture.specs.Grid.{uniform};
    ghost use Rattle.rfb_server.specs.Server.{black};
    ghost use Rattle.rfb_server.specs.Model.{serving_with};
    ghost use Rattle.rfb_session.specs.Share.{IsEmptyShare, serving_in, screen_of};
    ghost use Rattle.rfb_session.specs.Share.{canvas_of, fault_in};

    /// A share with a black screen and eight empty seats. Each session offers versions up to
    /// `setup.offer`, names the screen, and keeps at most `setup.text_limit` bytes of each text
    /// that its viewer cuts. Where there is no memory it gives the error, and nothing is kept.
    pub fn of(alloc: Global, setup: ShareSetup) -> Result<Share, AllocError>
        requires columns { setup.width ≤ 4096 }
        requires rows { setup.height ≤ 4096 }
        requires name { length setup.name.now ≤ 255 }
        ensures empty { IfOk result IsEmptyShare }
        ensures screen { let setup = setup.entry in
            IfOk result (λ share. screen_of share ≡ uniform setup.width setup.height black) }
        ensures drawn { IfOk result (λ share. canvas_of share ≡ Some (screen_of share)) }
        ensures made { let setup = setup.entry in IfOk result (λ share. serving_in share
            ≡ serving_with setup.offer setup.width setup.height setup.name.now setup.text_limit) }
    {
        let screen = Picture::new(alloc, setup.width, setup.height, BLACK)?;
        Ok(Share {
            alloc,
            screen: Screen::Drawn(screen),
            name: name_of(setup.name),
            offer: setup.offer,
            text_limit: setup.text_limit,
            seats: [None, None, None, None, None, None, None, None],
            stirred: Seats::none(),
            kin: Kin::none(),
        })
    }

    /// Lends the screen.
    pub fn picture(&self) -> &Picture<Colour>
        ensures { result.now ≡ screen_of self.now }
    {
        self.screen.picture()
    }

    /// The fault that the session of a seat has failed with, if it has. Its viewer is to be
    /// disconnected: what it sends is not taken any more, and no update is composed for it.
    pub fn fault(&self, seat: Seat) -> Option<ServerFault>
        ensures { result ≡ fault_in self.now seat }
    {
        match seat_of(&self.seats, seat.number()) {
            Some(seat) => seat.fault(),
            None => None,
        }
    }
}
