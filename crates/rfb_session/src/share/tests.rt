//! Shares: viewers that behave beside others that do not. The bytes are laid out as RFC 6143 has
//! them.

ghost use Rattle.std.specs.Prelude.{◌<◌};

mod beside;
mod console;
mod cuts;
mod mirroring;
mod seats;
mod twins;
mod work;

use super::Share;
use crate::seat::Seat;
use crate::share::event::Composing;
use rfb_picture::Rect;
use rfb_pixel::Colour;
use rfb_server::{Drawing, ServerSetup as ShareSetup};
use std::alloc::{AllocError, Global};

// Sections 7.1.1 to 7.1.3: the version, one security type, which is None, and success.
const GREETING: &[u8] = b"RFB 003.008\n";

const TYPES: &[u8] = b"\x01\x01";

const SUCCESS: &[u8] = b"\0\0\0\0";

// Section 7.3.2, ServerInit: two columns and one row; 32 bits, depth 24, little-endian, true
// colour, maxima of 255, shifts 16, 8 and 0; and the name.
const SERVER_INIT: &[u8] = b"\0\x02\0\x01\x20\x18\0\x01\0\xFF\0\xFF\0\xFF\x10\x08\0\0\0\0\
    \0\0\0\x03rfb";

// What a client sends up to its ClientInit, section 7.3.1, which follows.
const CLIENT_VERSION: &[u8] = b"RFB 003.008\n";

const CHOICE: &[u8] = b"\x01";

const SHARED: &[u8] = b"\x01";

const ALONE: &[u8] = b"\0";

// Section 7.5.3: both places are asked for, whole, and incrementally.
const ASKS_ALL: &[u8] = b"\x03\0\0\0\0\0\0\x02\0\x01";

const ASKS_CHANGES: &[u8] = b"\x03\x01\0\0\0\0\0\x02\0\x01";

// Sections 7.6.1 and 7.7.1: one rectangle of two places, in Raw; blue, green, red and padding each.
const BLACK_UPDATE: &[u8] = b"\0\0\0\x01\0\0\0\0\0\x02\0\x01\0\0\0\0\0\0\0\0\0\0\0\0";

const RED_UPDATE: &[u8] = b"\0\0\0\x01\0\0\0\0\0\x02\0\x01\0\0\0\0\0\0\xFF\0\0\0\xFF\0";

const BLUE_UPDATE: &[u8] = b"\0\0\0\x01\0\0\0\0\0\x02\0\x01\0\0\0\0\xFF\0\0\0\xFF\0\0\0";

const RED: Colour = Colour {
    r: 65_535,
    g: 0,
    b: 0,
};

const BLUE: Colour = Colour {
    r: 0,
    g: 0,
    b: 65_535,
};

fn share_of_two_places(alloc: Global) -> Result<Share, AllocError> {
    Share::of(alloc, ShareSetup::usual(2, 1, b"rfb"))
}

// Both places get the colour.
fn paint(share: &mut Share, colour: Colour) -> bool {
    let both = Rect {
        x: 0,
        y: 0,
        w: 2,
        h: 1,
    };
    share.draw(&Drawing::Fill(both, colour)).is_ok()
}

// The seat of that number.
fn at(number: u8) -> Seat
    requires { number < 8 }
{
    Seat::at(number as usize)
}

// A viewer joins: its seat, if one is free.
fn seated(share: &mut Share) -> Option<Seat> {
    match share.join() {
        Ok(seat) => seat,
        Err(_) => None,
    }
}

// All of these bytes are received at a seat.
fn send(share: &mut Share, seat: Seat, bytes: &[u8]) -> bool {
    let mut rest = bytes;
    while !rest.is_empty() {
        match share.received(seat, rest) {
            Ok(heard) => rest = &rest[heard.used..],
            Err(_) => return false,
        }
    }
    true
}

// What waits at a seat is exactly this, and it is written.
fn takes(share: &mut Share, seat: Seat, bytes: &[u8]) -> bool {
    let same = share.to_write(seat) == bytes;
    share.written(seat, bytes.len());
    same && share.to_write(seat).is_empty()
}

// A viewer joins, and its handshake is done.
fn greeted(share: &mut Share, flag: &[u8]) -> bool {
    let Some(seat) = seated(share) else {
        return false;
    };
    takes(share, seat, GREETING)
        && send(share, seat, CLIENT_VERSION)
        && takes(share, seat, TYPES)
        && send(share, seat, CHOICE)
        && takes(share, seat, SUCCESS)
        && send(share, seat, flag)
        && takes(share, seat, SERVER_INIT)
}

// Eight viewers have joined.
fn all_greeted(share: &mut Share) -> bool {
    let mut all = true;
    for _seat in 0..8 {
        all = greeted(share, SHARED) && all;
    }
    all
}

// Whether a composing is answered so.
fn composes(share: &mut Share, seat: Seat, told: Composing) -> bool {
    share.compose(seat) == Ok(told)
}
