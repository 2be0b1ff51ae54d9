//! Each drawing on a server once, with ample memory.

use super::scene::{Step, first_wrong_then_drop};
use crate::Server;
use rfb_hello::Version;
use rfb_picture::Rect;
use rfb_pixel::Colour;
use std::alloc::Global;

const BLACK: Colour = Colour { r: 0, g: 0, b: 0 };

const RED: Colour = Colour {
    r: 65_535,
    g: 0,
    b: 0,
};

const BLUE: Colour = Colour {
    r: 0,
    g: 0,
    b: 65_535,
};

const LEFT_HALF: Rect = Rect {
    x: 0,
    y: 0,
    w: 2,
    h: 2,
};

const RIGHT_HALF: Rect = Rect {
    x: 2,
    y: 0,
    w: 2,
    h: 2,
};

// The number of the first step that is wrong of a new server that offers that version, if one is;
// and how many steps there are, where memory is wanting for a server.
fn first_wrong_of_new(alloc: Global, offer: Version, steps: &[Step]) -> Option<usize> {
    let name = b"t".as_slice();
    match Server::new(alloc, 4, 2, name, offer, 4) {
        Ok(server) => first_wrong_then_drop(server, alloc, steps),
        Err(_) => Some(steps.len()),
    }
}

const NEW: &[Step<'static>] = &[
    Step::Greets(b"RFB 003.007\n"),
    Step::Shows(3, 1, Some(BLACK)),
    Step::Shows(4, 1, None),
    Step::Asks(3, 1, Some((false, false))),
    Step::HasRgb888(true),
];

#[test]
fn a_new_server_is_black_and_greets_by_its_offer(rt: HostRuntime) {
    assert_eq!(rt; first_wrong_of_new(rt.alloc(), Version::V37, NEW), None);
}

const DRAWN: &[Step<'static>] = &[
    Step::Fill(LEFT_HALF, RED),
    Step::Put(1, 1, &[BLUE, BLUE]),
    Step::Hints(1, RIGHT_HALF, 0, 0),
    Step::Shows(0, 0, Some(RED)),
    Step::Shows(2, 0, Some(BLACK)),
    Step::Shows(0, 1, Some(RED)),
    Step::Shows(1, 1, Some(BLUE)),
    Step::Shows(2, 1, Some(BLUE)),
    Step::Shows(3, 1, Some(BLACK)),
    Step::Copy(RIGHT_HALF, 0, 0),
    Step::Shows(2, 0, Some(RED)),
    Step::Shows(3, 0, Some(RED)),
    Step::Shows(2, 1, Some(RED)),
    Step::Shows(3, 1, Some(BLUE)),
];

#[test]
fn drawings_change_the_screen_and_hints_do_not(rt: HostRuntime) {
    assert_eq!(rt; first_wrong_of_new(rt.alloc(), Version::V38, DRAWN), None);
}
