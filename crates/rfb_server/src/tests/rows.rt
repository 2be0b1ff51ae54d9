//! What lies on a screen of three by two places, and what does not have a colour for each of its
//! places.

use super::places::{BLACK, GREEN, ORANGE, VIOLET};
use crate::Drawing;
use rfb_picture::{Picture, Rect};
use rfb_pixel::{Colour, Format};
use std::alloc::AllocError;

const ROW: &[Colour] = &[GREEN, ORANGE, VIOLET, BLACK];

const BYTES: &[u8] = &[1, 2, 3, 4, 5, 6, 7, 8, 9, 10, 11, 12, 13];

// The right two places of the lower row.
const PAIR: Rect = Rect {
    x: 1,
    y: 1,
    w: 2,
    h: 1,
};

// The same, and one column more.
const BEYOND: Rect = Rect {
    x: 1,
    y: 1,
    w: 3,
    h: 1,
};

fn lies(screen: &Picture<Colour>, drawing: &Drawing<'_>) -> bool {
    drawing.notice(screen).is_ok()
}

#[test]
fn rows_lie_on_a_screen_up_to_its_edges(rt: HostRuntime) -> Result<(), AllocError> {
    let screen = Picture::new(rt.alloc(), 3, 2, BLACK)?;
    assert!(rt; lies(&screen, &Drawing::Put(1, 1, &ROW[..2])));
    assert!(rt; lies(&screen, &Drawing::Put(3, 1, &ROW[..0])));
    assert!(rt; !lies(&screen, &Drawing::Put(2, 1, &ROW[..2])));
    assert!(rt; !lies(&screen, &Drawing::Put(0, 0, ROW)));
    assert!(rt; !lies(&screen, &Drawing::Put(4, 0, &ROW[..0])));
    assert!(rt; !lies(&screen, &Drawing::Put(0, 2, &ROW[..1])));
    Ok(())
}

#[test]
fn a_rectangle_takes_its_own_colours_alone(rt: HostRuntime) -> Result<(), AllocError> {
    let screen = Picture::new(rt.alloc(), 3, 2, BLACK)?;
    assert!(rt; lies(&screen, &Drawing::Rows(PAIR, &ROW[..2])));
    assert!(rt; !lies(&screen, &Drawing::Rows(PAIR, &ROW[..3])));
    assert!(rt; !lies(&screen, &Drawing::Rows(BEYOND, &ROW[..3])));
    assert!(rt;
        lies(
            &screen,
            &Drawing::Pixels(PAIR, Format::rgb565(), &BYTES[..4])
        )
    );
    assert!(rt;
        !lies(
            &screen,
            &Drawing::Pixels(PAIR, Format::rgb888(), &BYTES[..4])
        )
    );
    assert!(rt;
        !lies(
            &screen,
            &Drawing::Pixels(BEYOND, Format::bgr233(), &BYTES[..3])
        )
    );
    assert!(rt; lies(&screen, &Drawing::Bytes(PAIR, &BYTES[..6])));
    assert!(rt; !lies(&screen, &Drawing::Bytes(PAIR, &BYTES[..5])));
    assert!(rt; !lies(&screen, &Drawing::Bytes(BEYOND, &BYTES[..9])));
    Ok(())
}
