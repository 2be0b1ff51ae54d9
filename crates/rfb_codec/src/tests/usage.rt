//! The decoder in a few lines: a rectangle of an update, painted from its bytes.

use crate::Painter;
use rfb_picture::{Picture, Rect};
use rfb_pixel::{Colour, Format};
use rfb_wire::Encoding;
use std::test::Fail;

const BLACK: Colour = Colour { r: 0, g: 0, b: 0 };

const RED: Colour = Colour {
    r: 65_535,
    g: 0,
    b: 0,
};

// Three places by one.
const WHOLE: Rect = Rect {
    x: 0,
    y: 0,
    w: 3,
    h: 1,
};

#[test]
fn a_rectangle_is_painted_from_its_bytes(rt: HostRuntime) -> Result<(), Fail> {
    let mut picture = Picture::new(rt.alloc(), 3, 1, BLACK)?;
    let mut painter = Painter::new(WHOLE, Encoding::Rre, Format::bgr233());
    let data = [0, 0, 0, 1, 0x00, 0x07, 0, 1, 0, 0, 0, 2, 0, 1];
    let painted = painter.feed(&data, &mut picture)?;
    assert_eq!(rt; (painted.used, painted.done), (14, true));
    assert_eq!(rt; picture.at(0, 0), BLACK);
    assert_eq!(rt; picture.at(2, 0), RED);
    Ok(())
}
