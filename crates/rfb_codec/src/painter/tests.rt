//! Data byte for byte, and what they leave in a picture. The values were worked out by hand from
//! the tables of RFC 6143, section 7.7, and the formats of section 7.4.

ghost use Rattle.std.specs.Prelude.{◌≡◌, ◌≢◌};
ghost use Rattle.rfb_picture.specs.Grid.{Holds};

use super::*;
use std::alloc::Global;
use std::process::Abort;
use std::test::Fail;

mod cuts;
mod flaws;
mod hextile;
mod hostile;
mod many;
mod masks;
mod pixels;
mod placing;

const BLACK: Colour = Colour { r: 0, g: 0, b: 0 };

const RED: Colour = Colour {
    r: 65_535,
    g: 0,
    b: 0,
};

const GREEN: Colour = Colour {
    r: 0,
    g: 65_535,
    b: 0,
};

const BLUE: Colour = Colour {
    r: 0,
    g: 0,
    b: 65_535,
};

// CopyRect to the last three of four places, from the first on.
const COPY: [u8; 4] = [0, 0, 0, 0];

// RRE at bgr233 of three places by one: two subrectangles over black, the second over half of the
// first.
const LAST_WINS: [u8; 23] = [
    0, 0, 0, 2, 0, // U32 number-of-subrectangles, background-pixel-value
    0x07, 0, 0, 0, 0, 0, 2, 0, 1, // red at x-position 0, y-position 0, width 2, height 1
    0x38, 0, 1, 0, 0, 0, 2, 0, 1, // green at x-position 1
];

// The data are all there, and have `used` bytes.
const fn done(used: usize) -> Result<Painted, PaintFault> {
    Ok(Painted { used, done: true })
}

// They are not, and `used` bytes came.
const fn more(used: usize) -> Result<Painted, PaintFault> {
    Ok(Painted { used, done: false })
}

// Whether the last places of a picture have these colours, row by row.
fn has_last(picture: &Picture<Colour>, shown: &[Colour]) -> bool {
    let width = usize::from(picture.width());
    let places = usize::from(picture.height()) * width;
    for y in 0..picture.height() {
        for x in 0..picture.width() {
            let left = places.saturating_sub(usize::from(y) * width + usize::from(x));
            let at = shown.len().wrapping_sub(left);
            if left <= shown.len() && shown.get(at) != Some(&picture.at(x, y)) {
                return false;
            }
        }
    }
    true
}

// Whether all of them do.
fn has(picture: &Picture<Colour>, shown: &[Colour]) -> bool {
    let places = usize::from(picture.height()) * usize::from(picture.width());
    shown.len() == places && has_last(picture, shown)
}

// A rectangle of a picture that was all of one colour.
#[derive(Clone, Copy)]
struct Ground {
    width: u16,
    height: u16,
    colour: Colour,
    rect: Rect,
}

// Slices that data come in: the first one's size, and that of the others.
#[derive(Clone, Copy)]
struct Slices {
    first: usize,
    others: usize,
}

// What a painter answers, all in all, to data that come in slices.
fn fed_in(
    painter: &mut Painter,
    picture: &mut Picture<Colour>,
    data: &[u8],
    slices: Slices,
) -> Result<Painted, PaintFault>
    requires { Holds picture.old painter.old.rect }
    ensures width { picture.new.width ≡ picture.old.width }
    ensures height { picture.new.height ≡ picture.old.height }
{
    let mut used = 0usize;
    let mut next = slices.first;
    'slices: for _ in 0..data.len() + 1 {
        let end = data.len().min(used.saturating_add(next));
        let told = painter.feed(&data[used..end], picture)?;
        used += told.used;
        if told.done || end == data.len() {
            return Ok(Painted {
                used,
                done: told.done,
            });
        }
        next = slices.others;
    }
    more(used)
}

// What a new painter answers to data in two slices.
fn fed_in_two(
    picture: &mut Picture<Colour>,
    rect: Rect,
    encoding: Encoding,
    format: Format,
    data: &[u8],
    first: usize,
) -> Result<Painted, PaintFault>
    requires { Holds picture.old rect }
    ensures width { picture.new.width ≡ picture.old.width }
    ensures height { picture.new.height ≡ picture.old.height }
{
    let others = data.len();
    let mut painter = Painter::new(rect, encoding, format);
    fed_in(&mut painter, picture, data, Slices { first, others })
}

// Whether the painter, a new one, answers so to data in these slices, and the last places then have
// these colours.
fn paints_in(
    alloc: Global,
    ground: Ground,
    mut painter: Painter,
    data: &[u8],
    slices: Slices,
    answer: Result<Painted, PaintFault>,
    last: &[Colour],
) -> Result<bool, Fail> {
    let mut picture = Picture::new(alloc, ground.width, ground.height, ground.colour)?;
    if !picture.holds(painter.rect()) {
        return Ok(false);
    }
    let told = fed_in(&mut painter, &mut picture, data, slices);
    Ok(told == answer && has_last(&picture, last))
}

// The same of data that are split at each byte, or come in slices of one size.
fn paints_last(
    alloc: Global,
    ground: Ground,
    encoding: Encoding,
    format: Format,
    data: &[u8],
    answer: Result<Painted, PaintFault>,
    last: &[Colour],
) -> Result<bool, Fail> {
    let others = data.len();
    for first in 0..=others {
        let slices = Slices { first, others };
        let painter = Painter::new(ground.rect, encoding, format);
        if !paints_in(alloc, ground, painter, data, slices, answer, last)? {
            return Ok(false);
        }
    }
    for others in [1, 2, 3, 5, 7, 16] {
        let first = others;
        let slices = Slices { first, others };
        let painter = Painter::new(ground.rect, encoding, format);
        if !paints_in(alloc, ground, painter, data, slices, answer, last)? {
            return Ok(false);
        }
    }
    Ok(true)
}

// The same of all places.
fn paints(
    alloc: Global,
    ground: Ground,
    encoding: Encoding,
    format: Format,
    data: &[u8],
    answer: Result<Painted, PaintFault>,
    shown: &[Colour],
) -> Result<bool, Fail> {
    let places = usize::from(ground.height) * usize::from(ground.width);
    let good = paints_last(alloc, ground, encoding, format, data, answer, shown)?;
    Ok(good && shown.len() == places)
}

// A rectangle of all of a row.
fn row_of(width: u16, colour: Colour) -> Ground {
    let rect = Rect {
        x: 0,
        y: 0,
        w: width,
        h: 1,
    };
    Ground {
        width,
        height: 1,
        colour,
        rect,
    }
}
