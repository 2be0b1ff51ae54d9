//! Raw, RFC 6143 section 7.7.1: pixels row by row.

ghost use Rattle.std.specs.Prelude.{◌≡◌, ◌+◌, ◌*◌, ◌<◌, ◌≤◌, length};
ghost use Rattle.rfb_pixel.specs.Format.{size_of, rgb888};
ghost use Rattle.rfb_codec.specs.Raw.{raw_length};
ghost use Rattle.rfb_codec.specs.encoder.Announced.{announced};
ghost use Rattle.rfb_codec.specs.decoder.Step.{IsPaintable, PaintsPixels, PaintsRaw, first_of_row};
ghost use Rattle.rfb_codec.specs.Stage.{places_before};

use crate::hextile::tiles::TILE;
use crate::painter::stage::Place;
use rfb_picture::{Picture, Rect};
use rfb_pixel::{Colour, Format};

// The formats that this project announces, by number.
const RGB888: usize = 0;

const RGB565: usize = 1;

const BGR233: usize = 2;

/// Paints each row of the rectangle.
pub fn paint_rows(format: Format, rect: Rect, bytes: &[u8], picture: &mut Picture<Colour>)
    requires place { IsPaintable picture.old rect }
    requires whole { length bytes.now ≡ raw_length format rect.w rect.h }
    ensures { PaintsRaw format rect bytes.now picture.old picture.new }
{
    // Each format that this project announces has a function with one loop, by a format that is
    // known before it runs. At rgb888 a whole tile has its own.
    if format == Format::rgb888() {
        if rect.w == TILE && rect.h == TILE {
            tile_rows_rgb888(rect, bytes, picture);
        } else {
            rows_of::<RGB888>(rect, bytes, picture);
        }
    } else if format == Format::rgb565() {
        rows_of::<RGB565>(rect, bytes, picture);
    } else if format == Format::bgr233() {
        rows_of::<BGR233>(rect, bytes, picture);
    } else {
        rows_other(format, rect, bytes, picture);
    }
}

// How many bytes a row of a tile has at rgb888.
const TILE_ROW: usize = 64;

// The same of a whole tile at rgb888: its loop knows how many pixels a row has.
#[inline(never)]
fn tile_rows_rgb888(rect: Rect, bytes: &[u8], picture: &mut Picture<Colour>)
    requires place { IsPaintable picture.old rect }
    requires wide { rect.w ≡ 16 }
    requires high { rect.h ≡ 16 }
    requires whole { length bytes.now ≡ raw_length rgb888 rect.w rect.h }
    ensures { PaintsRaw rgb888 rect bytes.now picture.old picture.new }
{
    for row in 0..TILE {
        let start = usize::from(row) * TILE_ROW;
        let places = picture.row_mut(rect.x, rect.y + row, TILE);
        Format::unpack_sixteen(&bytes[start..start + TILE_ROW], places);
    }
}

// The same in the announced format of that number, of any size.
#[inline(never)]
fn rows_of<const NUMBER: usize>(rect: Rect, bytes: &[u8], picture: &mut Picture<Colour>)
    requires place { IsPaintable picture.old rect }
    requires whole { length bytes.now ≡ raw_length (announced NUMBER) rect.w rect.h }
    ensures { PaintsRaw (announced NUMBER) rect bytes.now picture.old picture.new }
{
    rows_in(announced::<NUMBER>(), rect, bytes, picture);
}

#[inline(always)]
fn announced<const NUMBER: usize>() -> Format
    ensures { result ≡ announced NUMBER }
{
    if NUMBER == RGB888 {
        Format::rgb888()
    } else if NUMBER == RGB565 {
        Format::rgb565()
    } else {
        Format::bgr233()
    }
}

// The same in any format.
#[inline(never)]
fn rows_other(format: Format, rect: Rect, bytes: &[u8], picture: &mut Picture<Colour>)
    requires place { IsPaintable picture.old rect }
    requires whole { length bytes.now ≡ raw_length format rect.w rect.h }
    ensures { PaintsRaw format rect bytes.now picture.old picture.new }
{
    rows_in(format, rect, bytes, picture);
}

// The same, by one loop for every format.
#[inline(always)]
fn rows_in(format: Format, rect: Rect, bytes: &[u8], picture: &mut Picture<Colour>)
    requires place { IsPaintable picture.old rect }
    requires whole { length bytes.now ≡ raw_length format rect.w rect.h }
    ensures { PaintsRaw format rect bytes.now picture.old picture.new }
{
    let length = usize::from(rect.w) * format.size();
    for row in 0..rect.h {
        let start = usize::from(row) * length;
        let places = picture.row_mut(rect.x, rect.y + row, rect.w);
        format.unpack_row(&bytes[start..start + length], places);
    }
}

/// Whole rows of a rectangle: the first of them, and how many.
#[derive(Clone, Copy, Debug)]
pub struct Lines {
    pub top: u16,
    pub count: u16,
}

/// Paints whole rows of the rectangle, whose pixels follow those of the rows above.
pub fn paint_lines(
    format: Format,
    rect: Rect,
    lines: Lines,
    bytes: &[u8],
    picture: &mut Picture<Colour>,
)
    requires place { IsPaintable picture.old rect }
    requires rows { lines.top + lines.count ≤ rect.h }
    requires whole { length bytes.now ≡ lines.count * (rect.w * size_of format) }
    ensures { PaintsPixels format rect (first_of_row rect.w lines.top) (lines.count * rect.w)
        bytes.now picture.old picture.new }
{
    // The formats that this project announces are known before it runs, and their loops are far
    // shorter.
    if format == Format::rgb888() {
        lines_in(Format::rgb888(), rect, lines, bytes, picture);
    } else if format == Format::rgb565() {
        lines_in(Format::rgb565(), rect, lines, bytes, picture);
    } else if format == Format::bgr233() {
        lines_in(Format::bgr233(), rect, lines, bytes, picture);
    } else {
        lines_in(format, rect, lines, bytes, picture);
    }
}

// The same, by one loop for every format.
#[inline(always)]
fn lines_in(format: Format, rect: Rect, lines: Lines, bytes: &[u8], picture: &mut Picture<Colour>)
    requires place { IsPaintable picture.old rect }
    requires rows { lines.top + lines.count ≤ rect.h }
    requires whole { length bytes.now ≡ lines.count * (rect.w * size_of format) }
    ensures { PaintsPixels format rect (first_of_row rect.w lines.top) (lines.count * rect.w)
        bytes.now picture.old picture.new }
{
    let size = usize::from(rect.w) * format.size();
    'lines: for row in 0..lines.count {
        // This also shows that the picture has a colour at each place, and that places are numbered
        // in 16 bits.
        prove!(rect.w <= picture.width() && rect.h <= picture.height());
        let at = Place {
            x: 0,
            y: lines.top + row,
        };
        let start = usize::from(row) * size;
        let line = &bytes[start..start + size];
        paint_run(format, rect, Run { at, count: rect.w }, line, picture);
    }
}

/// Places of one row of a rectangle: the first of them, and how many.
#[derive(Clone, Copy, Debug)]
pub struct Run {
    pub at: Place,
    pub count: u16,
}

/// Paints pixels of one row of the rectangle, which follow those of the places before it.
#[inline(always)]
pub fn paint_run(format: Format, rect: Rect, run: Run, bytes: &[u8], picture: &mut Picture<Colour>)
    requires place { IsPaintable picture.old rect }
    requires row { run.at.y < rect.h }
    requires columns { run.at.x + run.count ≤ rect.w }
    requires whole { length bytes.now ≡ run.count * size_of format }
    ensures { PaintsPixels format rect (places_before rect.w run.at) run.count bytes.now
        picture.old picture.new }
{
    let places = picture.row_mut(rect.x + run.at.x, rect.y + run.at.y, run.count);
    format.unpack_row(bytes, places);
}
