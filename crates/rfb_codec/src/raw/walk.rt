//! Pixels row by row, in runs of whole ones and across the slices that they come in.

ghost use Rattle.std.specs.Prelude.{◌≡◌, ℕ, List, ◌+◌, ◌*◌, ◌<◌, ◌≤◌, ◌++◌, length, take, min};
ghost use Rattle.arrayvec.specs.ArrayVec.{array_vec_len};
ghost use Rattle.rfb_pixel.specs.declared.colour.Colour.{Colour};
ghost use Rattle.rfb_pixel.specs.Format.{size_of};
ghost use Rattle.rfb_picture.specs.Grid.{Grid};
ghost use Rattle.rfb_codec.specs.declared.painter.stage.Stage.TheVariants.{InPixels};
ghost use Rattle.rfb_codec.specs.decoder.Step.{IsPaintable};
ghost use Rattle.rfb_codec.specs.Stage.{places_before};
ghost use Rattle.rfb_codec.specs.decoder.Step.{StandsPixels, Takes};

use super::paint::{Lines, Run, paint_lines, paint_run};
use crate::painter::gather::{Pending, gather};
use crate::painter::rectangle::Rectangle;
use crate::painter::stage::{Place, Stage, Step};
use rfb_picture::{Picture, Rect};
use rfb_pixel::{Colour, Format};

/// Paints pixels of a rectangle from a place on: the whole rows that the bytes begin with, or the
/// whole pixels of its row, or the pending one at its last byte. Returns how many bytes it used,
/// and the next place.
pub fn take_pixels(
    format: Format,
    rect: Rect,
    at: Place,
    pending: &mut Pending,
    bytes: &[u8],
    picture: &mut Picture<Colour>,
) -> (usize, Place)
    requires place { IsPaintable picture.old rect }
    requires column { at.x < rect.w }
    requires row { at.y < rect.h }
    requires short { array_vec_len pending.old < size_of format }
    requires some { 0 < length bytes.now }
    ensures some { 0 < result.0 }
    ensures used { result.0 ≤ length bytes.now }
    ensures column { result.1.x < rect.w }
    ensures short { array_vec_len pending.new < size_of format }
    ensures goes_on { (before : Grid Colour) (body : List ℕ) →
        StandsPixels format rect at pending.old.items picture.old before body →
        StandsPixels format rect result.1 pending.new.items picture.new before
        (body ++ take result.0 bytes.now) }
    ensures width { picture.new.width ≡ picture.old.width }
    ensures height { picture.new.height ≡ picture.old.height }
{
    let size = format.size();
    if pending.is_empty() && at.x == 0 {
        let rows = whole_rows(rect.w, rect.h - at.y, size, bytes);
        if rows > 0 {
            let high = usize::from(rows);
            let wide = usize::from(rect.w);
            let used = high * (wide * size);
            let lines = Lines {
                top: at.y,
                count: rows,
            };
            paint_lines(format, rect, lines, &bytes[..used], picture);
            return (
                used,
                Place {
                    x: 0,
                    y: at.y + rows,
                },
            );
        }
    }
    if pending.is_empty() && bytes.len() >= size {
        let run = whole_pixels(rect.w - at.x, size, bytes);
        let count = usize::from(run);
        let used = count * size;
        paint_run(
            format,
            rect,
            Run { at, count: run },
            &bytes[..used],
            picture,
        );
        return (used, place_after(rect.w, at, run));
    }
    let used = gather(pending, size, bytes);
    if pending.len() < size {
        return (used, at);
    }
    paint_run(
        format,
        rect,
        Run { at, count: 1 },
        pending.as_slice(),
        picture,
    );
    pending.clear();
    (used, place_after(rect.w, at, 1))
}

/// Takes pixels of Raw, from a place of the rectangle on.
#[inline(never)]
pub fn take_run(
    rectangle: &Rectangle,
    at: Place,
    pending: &mut Pending,
    bytes: &[u8],
    picture: &mut Picture<Colour>,
) -> Step
    requires place { IsPaintable picture.old rectangle.now.rect }
    requires column { at.x < rectangle.now.rect.w }
    requires row { at.y < rectangle.now.rect.h }
    requires short { array_vec_len pending.old < size_of rectangle.now.format }
    requires some { 0 < length bytes.now }
    ensures { Takes rectangle.now (InPixels at) pending.old.items picture.old bytes.now result
        pending.new.items picture.new }
{
    let Rectangle { format, rect } = *rectangle;
    let (used, at) = take_pixels(format, rect, at, pending, bytes, picture);
    Step {
        used,
        stage: Stage::InPixels { at },
    }
}

// How many whole rows of `width` pixels bytes begin with, at most `most`.
fn whole_rows(width: u16, most: u16, size: usize, bytes: &[u8]) -> u16
    requires size { (0 < size) × (size ≤ 4) }
    requires some { 0 < width }
    ensures most { result ≤ most }
    ensures whole { result * (width * size) ≤ length bytes.now }
{
    let row = usize::from(width) * size;
    if usize::from(most) * row <= bytes.len() {
        most
    } else {
        (bytes.len() / row) as u16
    }
}

// How many whole pixels of that size bytes begin with, at most `most`.
fn whole_pixels(most: u16, size: usize, bytes: &[u8]) -> u16
    requires size { (0 < size) × (size ≤ 4) }
    requires most { 0 < most }
    requires one { size ≤ length bytes.now }
    ensures some { 0 < result }
    ensures most { result ≤ most }
    ensures whole { result * size ≤ length bytes.now }
{
    if usize::from(most) * size <= bytes.len() {
        most
    } else {
        (bytes.len() / size) as u16
    }
}

// The place that comes `count` places later in a row.
fn place_after(width: u16, at: Place, count: u16) -> Place
    requires row { at.x + count ≤ width }
    requires some { 0 < width }
    requires last { at.y < 65535 }
    ensures count { places_before width result ≡ places_before width at + count }
    ensures column { result.x < width }
{
    if at.x + count < width {
        Place {
            x: at.x + count,
            y: at.y,
        }
    } else {
        Place { x: 0, y: at.y + 1 }
    }
}
