//! The files that lines name: pictures and texts that are read, pictures that are written.

ghost use Rattle.std.specs.Prelude.{◌+◌, ◌≤◌, OnOk};

use crate::working::target::{Target, open_target};
use crate::writing::write_ppm;
use rfb_picture::{Picture, Rect};
use rfb_pixel::Colour;
use rfb_session::drive::{Likeness, Place};
use rfb_session::netpbm::{Pixmap, PixmapError, read_ppm};
use std::alloc::Global;
use std::fs::{File, Files, OpenFile};
use std::io::{ErrorKind, Read, Write};
use std::{io, str};

/// How many bytes a text has at most.
pub const TEXT_MOST: usize = 1 << 20;

// The path that a name is. One that is not UTF-8 is none.
fn path_of(name: &[u8]) -> io::Result<&str> {
    str::from_utf8(name).map_err(|_| io::Error::from(ErrorKind::InvalidInput))
}

/// The picture that a file spells.
pub fn read_picture<P: AllocGlobal + Files>(rt: &P, name: &[u8]) -> Result<Pixmap, PixmapError> {
    let mut file = File::open(rt, path_of(name)?)?;
    read_ppm(rt.alloc(), &mut file)
}

/// The bytes of a file; of more than a text has one too many.
pub fn read_text<P: AllocGlobal + Files>(rt: &P, name: &[u8]) -> io::Result<Vec<u8>> {
    let file = File::open(rt, path_of(name)?)?;
    let mut text = Vec::new(rt.alloc());
    file.take(TEXT_MOST as u64 + 1).read_to_end(&mut text)?;
    Ok(text)
}

/// Writes a part of a picture to a file as PPM, whole or not at all.
pub fn write_part<P: AllocGlobal + Files>(
    rt: &P,
    name: &[u8],
    picture: &Picture<Colour>,
    part: Rect,
) -> io::Result<()> {
    let mut target = open_target(rt, path_of(name)?)?;
    let written = if part == Rect::whole(picture.width(), picture.height()) {
        write_whole(picture, &mut target)
    } else {
        write_rows(rt.alloc(), picture, part, &mut target)
    };
    close(rt, target, written)
}

/// Writes to a folder what a screen shows, and how far it is from what was expected, if anything
/// was.
pub fn write_kept<P: AllocGlobal + Files>(
    rt: &P,
    folder: &str,
    screen: &Picture<Colour>,
    expected: Option<(&Pixmap, Likeness)>,
) -> io::Result<()> {
    let path = format!(in rt.alloc(); "{folder}/screen.ppm")?;
    let mut target = open_target(rt, path.as_str())?;
    let written = write_whole(screen, &mut target);
    close(rt, target, written)?;
    let Some((expected, likeness)) = expected else {
        return Ok(());
    };
    let path = format!(in rt.alloc(); "{folder}/difference.ppm")?;
    let mut target = open_target(rt, path.as_str())?;
    let written = write_difference(rt.alloc(), screen, expected, likeness.at, &mut target);
    close(rt, target, written)
}

// Keeps what was written, or gives it up.
fn close<P: Files, F: OpenFile + Drop>(
    rt: &P,
    target: Target<F>,
    written: io::Result<()>,
) -> io::Result<()> {
    match written {
        Ok(()) => target.keep(rt),
        Err(error) => {
            target.give_up(rt);
            Err(error)
        }
    }
}

// Writes all of a picture as PPM.
fn write_whole<F: OpenFile + Write>(
    picture: &Picture<Colour>,
    target: &mut Target<F>,
) -> io::Result<()> {
    write_ppm(picture, target).map_err(|_| target.failure())
}

// Writes a part of a picture as PPM, as far as it lies there.
fn write_rows<W: Write>(
    alloc: Global,
    picture: &Picture<Colour>,
    part: Rect,
    output: &mut W,
) -> io::Result<()> {
    write_head(picture, part, output)?;
    let mut bytes = Vec::new(alloc);
    for row in 0..part.h {
        let y = part.y.saturating_add(row);
        if y < picture.height() {
            bytes.clear();
            append(picture.row(part.x, y, part.w), &mut bytes)?;
            output.write_all(bytes.as_slice())?;
        }
    }
    output.flush()
}

// Writes the head of a PPM of a part of a screen. It fails where the part leaves the screen on the
// right.
fn write_head<W: Write>(screen: &Picture<Colour>, part: Rect, output: &mut W) -> io::Result<()>
    ensures { OnOk result (part.x + part.w ≤ screen.now.width) }
{
    let columns = usize::from(part.x) + usize::from(part.w);
    if columns > usize::from(screen.width()) {
        return Err(io::Error::from(ErrorKind::InvalidInput));
    }
    write!(output, "P6\n{} {}\n65535\n", part.w, part.h)?;
    Ok(())
}

// Appends colours as PPM has them, two bytes a component.
fn append(colours: &[Colour], bytes: &mut Vec<u8>) -> io::Result<()> {
    for colour in colours {
        bytes.extend_from_slice(&colour.r.to_be_bytes())?;
        bytes.extend_from_slice(&colour.g.to_be_bytes())?;
        bytes.extend_from_slice(&colour.b.to_be_bytes())?;
    }
    Ok(())
}

// Writes as PPM how far each component of a part of a screen is from what was expected there.
fn write_difference<W: Write>(
    alloc: Global,
    screen: &Picture<Colour>,
    expected: &Pixmap,
    at: Place,
    output: &mut W,
) -> io::Result<()> {
    let part = Rect {
        x: at.x,
        y: at.y,
        w: expected.width,
        h: expected.height,
    };
    write_head(screen, part, output)?;
    let mut bytes = Vec::new(alloc);
    let mut y = part.y;
    for wanted in expected.places.chunks(usize::from(part.w).max(1)) {
        if y < screen.height() {
            bytes.clear();
            append_difference(screen.row(part.x, y, part.w), wanted, &mut bytes)?;
            output.write_all(bytes.as_slice())?;
            y += 1;
        }
    }
    output.flush()
}

// Appends how far each component of colours is from that of others.
fn append_difference(a: &[Colour], b: &[Colour], bytes: &mut Vec<u8>) -> io::Result<()> {
    for (a, b) in a.iter().zip(b) {
        append(&[between(*a, *b)], bytes)?;
    }
    Ok(())
}

// How far each component of two colours is apart.
fn between(a: Colour, b: Colour) -> Colour {
    Colour {
        r: a.r.abs_diff(b.r),
        g: a.g.abs_diff(b.g),
        b: a.b.abs_diff(b.b),
    }
}
