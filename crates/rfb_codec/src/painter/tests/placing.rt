//! Where data are painted: copies, later subrectangles over earlier ones, and rectangles that are
//! not at the picture's corner or have no place.

use super::*;

// Whether the last three of four places have what the first three had, where the source came in two
// slices.
fn is_copied(alloc: Global, first: usize) -> Result<bool, Fail> {
    let mut picture = Picture::new(alloc, 4, 1, BLACK)?;
    picture.put_row(0, 0, &[RED, GREEN, BLUE, BLACK]);
    let rect = Rect {
        x: 1,
        y: 0,
        w: 3,
        h: 1,
    };
    let format = Format::rgb888();
    let answer = fed_in_two(&mut picture, rect, Encoding::CopyRect, format, &COPY, first);
    Ok(answer == done(4) && has(&picture, &[RED, RED, GREEN, BLUE]))
}

fn is_copied_at_every_cut(alloc: Global) -> Result<bool, Fail> {
    for first in 0..=4 {
        if !is_copied(alloc, first)? {
            return Ok(false);
        }
    }
    Ok(true)
}

#[test]
fn a_copy_reads_the_source_as_it_stood(rt: HostRuntime) -> Result<(), Fail> {
    assert!(rt; is_copied_at_every_cut(rt.alloc())?);
    Ok(())
}

#[test]
fn the_last_subrectangle_wins(rt: HostRuntime) -> Result<(), Fail> {
    let good = paints(
        rt.alloc(),
        row_of(3, BLUE),
        Encoding::Rre,
        Format::bgr233(),
        &LAST_WINS,
        done(23),
        &[RED, GREEN, GREEN],
    )?;
    assert!(rt; good);
    Ok(())
}

// A rectangle that is not at the picture's corner, over another colour.
#[test]
fn subrectangles_are_placed_in_their_rectangle(rt: HostRuntime) -> Result<(), Fail> {
    let ground = Ground {
        width: 4,
        height: 3,
        colour: RED,
        rect: Rect {
            x: 1,
            y: 1,
            w: 2,
            h: 2,
        },
    };
    let data = [0, 0, 0, 1, 0xC0, 0x38, 0, 1, 0, 1, 0, 1, 0, 1];
    let shown = [
        RED, RED, RED, RED, //
        RED, BLUE, BLUE, RED, //
        RED, BLUE, GREEN, RED,
    ];
    let format = Format::bgr233();
    let good = paints(
        rt.alloc(),
        ground,
        Encoding::Rre,
        format,
        &data,
        done(14),
        &shown,
    )?;
    assert!(rt; good);
    Ok(())
}

// Whether data at bgr233 of a rectangle without places, at the edge of two by one, end after the
// wanted number of the bytes and paint nothing.
fn paints_nothing(
    alloc: Global,
    x: u16,
    w: u16,
    encoding: Encoding,
    data: &[u8],
    used: usize,
) -> Result<bool, Fail> {
    let ground = Ground {
        width: 2,
        height: 1,
        colour: GREEN,
        rect: Rect { x, y: 1, w, h: 0 },
    };
    let shown = [GREEN, GREEN];
    paints(
        alloc,
        ground,
        encoding,
        Format::bgr233(),
        data,
        done(used),
        &shown,
    )
}

// Each has the data of no place: none of Raw, a source, a background, and no tiles.
fn paints_nothing_at(alloc: Global, x: u16, w: u16) -> Result<bool, Fail> {
    for (encoding, data, used) in [
        (Encoding::Raw, [].as_slice(), 0),
        (Encoding::CopyRect, &[0, 0, 0, 1, 0xFF], 4),
        (Encoding::Rre, &[0, 0, 0, 0, 0x07, 0xFF], 5),
        (Encoding::Hextile, &[], 0),
        (Encoding::Hextile, &[0xFF], 0),
    ] {
        if !paints_nothing(alloc, x, w, encoding, data, used)? {
            return Ok(false);
        }
    }
    Ok(true)
}

#[test]
fn an_empty_rectangle_paints_nothing(rt: HostRuntime) -> Result<(), Fail> {
    let corner = paints_nothing_at(rt.alloc(), 2, 0)?;
    let row = paints_nothing_at(rt.alloc(), 0, 2)?;
    assert!(rt; corner && row);
    Ok(())
}
