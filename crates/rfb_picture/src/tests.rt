//! Each call at a small picture of bytes. The values were worked out by hand.

use crate::picture::Picture;
use crate::rect::Rect;
use std::alloc::{AllocError, Global};

/// A picture of bytes, with one value at each place.
pub(crate) fn bytes(
    alloc: Global,
    width: u16,
    height: u16,
    value: u8,
) -> Result<Picture<u8>, AllocError> {
    Picture::new(alloc, width, height, value)
}

fn has_size(picture: &Picture<u8>, width: u16, height: u16) -> bool {
    picture.width() == width && picture.height() == height
}

// These look first that the picture has those places, so a test need not prove it. They answer
// whether it has, and whether what it shows there is this.

/// The value at a place.
pub(crate) fn at(picture: &Picture<u8>, x: u16, y: u16) -> Option<u8> {
    if x < picture.width() && y < picture.height() {
        Some(picture.at(x, y))
    } else {
        None
    }
}

/// The places of row `y` from column `x` on have these values.
pub(crate) fn has_run(picture: &Picture<u8>, x: u16, y: u16, w: u16, wanted: &[u8]) -> bool {
    if u32::from(picture.width()) < u32::from(x) + u32::from(w) || picture.height() <= y {
        return false;
    }
    picture.row(x, y, w) == wanted
}

/// All places have these, row by row from the first on.
pub(crate) fn has_rows(picture: &Picture<u8>, rows: &[&[u8]]) -> bool {
    let (width, height) = (picture.width(), picture.height());
    let mut good = rows.len() == usize::from(height);
    let mut y = 0u16;
    for row in rows {
        good &= has_run(picture, 0, y, width, row);
        y = y.wrapping_add(1);
    }
    good
}

pub(crate) fn put_row(picture: &mut Picture<u8>, x: u16, y: u16, row: &[u8]) -> bool {
    if usize::from(picture.width()) < usize::from(x) + row.len() || picture.height() <= y {
        return false;
    }
    picture.put_row(x, y, row);
    true
}

/// Rows from the first on.
pub(crate) fn put_rows(picture: &mut Picture<u8>, rows: &[&[u8]]) -> bool {
    let mut good = true;
    let mut y = 0u16;
    for row in rows {
        good &= put_row(picture, 0, y, row);
        y = y.wrapping_add(1);
    }
    good
}

pub(crate) fn fill(picture: &mut Picture<u8>, rect: Rect, value: u8) -> bool {
    if !picture.holds(rect) {
        return false;
    }
    picture.fill(rect, value);
    true
}

pub(crate) fn copy_from(picture: &mut Picture<u8>, other: &Picture<u8>) -> bool {
    if picture.width() != other.width() || picture.height() != other.height() {
        return false;
    }
    picture.copy_from(other);
    true
}

fn is_fresh(picture: &Picture<u8>) -> bool {
    has_size(picture, 3, 2)
        && at(picture, 0, 0) == Some(7)
        && at(picture, 2, 1) == Some(7)
        && has_run(picture, 0, 0, 3, &[7, 7, 7])
}

#[test]
fn a_fresh_picture_has_one_value_everywhere(rt: HostRuntime) -> Result<(), AllocError> {
    let picture = bytes(rt.alloc(), 3, 2, 7)?;
    assert!(rt; is_fresh(&picture));
    drop(picture);
    Ok(())
}

fn has_no_place(picture: &Picture<u8>) -> bool {
    has_size(picture, 0, 65_535) && has_run(picture, 0, 65_534, 0, &[])
}

#[test]
fn a_picture_may_have_no_place(rt: HostRuntime) -> Result<(), AllocError> {
    let picture = bytes(rt.alloc(), 0, 65_535, 7)?;
    assert!(rt; has_no_place(&picture));
    drop(picture);
    Ok(())
}

// Rectangles, and whether two places beside one another hold them.
const HELD: [(u16, u16, u16, u16, bool); 12] = [
    (0, 0, 2, 1, true),
    (1, 0, 1, 1, true),
    (1, 0, 2, 1, false),
    (0, 0, 1, 2, false),
    (0, 1, 2, 1, false),
    (65_535, 0, 1, 1, false),
    (65_535, 0, 2, 1, false),
    (65_535, 0, 3, 1, false),
    (0, 65_535, 1, 1, false),
    (0, 65_535, 1, 2, false),
    // Edges of a rectangle with no place.
    (2, 1, 0, 0, true),
    (3, 0, 0, 0, false),
];

fn holds_those(picture: &Picture<u8>) -> bool {
    let mut good = true;
    for (x, y, w, h, held) in HELD {
        good &= picture.holds(Rect { x, y, w, h }) == held;
    }
    good
}

#[test]
fn holds_refuses_a_sum_that_wraps_in_16_bits(rt: HostRuntime) -> Result<(), AllocError> {
    let picture = bytes(rt.alloc(), 2, 1, 0)?;
    assert!(rt; holds_those(&picture));
    drop(picture);
    Ok(())
}

const NONE: [u8; 4] = [0, 0, 0, 0];

fn is_filled_inside(picture: &mut Picture<u8>) -> bool {
    let rect = Rect {
        x: 1,
        y: 1,
        w: 2,
        h: 2,
    };
    let rows: [&[u8]; 4] = [&NONE, &[0, 9, 9, 0], &[0, 9, 9, 0], &NONE];
    fill(picture, rect, 9) && has_rows(picture, &rows)
}

#[test]
fn fills_only_inside_the_rectangle(rt: HostRuntime) -> Result<(), AllocError> {
    let mut picture = bytes(rt.alloc(), 4, 4, 0)?;
    assert!(rt; is_filled_inside(&mut picture));
    drop(picture);
    Ok(())
}

// Rows of five by pieces of two: the last piece lies over the one before it.
fn is_filled_by_pieces(picture: &mut Picture<u8>) -> bool {
    let rect = Rect {
        x: 1,
        y: 0,
        w: 5,
        h: 2,
    };
    if !picture.holds(rect) {
        return false;
    }
    picture.fill_by(rect, 6, &[6, 6]);
    let rows: [&[u8]; 3] = [
        &[0, 6, 6, 6, 6, 6, 0],
        &[0, 6, 6, 6, 6, 6, 0],
        &[0, 0, 0, 0, 0, 0, 0],
    ];
    has_rows(picture, &rows)
}

#[test]
fn fills_by_pieces_only_inside_the_rectangle(rt: HostRuntime) -> Result<(), AllocError> {
    let mut picture = bytes(rt.alloc(), 7, 3, 0)?;
    assert!(rt; is_filled_by_pieces(&mut picture));
    drop(picture);
    Ok(())
}

fn is_put(picture: &mut Picture<u8>) -> bool {
    let rows: [&[u8]; 3] = [&NONE, &[0, 5, 6, 0], &NONE];
    put_row(picture, 1, 1, &[5, 6]) && has_rows(picture, &rows)
}

#[test]
fn puts_a_row_at_its_place(rt: HostRuntime) -> Result<(), AllocError> {
    let mut picture = bytes(rt.alloc(), 4, 3, 0)?;
    assert!(rt; is_put(&mut picture));
    drop(picture);
    Ok(())
}

fn are_lent(picture: &mut Picture<u8>) -> bool {
    put_rows(picture, &[&[1, 2, 3], &[4, 5, 6]])
        && has_run(picture, 1, 0, 2, &[2, 3])
        && has_run(picture, 0, 1, 2, &[4, 5])
        && has_run(picture, 3, 1, 0, &[])
        && at(picture, 2, 0) == Some(3)
        && at(picture, 0, 1) == Some(4)
}

#[test]
fn lends_the_places_of_a_row(rt: HostRuntime) -> Result<(), AllocError> {
    let mut picture = bytes(rt.alloc(), 3, 2, 0)?;
    assert!(rt; are_lent(&mut picture));
    drop(picture);
    Ok(())
}

fn is_copied(from: &mut Picture<u8>, to: &mut Picture<u8>) -> bool {
    let rows: [&[u8]; 2] = [&[1, 2], &[3, 4]];
    put_rows(from, &rows)
        && copy_from(to, from)
        && has_rows(to, &rows)
        && has_run(from, 0, 1, 2, &[3, 4])
}

#[test]
fn copies_every_place(rt: HostRuntime) -> Result<(), AllocError> {
    let mut from = bytes(rt.alloc(), 2, 2, 0)?;
    let mut to = bytes(rt.alloc(), 2, 2, 9)?;
    assert!(rt; is_copied(&mut from, &mut to));
    drop(from);
    drop(to);
    Ok(())
}

fn are_rows_put(picture: &mut Picture<u8>) -> bool {
    let rect = Rect::new(1, 1, 2, 2);
    if !picture.holds(rect) {
        return false;
    }
    picture.put_rows(rect, &[1, 2, 3, 4]);
    has_rows(picture, &[&[7, 7, 7], &[7, 1, 2], &[7, 3, 4]])
}

#[test]
fn rows_are_put_one_under_the_other(rt: HostRuntime) -> Result<(), AllocError> {
    let mut picture = bytes(rt.alloc(), 3, 3, 7)?;
    assert!(rt; are_rows_put(&mut picture));
    drop(picture);
    Ok(())
}

// Ten columns and eight rows move three to the left and five down: seven columns and three rows
// of them stay.
#[test]
fn a_scroll_keeps_what_stays_inside(rt: HostRuntime) -> Result<(), AllocError> {
    let (to, from) = Rect::new(1, 2, 10, 8).scrolled(-3, 5);
    assert_eq!(rt; to, Rect::new(1, 7, 7, 3));
    assert_eq!(rt; from, Rect::new(4, 2, 7, 3));
    Ok(())
}

#[test]
fn a_scroll_by_more_than_all_keeps_nothing(rt: HostRuntime) -> Result<(), AllocError> {
    let (to, from) = Rect::new(1, 2, 10, 8).scrolled(32_767, -32_768);
    assert_eq!(rt; to, Rect::new(11, 2, 0, 0));
    assert_eq!(rt; from, Rect::new(1, 10, 0, 0));
    assert_eq!(rt; Rect::whole(3, 2), Rect::new(0, 0, 3, 2));
    Ok(())
}
