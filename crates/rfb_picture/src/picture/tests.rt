//! Copies within a picture, and a row lent for writing. The values were worked out by hand, or by a
//! copy from a second picture.

ghost use Rattle.std.specs.Prelude.{◌≡◌, ◌+◌, ◌<◌, ◌≤◌, replicate};
ghost use Rattle.rfb_picture.specs.Grid.{with_row};

use super::Picture;
use super::filling::fill_places;
use crate::rect::Rect;
use crate::tests::{at, bytes, copy_from, fill, has_rows, put_row, put_rows};
use std::alloc::{AllocError, Global};

// It looks first that the picture has those places, so a test need not prove it.
fn copy(picture: &mut Picture<u8>, dst: Rect, sx: u16, sy: u16) -> bool {
    let source = Rect {
        x: sx,
        y: sy,
        ..dst
    };
    if !picture.holds(dst) || !picture.holds(source) {
        return false;
    }
    picture.copy(dst, sx, sy);
    true
}

fn copy_by_lines(picture: &mut Picture<u8>, dst: Rect, sx: u16, sy: u16) -> bool {
    let source = Rect {
        x: sx,
        y: sy,
        ..dst
    };
    if !picture.holds(dst) || !picture.holds(source) {
        return false;
    }
    picture.copy_by_lines(dst, sx, sy);
    true
}

fn is_copied_over(picture: &mut Picture<u8>) -> bool {
    let dst = Rect {
        x: 1,
        y: 1,
        w: 2,
        h: 2,
    };
    put_rows(picture, &[&[1, 2, 3], &[4, 5, 6], &[7, 8, 9]])
        && copy(picture, dst, 0, 0)
        && has_rows(picture, &[&[1, 2, 3], &[4, 1, 2], &[7, 4, 5]])
}

#[test]
fn copies_a_rectangle_over_its_source(rt: HostRuntime) -> Result<(), AllocError> {
    let mut picture = bytes(rt.alloc(), 3, 3, 0)?;
    assert!(rt; is_copied_over(&mut picture));
    drop(picture);
    Ok(())
}

// The rows of 4 by 4 places, each with a value of its own.
const SIXTEEN: [&[u8]; 4] = [
    &[1, 2, 3, 4],
    &[5, 6, 7, 8],
    &[9, 10, 11, 12],
    &[13, 14, 15, 16],
];

#[test]
fn copies_as_from_a_second_picture(rt: HostRuntime) -> Result<(), AllocError> {
    let mut picture = bytes(rt.alloc(), 4, 4, 0)?;
    let mut before = bytes(rt.alloc(), 4, 4, 0)?;
    let put = put_rows(&mut before, &SIXTEEN);
    assert!(rt; put && are_copied(&mut picture, &before) == 3_025);
    drop(picture);
    drop(before);
    Ok(())
}

// How many copies of rectangles up to that size leave what they should.
fn are_copied(picture: &mut Picture<u8>, before: &Picture<u8>) -> u32 {
    let mut copies = 0u32;
    for w in 0..=4 {
        for h in 0..=4 {
            copies = copies.wrapping_add(are_copied_to(picture, before, w, h));
        }
    }
    copies
}

// The same of one size, at each place.
fn are_copied_to(picture: &mut Picture<u8>, before: &Picture<u8>, w: u16, h: u16) -> u32 {
    let (columns, rows) = (4u16.saturating_sub(w), 4u16.saturating_sub(h));
    let mut copies = 0u32;
    for x in 0..=columns {
        for y in 0..=rows {
            let dst = Rect { x, y, w, h };
            copies = copies.wrapping_add(are_copied_from(picture, before, dst, columns, rows));
        }
    }
    copies
}

// The same of one rectangle, from each place up to that one.
fn are_copied_from(
    picture: &mut Picture<u8>,
    before: &Picture<u8>,
    dst: Rect,
    last_x: u16,
    last_y: u16,
) -> u32 {
    let mut copies = 0u32;
    for sx in 0..=last_x {
        for sy in 0..=last_y {
            if is_copied(picture, before, dst, sx, sy) {
                copies = copies.wrapping_add(1);
            }
        }
    }
    copies
}

// Whether both copies leave at each place what a second picture, which nothing was written to,
// has there or at its source. Rows are in other lines each time.
fn is_copied(picture: &mut Picture<u8>, before: &Picture<u8>, dst: Rect, sx: u16, sy: u16) -> bool {
    put_rows(picture, &SIXTEEN)
        && copy(picture, dst, sx, sy)
        && shows_copied(picture, before, dst, sx, sy)
        && put_rows(picture, &SIXTEEN)
        && copy_by_lines(picture, dst, sx, sy)
        && shows_copied(picture, before, dst, sx, sy)
}

fn shows_copied(picture: &Picture<u8>, before: &Picture<u8>, dst: Rect, sx: u16, sy: u16) -> bool {
    let mut same = true;
    for y in 0..4 {
        for x in 0..4 {
            let (from_x, from_y) = source_of(dst, sx, sy, x, y);
            let value = at(picture, x, y);
            same &= value.is_some() && value == at(before, from_x, from_y);
        }
    }
    same
}

// Where the value at (`x`, `y`) comes from.
fn source_of(dst: Rect, sx: u16, sy: u16, x: u16, y: u16) -> (u16, u16) {
    match (x.checked_sub(dst.x), y.checked_sub(dst.y)) {
        (Some(right), Some(down)) if right < dst.w && down < dst.h => {
            (sx.saturating_add(right), sy.saturating_add(down))
        }
        _ => (x, y),
    }
}

// No clause says it: a vector may grow.
#[test]
fn no_call_takes_more_room(rt: HostRuntime) -> Result<(), AllocError> {
    let mut picture = bytes(rt.alloc(), 4, 3, 0)?;
    let other = bytes(rt.alloc(), 4, 3, 9)?;
    let large = bytes(rt.alloc(), 37, 23, 1)?;
    assert!(rt; keeps_its_room(&mut picture, &other) && has_room(&large, 851));
    drop(picture);
    drop(other);
    drop(large);
    Ok(())
}

const ALL: Rect = Rect {
    x: 0,
    y: 0,
    w: 4,
    h: 3,
};

fn has_room(picture: &Picture<u8>, wanted: usize) -> bool {
    picture.places.capacity() == wanted && picture.lines.capacity() == usize::from(picture.height)
}

fn keeps_its_room(picture: &mut Picture<u8>, other: &Picture<u8>) -> bool {
    has_room(picture, 12)
        && copy_from(picture, other)
        && has_room(picture, 12)
        && fill(picture, ALL, 7)
        && put_row(picture, 1, 1, &[5, 6])
        && copy(picture, Rect { w: 3, ..ALL }, 1, 0)
        && copy_by_lines(picture, Rect { h: 2, ..ALL }, 0, 1)
        && lend_and_write(picture)
        && has_room(picture, 12)
}

fn lend_and_write(picture: &mut Picture<u8>) -> bool {
    if picture.width() < 4 || picture.height() < 1 {
        return false;
    }
    picture.row_mut(0, 0, 4)[3] = 1;
    true
}

#[test]
fn lends_a_row_for_writing(rt: HostRuntime) -> Result<(), AllocError> {
    let mut picture = bytes(rt.alloc(), 4, 3, 0)?;
    assert!(rt; is_lent(&mut picture));
    drop(picture);
    Ok(())
}

#[test]
fn lends_a_row_whose_line_has_moved(rt: HostRuntime) -> Result<(), AllocError> {
    let mut picture = bytes(rt.alloc(), 4, 4, 0)?;
    assert!(rt; is_lent_after_a_move(&mut picture));
    drop(picture);
    Ok(())
}

// The first three rows go one down; then a pair is written.
fn is_lent_after_a_move(picture: &mut Picture<u8>) -> bool {
    let down = Rect {
        x: 0,
        y: 1,
        w: 4,
        h: 3,
    };
    let moved = put_rows(picture, &SIXTEEN) && copy_by_lines(picture, down, 0, 0);
    if !moved || picture.width() < 4 || picture.height() < 3 {
        return false;
    }
    write_pair(picture, 2, 2, &[80, 90]);
    has_rows(
        picture,
        &[SIXTEEN[0], SIXTEEN[0], &[5, 6, 80, 90], SIXTEEN[2]],
    )
}

const NONE: [u8; 4] = [0, 0, 0, 0];

fn is_lent(picture: &mut Picture<u8>) -> bool {
    write_five_and_six(picture)
        && has_rows(picture, &[&NONE, &[0, 5, 6, 0], &NONE])
        && write_sevens_and_a_pair(picture)
        && has_rows(picture, &[&[0, 0, 8, 9], &[0, 5, 6, 0], &[7, 7, 7, 0]])
}

fn write_five_and_six(picture: &mut Picture<u8>) -> bool {
    if picture.width() < 3 || picture.height() < 2 {
        return false;
    }
    let row = picture.row_mut(1, 1, 2);
    row[0] = 5;
    row[1] = 6;
    true
}

fn write_sevens_and_a_pair(picture: &mut Picture<u8>) -> bool {
    if picture.width() < 4 || picture.height() < 3 {
        return false;
    }
    fill_row(picture, 0, 2, 3, 7);
    write_pair(picture, 2, 0, &[8, 9]);
    true
}

// Gives `value` to `w` places of row `y`, from column `x` on, through a loan of them.
fn fill_row<T: Copy>(picture: &mut Picture<T>, x: u16, y: u16, w: u16, value: T)
    requires columns { x + w ≤ picture.old.width }
    requires row { y < picture.old.height }
    ensures value { picture.new ≡ with_row x y (replicate w value) picture.old }
    ensures width { picture.new.width ≡ picture.old.width }
    ensures height { picture.new.height ≡ picture.old.height }
{
    let row = picture.row_mut(x, y, w);
    fill_places(row, 0, usize::from(w), value, &[]);
}

// Writes two values at (`x`, `y`), through a loan of their places.
#[tactic(auto, using(crate::proofs::LoanLemmas::run_in_row))]
fn write_pair<T: Copy>(picture: &mut Picture<T>, x: u16, y: u16, pair: &[T; 2])
    requires columns { x + 2 ≤ picture.old.width }
    requires row { y < picture.old.height }
    ensures value { picture.new ≡ with_row x y pair.now picture.old }
    ensures width { picture.new.width ≡ picture.old.width }
    ensures height { picture.new.height ≡ picture.old.height }
{
    picture.row_mut(x, y, 2).copy_from_slice(pair);
}
