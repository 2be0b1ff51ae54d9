//! Each call at a small set. The values were worked out by hand.

use super::*;

fn set_of(alloc: Global, width: u16, height: u16) -> Result<PlaceSet, AllocError> {
    PlaceSet::new(alloc, width, height)
}

fn rect(x: u16, y: u16, w: u16, h: u16) -> Rect {
    Rect { x, y, w, h }
}

// These look first that the set has those places, so a test need not prove it. They answer whether
// it has, and whether it then tells this.
fn add(set: &mut PlaceSet, rect: Rect) -> bool {
    if u32::from(set.width()) < u32::from(rect.x) + u32::from(rect.w)
        || u32::from(set.height()) < u32::from(rect.y) + u32::from(rect.h)
    {
        return false;
    }
    set.add(rect);
    true
}

fn has(set: &PlaceSet, x: u16, y: u16, wanted: bool) -> bool {
    x < set.width() && y < set.height() && set.has(x, y) == wanted
}

fn has_all(set: &PlaceSet, rect: Rect, wanted: bool) -> bool {
    u32::from(rect.x) + u32::from(rect.w) <= u32::from(set.width())
        && u32::from(rect.y) + u32::from(rect.h) <= u32::from(set.height())
        && set.has_all(rect) == wanted
}

fn has_bits(set: &PlaceSet, x: u16, y: u16, wanted: u64) -> bool {
    x % 64 == 0 && x < set.width() && y < set.height() && set.row_bits(x, y) == wanted
}

fn has_bounds(set: &PlaceSet, cell: Rect, wanted: Option<Rect>) -> bool {
    u32::from(cell.x) + u32::from(cell.w) <= u32::from(set.width())
        && u32::from(cell.y) + u32::from(cell.h) <= u32::from(set.height())
        && set.bounds_in(cell) == wanted
}

// And these, that the two sets are of one size.
fn take_away(set: &mut PlaceSet, other: &PlaceSet) -> bool {
    if set.width() != other.width() || set.height() != other.height() {
        return false;
    }
    set.take_away(other);
    true
}

fn copy_from(set: &mut PlaceSet, other: &PlaceSet) -> bool {
    if set.width() != other.width() || set.height() != other.height() {
        return false;
    }
    set.copy_from(other);
    true
}

fn has_next_of_both(set: &PlaceSet, other: &PlaceSet, from: usize, wanted: Option<usize>) -> bool {
    set.width() == other.width()
        && set.height() == other.height()
        && set.next_cell_of_both(other, from) == wanted
}

fn has_next(set: &PlaceSet, from: usize, wanted: Option<usize>) -> bool {
    set.next_cell(from) == wanted
}

fn has_size(set: &PlaceSet, width: u16, height: u16) -> bool {
    set.width() == width && set.height() == height
}

fn clear(set: &mut PlaceSet) {
    set.clear();
}

// All of a set of 66 by 2 places.
const WIDE: Rect = Rect {
    x: 0,
    y: 0,
    w: 66,
    h: 2,
};

const MIDDLE: Rect = Rect {
    x: 63,
    y: 1,
    w: 2,
    h: 1,
};

#[test]
fn a_set_tells_what_was_added(rt: HostRuntime) -> Result<(), AllocError> {
    let mut set = set_of(rt.alloc(), 66, 2)?;
    let mut copy = set_of(rt.alloc(), 66, 2)?;
    assert!(rt; is_added(&mut set) && is_copied(&mut copy, &mut set));
    drop(set);
    drop(copy);
    Ok(())
}

fn is_added(set: &mut PlaceSet) -> bool {
    has_size(set, 66, 2)
        && has_bounds(set, WIDE, None)
        && add(set, MIDDLE)
        && has_ends(set)
        && has_bounds(set, WIDE, Some(MIDDLE))
}

fn has_ends(set: &PlaceSet) -> bool {
    let mut good = true;
    for (x, y, wanted) in [
        (62, 1, false),
        (63, 1, true),
        (64, 1, true),
        (65, 1, false),
        (63, 0, false),
        (64, 0, false),
    ] {
        good &= has(set, x, y, wanted);
    }
    good
}

// Whether a copy keeps what the set then loses.
fn is_copied(copy: &mut PlaceSet, set: &mut PlaceSet) -> bool {
    let copied = copy_from(copy, set);
    clear(set);
    copied && has_bounds(set, WIDE, None) && has_bounds(copy, WIDE, Some(MIDDLE))
}

#[test]
fn a_set_loses_what_another_has(rt: HostRuntime) -> Result<(), AllocError> {
    let mut set = set_of(rt.alloc(), 130, 66)?;
    let mut other = set_of(rt.alloc(), 130, 66)?;
    assert!(rt; loses_a_hole(&mut set, &mut other));
    assert!(rt; loses_a_cell(&mut set, &mut other));
    assert!(rt; is_cleared(&mut other));
    drop(set);
    drop(other);
    Ok(())
}

fn loses_a_hole(set: &mut PlaceSet, other: &mut PlaceSet) -> bool {
    let all = rect(0, 0, 130, 66);
    let hole = rect(62, 1, 4, 1);
    add(set, all)
        && add(other, hole)
        && has_all(set, all, true)
        && take_away(set, other)
        && has_all(set, all, false)
        && has_all(set, hole, false)
        && has_bounds(set, hole, None)
        && has_hole(set)
}

fn has_hole(set: &PlaceSet) -> bool {
    has_bits(set, 0, 1, u64::MAX >> 2)
        && has_bits(set, 64, 1, u64::MAX << 2)
        && has_bits(set, 128, 1, 0b11)
        && has_bits(set, 0, 0, u64::MAX)
}

fn loses_a_cell(set: &mut PlaceSet, other: &mut PlaceSet) -> bool {
    let cell = rect(0, 0, 64, 64);
    add(other, cell)
        && take_away(set, other)
        && has_bounds(set, cell, None)
        && has(set, 0, 64, true)
}

fn is_cleared(set: &mut PlaceSet) -> bool {
    clear(set);
    has_bits(set, 64, 1, 0)
}

// A cell of three by two, a place of another, and that place of a set of its own.
fn spread(set: &mut PlaceSet, other: &mut PlaceSet) -> bool {
    let place = rect(65, 65, 1, 1);
    add(set, place) && add(set, rect(128, 64, 2, 2)) && add(other, place)
}

#[test]
fn cells_with_a_place_come_in_reading_order(rt: HostRuntime) -> Result<(), AllocError> {
    let mut set = set_of(rt.alloc(), 130, 66)?;
    let mut other = set_of(rt.alloc(), 130, 66)?;
    assert!(rt; come_in_order(&mut set, &mut other));
    drop(set);
    drop(other);
    Ok(())
}

fn come_in_order(set: &mut PlaceSet, other: &mut PlaceSet) -> bool {
    has_next(set, 0, None)
        && spread(set, other)
        && has_two_cells(set)
        && has_next_of_both(set, other, 0, Some(4))
        && has_next_of_both(set, other, 5, None)
}

fn has_two_cells(set: &PlaceSet) -> bool {
    let mut good = true;
    for (from, wanted) in [
        (0, Some(4)),
        (4, Some(4)),
        (5, Some(5)),
        (6, None),
        (usize::MAX, None),
    ] {
        good &= has_next(set, from, wanted);
    }
    good
}

#[test]
fn a_cell_that_lost_its_places_is_passed_over(rt: HostRuntime) -> Result<(), AllocError> {
    let mut set = set_of(rt.alloc(), 130, 66)?;
    let mut other = set_of(rt.alloc(), 130, 66)?;
    assert!(rt; is_passed_over(&mut set, &mut other));
    drop(set);
    drop(other);
    Ok(())
}

fn is_passed_over(set: &mut PlaceSet, other: &mut PlaceSet) -> bool {
    spread(set, other)
        && take_away(set, other)
        && has_next(set, 0, Some(5))
        && has_next(set, 6, None)
        && has_next_of_both(set, other, 0, None)
}
