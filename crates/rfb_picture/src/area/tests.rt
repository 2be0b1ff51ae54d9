//! Areas against plain lists of marks, at widths and heights about those of a word.

mod plain;

use super::*;
use plain::{Numbers, Plain};

const SIZES: [u16; 6] = [1, 63, 64, 65, 128, 200];

fn area_of(alloc: Global, width: u16, height: u16) -> Result<Area, AllocError> {
    Area::new(alloc, width, height)
}

// These look first that the area has those places, so a test need not prove it. They answer whether
// it has them, and whether it then says so.
fn add(area: &mut Area, rect: Rect, whole: bool) -> bool {
    if u32::from(area.width()) < u32::from(rect.x) + u32::from(rect.w)
        || u32::from(area.height()) < u32::from(rect.y) + u32::from(rect.h)
    {
        return false;
    }
    area.add(rect, whole);
    true
}

fn has_bounds(area: &Area, cell: Rect, wanted: Option<Rect>) -> bool {
    u32::from(cell.x) + u32::from(cell.w) <= u32::from(area.width())
        && u32::from(cell.y) + u32::from(cell.h) <= u32::from(area.height())
        && area.bounds_in(cell) == wanted
}

// Whether a place is asked, and whether it is whole.
fn has_marks(area: &Area, x: u16, y: u16, wanted: (bool, bool)) -> bool {
    x < area.width()
        && y < area.height()
        && area.is_asked(x, y) == wanted.0
        && area.is_whole(x, y) == wanted.1
}

// Of the first row.
fn has_bits(set: &PlaceSet, x: u16, wanted: u64) -> bool {
    x % 64 == 0 && x < set.width() && 0 < set.height() && set.row_bits(x, 0) == wanted
}

fn copy_to(copy: &mut Area, area: &Area) -> bool {
    if copy.width() != area.width() || copy.height() != area.height() {
        return false;
    }
    copy.copy_from(area);
    true
}

fn clear(area: &mut Area) {
    area.clear();
}

fn size(area: &Area) -> (u16, u16) {
    (area.width(), area.height())
}

fn place(x: u16, y: u16, w: u16, h: u16) -> Rect {
    Rect { x, y, w, h }
}

#[test]
fn areas_tell_what_plain_lists_tell(rt: HostRuntime) -> Result<(), AllocError> {
    let mut numbers = Numbers { state: 7 };
    for width in SIZES {
        for height in SIZES {
            let same = tells_the_same(rt.alloc(), width, height, &mut numbers)?;
            assert!(rt; same, "{width} by {height}");
        }
    }
    Ok(())
}

fn tells_the_same(
    alloc: Global,
    width: u16,
    height: u16,
    numbers: &mut Numbers,
) -> Result<bool, AllocError> {
    let mut plain = Plain::new(alloc, width, height)?;
    let mut area = area_of(alloc, width, height)?;
    let good = act_in_turn(&mut area, &mut plain, numbers);
    drop(area);
    drop(plain);
    Ok(good)
}

fn act_in_turn(area: &mut Area, plain: &mut Plain, numbers: &mut Numbers) -> bool {
    let mut good = true;
    for turn in 0..24 {
        good &= act(area, plain, numbers);
        if turn % 6 == 5 {
            good &= is_same(area, plain);
        }
        good &= are_bounds_same(area, plain, numbers);
    }
    good
}

// One call, the same of both: mostly a rectangle more, now and then none at all.
fn act(area: &mut Area, plain: &mut Plain, numbers: &mut Numbers) -> bool {
    if numbers.below(8) == 0 {
        clear(area);
        plain.clear();
        return true;
    }
    let (width, height) = size(area);
    let rect = numbers.rect(width, height);
    let whole = numbers.below(3) == 0;
    plain.add(rect, whole);
    add(area, rect, whole)
}

fn is_same(area: &Area, plain: &Plain) -> bool {
    let (width, height) = size(area);
    let mut good = true;
    for y in 0..height {
        for x in 0..width {
            good &= has_marks(area, x, y, plain.marks(x, y));
        }
    }
    good
}

fn are_bounds_same(area: &Area, plain: &Plain, numbers: &mut Numbers) -> bool {
    let (width, height) = size(area);
    let mut good = true;
    for _ in 0..4 {
        let cell = numbers.rect(width, height);
        good &= has_bounds(area, cell, plain.bounds_in(cell));
    }
    good
}

#[test]
fn an_area_lends_its_two_sets(rt: HostRuntime) -> Result<(), AllocError> {
    let mut area = area_of(rt.alloc(), 65, 2)?;
    assert!(rt; lends_its_sets(&mut area));
    drop(area);
    Ok(())
}

fn lends_its_sets(area: &mut Area) -> bool {
    add(area, place(0, 0, 65, 1), false)
        && add(area, place(63, 0, 2, 1), true)
        && has_bits(area.asked(), 0, u64::MAX)
        && has_bits(area.whole(), 0, 1 << 63)
        && has_bits(area.whole(), 64, 1)
}

// Under cells that became whole, and under those of a set that was cleared, marks of earlier
// additions are still there.
#[test]
fn marks_of_earlier_additions_never_show(rt: HostRuntime) -> Result<(), AllocError> {
    let mut numbers = Numbers { state: 11 };
    for width in SIZES {
        for height in SIZES {
            let good = shows_no_marks(rt.alloc(), width, height, &mut numbers)?;
            assert!(rt; good, "{width} by {height}");
        }
    }
    Ok(())
}

fn shows_no_marks(
    alloc: Global,
    width: u16,
    height: u16,
    numbers: &mut Numbers,
) -> Result<bool, AllocError> {
    let mut plain = Plain::new(alloc, width, height)?;
    let mut area = area_of(alloc, width, height)?;
    let good = add_and_clear(&mut area, &mut plain, numbers)
        && add_and_clear(&mut area, &mut plain, numbers);
    drop(area);
    drop(plain);
    Ok(good)
}

// All, then none; a part, then all, then none; a place, then a part.
fn add_and_clear(area: &mut Area, plain: &mut Plain, numbers: &mut Numbers) -> bool {
    let (width, height) = size(area);
    let all = place(0, 0, width, height);
    let one = place(numbers.below(width), numbers.below(height), 1, 1);
    let first = numbers.rect(width, height);
    let second = numbers.rect(width, height);
    add_to_both(area, plain, all)
        && clear_both(area, plain)
        && add_to_both(area, plain, first)
        && add_to_both(area, plain, all)
        && clear_both(area, plain)
        && add_to_both(area, plain, one)
        && add_to_both(area, plain, second)
}

fn add_to_both(area: &mut Area, plain: &mut Plain, rect: Rect) -> bool {
    plain.add(rect, true);
    add(area, rect, true) && is_same(area, plain)
}

fn clear_both(area: &mut Area, plain: &mut Plain) -> bool {
    clear(area);
    plain.clear();
    is_same(area, plain)
}

#[test]
fn a_place_once_whole_stays_whole(rt: HostRuntime) -> Result<(), AllocError> {
    let mut area = area_of(rt.alloc(), 4, 4)?;
    assert!(rt; stays_whole(&mut area));
    assert!(rt; is_cleared(&mut area));
    drop(area);
    Ok(())
}

fn stays_whole(area: &mut Area) -> bool {
    let all = place(0, 0, 4, 4);
    has_bounds(area, all, None)
        && add(area, place(0, 0, 2, 2), false)
        && add(area, place(1, 1, 2, 2), true)
        && add(area, place(1, 1, 1, 1), false)
        && has_bounds(area, all, Some(place(0, 0, 3, 3)))
        && has_marks(area, 1, 1, (true, true))
        && has_marks(area, 0, 0, (true, false))
        && has_marks(area, 3, 3, (false, false))
}

fn is_cleared(area: &mut Area) -> bool {
    clear(area);
    has_bounds(area, place(0, 0, 4, 4), None) && has_marks(area, 1, 1, (false, false))
}

#[test]
fn a_copy_has_both_sets(rt: HostRuntime) -> Result<(), AllocError> {
    let mut area = area_of(rt.alloc(), 70, 3)?;
    let mut copy = area_of(rt.alloc(), 70, 3)?;
    assert!(rt; is_copied(&mut area, &mut copy));
    drop(area);
    drop(copy);
    Ok(())
}

fn is_copied(area: &mut Area, copy: &mut Area) -> bool {
    add(area, place(63, 0, 2, 2), false)
        && add(area, place(67, 1, 2, 2), true)
        && add(copy, place(0, 0, 3, 3), true)
        && copy_to(copy, area)
        && has_bounds(copy, place(0, 0, 70, 3), Some(place(63, 0, 6, 3)))
        && has_marks(copy, 63, 0, (true, false))
        && has_marks(copy, 68, 2, (true, true))
        && has_marks(area, 68, 2, (true, true))
}

#[test]
fn an_area_may_have_no_place(rt: HostRuntime) -> Result<(), AllocError> {
    let mut area = area_of(rt.alloc(), 0, 65_535)?;
    assert!(rt; has_no_place(&mut area));
    drop(area);
    Ok(())
}

fn has_no_place(area: &mut Area) -> bool {
    let all = place(0, 0, 0, 65_535);
    add(area, all, true) && has_bounds(area, all, None) && size(area) == (0, 65_535)
}

#[test]
fn the_last_place_of_the_largest_area_is_found(rt: HostRuntime) -> Result<(), AllocError> {
    let mut area = area_of(rt.alloc(), 65_535, 2)?;
    assert!(rt; tells_its_last_place(&mut area));
    drop(area);
    Ok(())
}

fn tells_its_last_place(area: &mut Area) -> bool {
    let all = place(0, 0, 65_535, 2);
    let last = place(65_534, 1, 1, 1);
    add(area, last, false)
        && has_bounds(area, all, Some(last))
        && add(area, place(0, 0, 1, 1), false)
        && has_bounds(area, all, Some(all))
}
