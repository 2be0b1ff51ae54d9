//! Rows that differ at each of their places, at two of them, and nowhere.

ghost use Rattle.std.specs.Prelude.{◌≡◌, ◌+◌, ◌<◌, ◌≤◌, length};

use super::*;

const LONGEST: usize = 200;

// A row in which each place has a value of its own.
fn row() -> [u32; LONGEST] {
    let mut row = [0; LONGEST];
    let mut value: u32 = 0x9E37_79B9;
    for place in row.iter_mut() {
        value = value.wrapping_mul(1_664_525).wrapping_add(1_013_904_223);
        *place = value;
    }
    row
}

// Whether these two places, or the one, are found of two rows that differ there and nowhere else.
fn tells(a: &[u32], b: &[u32], first: usize, last: usize) -> bool
    requires { length a.now ≡ length b.now }
{
    first_diff(a, b) == Some(first) && last_diff(a, b) == Some(last)
}

// Whether the outermost differences of a part of two rows are found, wherever in it they are.
fn tells_all(from: usize, to: usize) -> bool
    requires order { from ≤ to }
    requires end { to ≤ 200 }
{
    let a = row();
    for first in from..to {
        let mut b = a;
        b[first] = !a[first];
        if !tells(&a[from..to], &b[from..to], first - from, first - from) {
            return false;
        }
        let last = to - 1;
        b[last] = !a[last];
        if !tells(&a[from..to], &b[from..to], first - from, last - from) {
            return false;
        }
    }
    first_diff(&a[from..to], &a[from..to]).is_none()
        && last_diff(&a[from..to], &a[from..to]).is_none()
}

#[test]
fn differences_are_found_at_each_place_of_each_length(rt: HostRuntime) {
    for to in 0..=LONGEST {
        let told = tells_all(0, to);
        assert!(rt; told, "a row of {to}");
    }
    for from in 1..5 {
        let told = tells_all(from, LONGEST);
        assert!(rt; told, "a row from {from} on");
    }
}

// Whether all places from `from` to `to` are counted as equal, where every third of a row differs.
fn counts(from: usize, to: usize) -> bool
    requires order { from ≤ to }
    requires end { to ≤ 200 }
{
    let a = row();
    let mut b = a;
    let mut equal: usize = 0;
    for place in from..to {
        if place % 3 == 1 {
            b[place] = !a[place];
        } else {
            equal = equal.wrapping_add(1);
        }
    }
    count_equal(&a[from..to], &b[from..to]) == equal
        && count_equal(&a[from..to], &a[from..to]) == to - from
}

#[test]
fn equal_places_are_counted_in_rows_of_each_length(rt: HostRuntime) {
    for to in 0..=LONGEST {
        let counted = counts(0, to);
        assert!(rt; counted, "a row of {to}");
    }
    for from in 1..5 {
        let counted = counts(from, LONGEST);
        assert!(rt; counted, "a row from {from} on");
    }
}

// Whether a run of sevens before a place is as long as that, in a row from its start on.
fn ends_at(place: usize) -> bool
    requires { place < 200 }
{
    let mut row = [7; LONGEST];
    row[place] = 9;
    run_of(&row, 7) == place
        && run_of(&row[place..], 7) == 0
        && run_of(&row[place + 1..], 7) == 199 - place
}

#[test]
fn a_run_ends_at_the_first_other_place(rt: HostRuntime) {
    for place in 0..LONGEST {
        let ends = ends_at(place);
        assert!(rt; ends, "place {place}");
    }
}

// Whether each difference of two rows of at most 64 places sets its bit alone.
fn tells_each(from: usize, to: usize) -> bool
    requires order { from ≤ to }
    requires end { to ≤ from + 64 }
    requires within { to ≤ 200 }
{
    let a = row();
    let mut all = a;
    for place in from..to {
        let mut b = a;
        b[place] = !a[place];
        all[place] = !a[place];
        if differing(&a[from..to], &b[from..to]) != 1 << (place - from) {
            return false;
        }
    }
    let told = differing(&a[from..to], &all[from..to]);
    told.count_ones() as usize == to - from && told.trailing_ones() as usize == to - from
}

#[test]
fn each_difference_of_a_row_has_its_bit(rt: HostRuntime) {
    for to in 0..=64 {
        let told = tells_each(0, to);
        assert!(rt; told, "a row of {to}");
    }
    for from in 1..5 {
        let told = tells_each(from, from + 64);
        assert!(rt; told, "a row from {from} on");
    }
}

// Whether each other place of a row of at most 64 places sets its bit alone.
fn tells_each_other(from: usize, to: usize) -> bool
    requires order { from ≤ to }
    requires end { to ≤ from + 64 }
    requires within { to ≤ 200 }
{
    for place in from..to {
        let mut row = [7; LONGEST];
        row[place] = 9;
        if others_in(&row[from..to], 7) != 1 << (place - from) {
            return false;
        }
    }
    let told = others_in(&[7; LONGEST][from..to], 9);
    told.count_ones() as usize == to - from && told.trailing_ones() as usize == to - from
}

#[test]
fn each_other_place_of_a_row_has_its_bit(rt: HostRuntime) {
    for to in 0..=64 {
        let told = tells_each_other(0, to);
        assert!(rt; told, "a row of {to}");
    }
    for from in 1..5 {
        let told = tells_each_other(from, from + 64);
        assert!(rt; told, "a row from {from} on");
    }
}
